use crate::rows::expect_text;
use crate::stores::{INT, LONG, enter, has_stride, leave, load, place};
use cr_memory::{Cell, Guard, Pointer, Scalar, Store, Trap};
use std::alloc::AllocError;
use std::process::Abort;

const TWO: Cell = Cell::Number(2);

const ONE: Cell = Cell::Number(1);

// Two ints, one after the other, as one structure.
fn whole(object: u32) -> Pointer {
    place(object, 0, 0, 2, 2)
}

fn end(object: u32) -> Pointer {
    place(object, 2, 0, 2, 2)
}

fn put(
    rt: &impl Abort,
    store: &mut Store,
    to: Pointer,
    first: Scalar,
    second: Scalar,
) -> Result<(), Trap> {
    assert!(rt;
        store.is_pointer(to) && has_stride(to, 2),
        "no pointer of the store, or another stride"
    );
    assert!(rt;
        store.holds(first, ONE) && store.holds(second, TWO),
        "the cell's kind doesn't hold the value"
    );
    store.put(to, &[first, second], &[ONE, TWO])
}

fn reach(rt: &impl Abort, store: &Store, at: Pointer) -> Result<(), Trap> {
    assert!(rt; store.is_pointer(at), "no pointer of the store");
    store.reach(at)
}

// The objects 0 to 3: an int and a long; a long and a constant int; a constant long and an int of a literal; one that has ended.
fn several_objects(rt: &impl Abort, store: &mut Store) {
    enter(rt, store, &[(INT, Guard::Free), (LONG, Guard::Free)], false);
    enter(
        rt,
        store,
        &[(LONG, Guard::Free), (INT, Guard::Constant)],
        false,
    );
    enter(
        rt,
        store,
        &[(LONG, Guard::Constant), (INT, Guard::Literal)],
        false,
    );
    let ended = enter(rt, store, &[(INT, Guard::Free), (LONG, Guard::Free)], false);
    leave(rt, store, ended);
}

#[test]
fn a_write_of_a_structure_has_the_first_case_of_all_its_cells(
    rt: HostRuntime,
) -> Result<(), AllocError> {
    let mut store = Store::new(rt.alloc(), 100);
    several_objects(&rt, &mut store);
    let answers = [
        put(&rt, &mut store, whole(0), INT, INT),
        put(&rt, &mut store, whole(1), INT, INT),
        put(&rt, &mut store, whole(2), INT, INT),
        put(&rt, &mut store, end(0), INT, LONG),
        put(&rt, &mut store, Pointer::Null, INT, LONG),
        put(&rt, &mut store, end(3), INT, LONG),
    ];
    let found = format!(in rt.alloc(); "{answers:?}");
    let wanted =
        "[Err(Left(5)), Err(Undefined(14)), Err(Undefined(13)), Err(Undefined(9)), Err(Undefined(9)), Err(Undefined(10))]";
    expect_text(&rt, found, wanted, "refused")
}

#[test]
fn a_structure_that_was_written_is_read(rt: HostRuntime) -> Result<(), AllocError> {
    let mut store = Store::new(rt.alloc(), 100);
    several_objects(&rt, &mut store);
    let (first, second) = (place(0, 0, 0, 1, 1), place(0, 1, 1, 2, 1));
    let refused = put(&rt, &mut store, whole(0), INT, INT);
    let unset = load(&rt, &store, first, INT);
    let written = put(&rt, &mut store, whole(0), INT, LONG);
    let answers = (
        refused,
        unset,
        written,
        load(&rt, &store, first, INT),
        load(&rt, &store, second, LONG),
    );
    let found = format!(in rt.alloc(); "{answers:?}");
    let wanted = "(Err(Left(5)), Err(Undefined(11)), Ok(()), Ok(Number(1)), Ok(Number(2)))";
    expect_text(&rt, found, wanted, "written")
}

#[test]
fn a_cell_of_a_live_object_is_reached(rt: HostRuntime) -> Result<(), AllocError> {
    let mut store = Store::new(rt.alloc(), 100);
    several_objects(&rt, &mut store);
    let answers = [
        reach(&rt, &store, whole(2)),
        reach(&rt, &store, end(2)),
        reach(&rt, &store, Pointer::Null),
        reach(&rt, &store, whole(3)),
        reach(&rt, &store, end(3)),
    ];
    let found = format!(in rt.alloc(); "{answers:?}");
    let wanted =
        "[Ok(()), Err(Undefined(9)), Err(Undefined(9)), Err(Undefined(10)), Err(Undefined(10))]";
    expect_text(&rt, found, wanted, "reached")
}
