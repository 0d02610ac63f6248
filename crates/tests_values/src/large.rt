// Objects of many cells, which take room when they are set.
use crate::stores::{INT, SEVEN, copy, enter, leave, load, place, save};
use cr_memory::{Cell, Guard, Scalar, Store, Trap};
use std::process::Abort;

const MANY: u32 = 1_000_000;

const FREE: (Scalar, Guard) = (INT, Guard::Free);

fn enter_many(rt: &impl Abort, store: &mut Store, zero: bool) -> u32 {
    let entered = store.enter_times(&[FREE], MANY, zero);
    assert!(rt; entered.is_ok(), "it was refused");
    entered.unwrap_or(0)
}

fn expect_cell(rt: &impl Abort, store: &Store, object: u32, cell: u32, wanted: Result<Cell, Trap>) {
    let found = load(rt, store, place(object, cell, 0, MANY, 1), INT);
    assert!(rt; found == wanted, "{object} {cell}");
}

fn set_cell(rt: &impl Abort, store: &mut Store, object: u32, cell: u32, value: Cell) {
    let at = place(object, cell, 0, MANY, 1);
    assert!(rt;
        save(rt, store, at, INT, value) == Ok(()),
        "the store answered otherwise"
    );
}

fn clear(rt: &impl Abort, store: &mut Store, object: u32) {
    assert!(rt; store.is_live(object), "the object isn't alive");
    store.clear(object);
}

#[test]
fn a_cell_of_a_large_object_is_set_and_its_neighbours_stay(rt: HostRuntime) {
    let mut store = Store::new(rt.alloc(), 2 * MANY);
    let unset = enter_many(&rt, &mut store, false);
    let zero = enter_many(&rt, &mut store, true);
    for cell in [0, 255, 256, MANY - 1] {
        expect_cell(&rt, &store, unset, cell, Err(Trap::Undefined(11)));
        expect_cell(&rt, &store, zero, cell, Ok(Cell::Number(0)));
    }
    set_cell(&rt, &mut store, unset, 256, SEVEN);
    set_cell(&rt, &mut store, zero, MANY - 1, SEVEN);
    expect_cell(&rt, &store, unset, 255, Err(Trap::Undefined(11)));
    expect_cell(&rt, &store, unset, 256, Ok(SEVEN));
    expect_cell(&rt, &store, unset, 257, Err(Trap::Undefined(11)));
    expect_cell(&rt, &store, zero, MANY - 2, Ok(Cell::Number(0)));
    expect_cell(&rt, &store, zero, MANY - 1, Ok(SEVEN));
}

#[test]
fn a_large_object_is_cleared_and_leaves_beside_small_ones(rt: HostRuntime) {
    let mut store = Store::new(rt.alloc(), MANY + 6);
    let before = enter(&rt, &mut store, &[FREE; 3], true);
    let large = enter_many(&rt, &mut store, false);
    let behind = enter(&rt, &mut store, &[FREE; 3], false);
    assert!(rt;
        store.enter_times(&[FREE], MANY, false) == Err(Trap::Left(3)),
        "the store answered otherwise"
    );
    // A structure of three cells on both sides of the end of a block, from the object behind and to the one before.
    for cell in 0..3 {
        let at = place(behind, cell, 0, 3, 1);
        assert!(rt;
            save(&rt, &mut store, at, INT, Cell::Number(i128::from(cell))) == Ok(()),
            "the store answered otherwise"
        );
    }
    let (from, middle) = (place(behind, 0, 0, 3, 3), place(large, 255, 255, 258, 3));
    assert!(rt;
        copy(&rt, &mut store, from, middle, 3) == Ok(()),
        "the store answered otherwise"
    );
    assert!(rt;
        copy(&rt, &mut store, middle, place(before, 0, 0, 3, 3), 3) == Ok(()),
        "the store answered otherwise"
    );
    clear(&rt, &mut store, large);
    expect_cell(&rt, &store, large, 256, Err(Trap::Undefined(11)));
    leave(&rt, &mut store, large);
    expect_cell(&rt, &store, large, 0, Err(Trap::Undefined(10)));
    for object in [before, behind] {
        let found = load(&rt, &store, place(object, 2, 0, 3, 1), INT);
        assert!(rt; found == Ok(Cell::Number(2)), "{object}");
    }
}
