use crate::rows::{expect_text, number, rows, triple};
use crate::stores::{INT, LONG, SEVEN, copy, enter, has_stride, leave, load, place, save};
use cr_ints::IntKind;
use cr_memory::{Cell, Element, Guard, Pointer, Scalar, Store, Trap};
use std::alloc::{AllocError, Global};
use std::process::Abort;
use std::str::SplitWhitespace;
use std::test::Fail;

const CHAR: Scalar = Scalar::Int(IntKind::Char);

const TO_INT: Scalar = Scalar::Pointer(0);

// The objects of `several_objects` have the numbers from 0 on. A place is `null`, or the numbers of its object and its cell,
// where its array begins and ends, and the cells of an element.
//
// Places, kinds, and what a load answers. In the last four rows two cases hold: U10 and U9, U10 and N5, U9 and N5, N5 and U11.
const LOADS: &str = "
0 5 3 6 1¦int¦Ok(Number(0))
3 0 0 1 1¦int*¦Ok(Pointer(Null))
null¦int¦Err(Undefined(9))
0 3 0 3 1¦int¦Err(Undefined(9))
5 0 0 1 1¦int¦Err(Undefined(10))
6 0 0 1 1¦int*¦Err(Undefined(10))
4 0 0 1 1¦int¦Err(Undefined(11))
0 0 0 3 1¦long¦Err(Left(5))
3 0 0 1 1¦long*¦Err(Left(5))
5 1 0 1 1¦int¦Err(Undefined(10))
6 0 0 1 1¦int¦Err(Undefined(10))
0 6 3 6 1¦long¦Err(Undefined(9))
4 0 0 1 1¦long¦Err(Left(5))
";

// The same for a write. From the seventh row on two cases hold: U10 and U9, U9 and U13, U13 and N5, U14 and N5; the last is done.
const WRITES: &str = "
null¦int¦Err(Undefined(9))
0 6 3 6 1¦int¦Err(Undefined(9))
5 0 0 1 1¦int¦Err(Undefined(10))
2 0 0 2 1¦char¦Err(Undefined(13))
1 0 0 1 1¦int¦Err(Undefined(14))
0 0 0 3 1¦long¦Err(Left(5))
5 1 0 1 1¦int¦Err(Undefined(10))
2 2 0 2 1¦char¦Err(Undefined(9))
2 0 0 2 1¦int¦Err(Undefined(13))
1 0 0 1 1¦long¦Err(Undefined(14))
0 4 3 6 1¦int¦Ok(())
";

// Two places, and what a copy of one cell from the first to the second answers.
const COPIES: &str = "
4 0 0 1 1¦0 0 0 6 1¦Ok(())
6 0 0 1 1¦3 0 0 1 1¦Ok(())
null¦0 0 0 6 1¦Err(Undefined(9))
0 0 0 6 1¦5 1 0 1 1¦Err(Undefined(10))
0 0 0 6 1¦2 0 0 2 1¦Err(Undefined(13))
3 0 0 1 1¦1 0 0 1 1¦Err(Undefined(14))
3 0 0 1 1¦0 0 0 6 1¦Err(Left(5))
";

// Places, the elements by which they move, and where they are then.
const MOVES: &str = "
0 0 0 3 1¦3¦Ok(At { object: 0, cell: 3, low: 0, high: 3, element: Element { cells: 1, of: 0 } })
0 0 0 3 1¦4¦Err(Undefined(6))
0 0 0 3 1¦-1¦Err(Undefined(6))
0 0 0 3 1¦170141183460469231731687303715884105727¦Err(Undefined(6))
0 0 0 6 3¦1¦Ok(At { object: 0, cell: 3, low: 0, high: 6, element: Element { cells: 3, of: 0 } })
0 0 0 6 3¦2¦Ok(At { object: 0, cell: 6, low: 0, high: 6, element: Element { cells: 3, of: 0 } })
0 0 0 6 3¦3¦Err(Undefined(6))
null¦0¦Err(Undefined(6))
5 0 0 1 1¦9¦Err(Undefined(10))
";

// Two places, whether the first is less, and whether they are equal.
const COMPARISONS: &str = "
0 2 0 3 1¦0 0 0 3 1¦Ok(false) Ok(false)
0 0 0 3 1¦0 2 0 3 1¦Ok(true) Ok(false)
0 0 0 3 1¦0 0 0 6 3¦Ok(false) Ok(true)
0 0 0 3 1¦0 3 3 6 1¦Ok(true) Ok(false)
0 0 0 3 1¦0 6 3 6 1¦Err(Undefined(8)) Ok(false)
0 3 0 3 1¦0 3 3 6 1¦Err(Undefined(8)) Err(Left(6))
0 6 3 6 1¦0 6 0 6 1¦Err(Undefined(8)) Err(Left(6))
0 6 0 6 3¦0 0 0 6 3¦Ok(false) Ok(false)
0 3 0 3 1¦0 3 0 3 3¦Ok(false) Ok(true)
0 0 0 3 1¦1 0 0 1 1¦Err(Undefined(8)) Ok(false)
null¦null¦Err(Undefined(8)) Ok(true)
null¦1 0 0 1 1¦Err(Undefined(8)) Ok(false)
0 6 3 6 1¦1 0 0 1 1¦Err(Undefined(8)) Err(Left(6))
1 0 0 1 1¦0 6 3 6 1¦Err(Undefined(8)) Err(Left(6))
5 0 0 1 1¦5 0 0 1 1¦Err(Undefined(10)) Err(Undefined(10))
0 6 3 6 1¦5 0 0 1 1¦Err(Undefined(10)) Err(Undefined(10))
";

// Two places, and how many elements the first is behind the second.
const DISTANCES: &str = "
0 2 0 3 1¦0 0 0 3 1¦Ok(2)
0 0 0 3 1¦0 2 0 3 1¦Ok(-2)
0 6 0 6 3¦0 0 0 6 3¦Ok(2)
0 0 0 3 1¦0 3 3 6 1¦Err(Undefined(7))
0 0 0 3 1¦1 0 0 1 1¦Err(Undefined(7))
null¦null¦Err(Undefined(7))
5 0 0 1 1¦0 0 0 3 1¦Err(Undefined(10))
";

// The next number of a place; a word that is none is in no memory.
fn next(words: &mut SplitWhitespace<'_>) -> u32 {
    match words.next() {
        Some(word) => word.parse().unwrap_or(u32::MAX),
        None => u32::MAX,
    }
}

fn place_of(cell: &str) -> Pointer {
    if cell == "null" {
        return Pointer::Null;
    }
    let mut words = cell.split_whitespace();
    Pointer::At {
        object: next(&mut words),
        cell: next(&mut words),
        low: next(&mut words),
        high: next(&mut words),
        element: Element {
            cells: next(&mut words),
            of: 0,
        },
    }
}

fn kind_of(cell: &str) -> Scalar {
    match cell {
        "char" => CHAR,
        "int" => INT,
        "long" => LONG,
        "int*" => TO_INT,
        _ => Scalar::Pointer(1),
    }
}

fn begin(rt: &impl Abort, store: &mut Store, object: u32, cell: u32, value: Cell) {
    let kind = store.kind_of(object, cell);
    assert!(rt; kind.is_some(), "nothing where something should be");
    if let Some(kind) = kind {
        assert!(rt;
            store.holds(kind, value),
            "the cell's kind doesn't hold the value"
        );
        store.begin(object, cell, value);
    }
}

fn expect_load(rt: &impl Abort, store: &Store, at: Pointer, wanted: Result<Cell, Trap>) {
    let found = load(rt, store, at, INT);
    assert!(rt; found == wanted, "{at:?}");
}

fn expect_full(rt: &impl Abort, store: &mut Store, shape: &[(Scalar, Guard)], zero: bool) {
    assert!(rt;
        store.enter(shape, zero) == Err(Trap::Left(3)),
        "the store answered otherwise"
    );
}

fn expect_unset(rt: &impl Abort, alloc: Global, store: &Store, whole: Pointer) -> Result<(), Fail> {
    assert!(rt; store.is_pointer(whole), "no pointer of the store");
    let kinds = [INT; 6];
    assert!(rt; has_stride(whole, 6), "the pointer has another stride");
    let cells = store.cells(alloc, whole, &kinds).ok().ok_or("no cells")?;
    assert!(rt;
        cells.as_slice() == [Cell::Unset; 6].as_slice(),
        "other cells, or other rows"
    );
    Ok(())
}

#[test]
fn six_cells_fit_and_seven_do_not(rt: HostRuntime) -> Result<(), Fail> {
    let mut store = Store::new(rt.alloc(), 6);
    let seven = [(INT, Guard::Free); 7];
    let six = [(INT, Guard::Free); 6];
    expect_full(&rt, &mut store, &seven, false);
    let object = enter(&rt, &mut store, &six, false);
    expect_full(&rt, &mut store, &[(INT, Guard::Free)], false);
    expect_unset(&rt, rt.alloc(), &store, place(object, 0, 0, 6, 6))?;
    let (first, end) = (place(object, 0, 0, 6, 1), place(object, 6, 0, 6, 1));
    expect_load(&rt, &store, first, Err(Trap::Undefined(11)));
    expect_load(&rt, &store, end, Err(Trap::Undefined(9)));
    leave(&rt, &mut store, object);
    expect_load(&rt, &store, first, Err(Trap::Undefined(10)));
    Ok(())
}

/// `int a[2][3]`, `const int k`, `"x"`, `int *p`, an unset `int u`, an `int e` that has ended, and `int *q` with `&e`.
fn several_objects(rt: &impl Abort, store: &mut Store) {
    enter(rt, store, &[(INT, Guard::Free); 6], true);
    enter(rt, store, &[(INT, Guard::Constant)], true);
    enter(rt, store, &[(CHAR, Guard::Literal); 2], true);
    enter(rt, store, &[(TO_INT, Guard::Free)], true);
    enter(rt, store, &[(INT, Guard::Free)], false);
    enter(rt, store, &[(INT, Guard::Free)], true);
    enter(rt, store, &[(TO_INT, Guard::Free)], true);
    let to_e = Cell::Pointer(place(5, 0, 0, 1, 1));
    assert!(rt;
        save(rt, store, place(6, 0, 0, 1, 1), TO_INT, to_e).is_ok(),
        "it was refused"
    );
    leave(rt, store, 5);
}

fn expect_loaded(
    rt: &impl Abort,
    alloc: Global,
    store: &Store,
    row: &str,
) -> Result<(), AllocError> {
    let (at, kind, wanted) = triple(row);
    let found = load(rt, store, place_of(at), kind_of(kind));
    expect_text(rt, format!(in alloc; "{found:?}"), wanted, row)
}

#[test]
fn a_load_answers_the_first_case(rt: HostRuntime) -> Result<(), AllocError> {
    let mut store = Store::new(rt.alloc(), 100);
    several_objects(&rt, &mut store);
    for row in rows(LOADS) {
        expect_loaded(&rt, rt.alloc(), &store, row)?;
    }
    Ok(())
}

fn expect_saved(
    rt: &impl Abort,
    alloc: Global,
    store: &mut Store,
    row: &str,
) -> Result<(), AllocError> {
    let (at, kind, wanted) = triple(row);
    let found = save(rt, store, place_of(at), kind_of(kind), SEVEN);
    expect_text(rt, format!(in alloc; "{found:?}"), wanted, row)
}

#[test]
fn a_write_answers_the_first_case(rt: HostRuntime) -> Result<(), AllocError> {
    let mut store = Store::new(rt.alloc(), 100);
    several_objects(&rt, &mut store);
    for row in rows(WRITES) {
        expect_saved(&rt, rt.alloc(), &mut store, row)?;
    }
    expect_load(&rt, &store, place(0, 4, 0, 6, 1), Ok(SEVEN));
    expect_load(&rt, &store, place(0, 3, 0, 6, 1), Ok(Cell::Number(0)));
    begin(&rt, &mut store, 1, 0, SEVEN);
    expect_load(&rt, &store, place(1, 0, 0, 1, 1), Ok(SEVEN));
    Ok(())
}

#[test]
fn a_copy_reads_all_cells_before_it_writes_one(rt: HostRuntime) {
    let mut store = Store::new(rt.alloc(), 100);
    several_objects(&rt, &mut store);
    for (cell, value) in [(0, 1), (1, 2), (2, 3)] {
        let at = place(0, cell, 0, 6, 1);
        assert!(rt;
            save(&rt, &mut store, at, INT, Cell::Number(value)) == Ok(()),
            "the store answered otherwise"
        );
    }
    // The structures of two cells at 0 and at 1 overlap, in one array each.
    let (from, to) = (place(0, 0, 0, 6, 2), place(0, 1, 1, 5, 2));
    assert!(rt;
        copy(&rt, &mut store, from, to, 2) == Ok(()),
        "the store answered otherwise"
    );
    for (cell, value) in [(0, 1), (1, 1), (2, 2), (3, 0)] {
        let at = place(0, cell, 0, 6, 1);
        expect_load(&rt, &store, at, Ok(Cell::Number(value)));
    }
}

fn expect_copied(
    rt: &impl Abort,
    alloc: Global,
    store: &mut Store,
    row: &str,
) -> Result<(), AllocError> {
    let (from, to, wanted) = triple(row);
    let found = copy(rt, store, place_of(from), place_of(to), 1);
    expect_text(rt, format!(in alloc; "{found:?}"), wanted, row)
}

#[test]
fn a_copy_answers_the_first_case(rt: HostRuntime) -> Result<(), AllocError> {
    let mut store = Store::new(rt.alloc(), 100);
    several_objects(&rt, &mut store);
    for row in rows(COPIES) {
        expect_copied(&rt, rt.alloc(), &mut store, row)?;
    }
    // The unset cell and the pointer to an ended object were copied as they are.
    expect_load(&rt, &store, place(0, 0, 0, 6, 1), Err(Trap::Undefined(11)));
    let ended = load(&rt, &store, place(3, 0, 0, 1, 1), TO_INT);
    assert!(rt;
        ended == Err(Trap::Undefined(10)),
        "the store answered otherwise"
    );
    Ok(())
}

fn shift(rt: &impl Abort, store: &Store, at: Pointer, by: i128) -> Result<Pointer, Trap> {
    assert!(rt; store.is_pointer(at), "no pointer of the store");
    store.shift(at, by)
}

fn expect_moved(rt: &impl Abort, alloc: Global, store: &Store, row: &str) -> Result<(), Fail> {
    let (at, by, wanted) = triple(row);
    let found = shift(rt, store, place_of(at), number(by)?);
    Ok(expect_text(rt, format!(in alloc; "{found:?}"), wanted, row)?)
}

#[test]
fn a_pointer_moves_in_its_array(rt: HostRuntime) -> Result<(), Fail> {
    let mut store = Store::new(rt.alloc(), 100);
    several_objects(&rt, &mut store);
    for row in rows(MOVES) {
        expect_moved(&rt, rt.alloc(), &store, row)?;
    }
    Ok(())
}

fn compare(
    rt: &impl Abort,
    store: &Store,
    left: Pointer,
    right: Pointer,
) -> (Result<bool, Trap>, Result<bool, Trap>) {
    assert!(rt;
        store.is_pointer(left) && store.is_pointer(right),
        "no pointer of the store"
    );
    (store.less(left, right), store.same(left, right))
}

fn expect_compared(
    rt: &impl Abort,
    alloc: Global,
    store: &Store,
    row: &str,
) -> Result<(), AllocError> {
    let (left, right, wanted) = triple(row);
    let (order, equality) = compare(rt, store, place_of(left), place_of(right));
    expect_text(rt, format!(in alloc; "{order:?} {equality:?}"), wanted, row)
}

#[test]
fn pointers_compare_in_their_object(rt: HostRuntime) -> Result<(), AllocError> {
    let mut store = Store::new(rt.alloc(), 100);
    several_objects(&rt, &mut store);
    for row in rows(COMPARISONS) {
        expect_compared(&rt, rt.alloc(), &store, row)?;
    }
    Ok(())
}

fn differ(rt: &impl Abort, store: &Store, left: Pointer, right: Pointer) -> Result<i128, Trap> {
    assert!(rt;
        store.is_pointer(left) && store.is_pointer(right),
        "no pointer of the store"
    );
    store.differ(left, right)
}

fn expect_distance(
    rt: &impl Abort,
    alloc: Global,
    store: &Store,
    row: &str,
) -> Result<(), AllocError> {
    let (left, right, wanted) = triple(row);
    let found = differ(rt, store, place_of(left), place_of(right));
    expect_text(rt, format!(in alloc; "{found:?}"), wanted, row)
}

#[test]
fn pointers_have_a_distance_in_one_array(rt: HostRuntime) -> Result<(), AllocError> {
    let mut store = Store::new(rt.alloc(), 100);
    several_objects(&rt, &mut store);
    for row in rows(DISTANCES) {
        expect_distance(&rt, rt.alloc(), &store, row)?;
    }
    Ok(())
}

#[test]
fn many_objects_come_and_go(rt: HostRuntime) {
    let mut store = Store::new(rt.alloc(), 100);
    several_objects(&rt, &mut store);
    for number in 7..50_007 {
        let object = enter(&rt, &mut store, &[(INT, Guard::Free); 3], false);
        assert!(rt; object == number, "{object} and not {number}");
        leave(&rt, &mut store, object);
    }
    // Objects may be left in the order in which they were entered, too.
    let first = enter(&rt, &mut store, &[(INT, Guard::Free); 44], true);
    let second = enter(&rt, &mut store, &[(INT, Guard::Free); 44], true);
    expect_full(&rt, &mut store, &[(INT, Guard::Free)], true);
    leave(&rt, &mut store, first);
    expect_load(
        &rt,
        &store,
        place(second, 43, 0, 44, 1),
        Ok(Cell::Number(0)),
    );
    expect_load(
        &rt,
        &store,
        place(first, 0, 0, 44, 1),
        Err(Trap::Undefined(10)),
    );
    leave(&rt, &mut store, second);
    expect_load(&rt, &store, place(0, 0, 0, 6, 1), Ok(Cell::Number(0)));
}

#[test]
fn lifetimes_need_not_nest(rt: HostRuntime) {
    let mut store = Store::new(rt.alloc(), 100);
    several_objects(&rt, &mut store);
    let mut last = enter(&rt, &mut store, &[(INT, Guard::Free); 3], true);
    for round in 0..500u32 {
        let value = Cell::Number(i128::from(round));
        let next = enter(&rt, &mut store, &[(INT, Guard::Free); 3], false);
        begin(&rt, &mut store, next, 1, value);
        leave(&rt, &mut store, last);
        last = next;
        let at = place(last, 1, 0, 3, 1);
        expect_load(&rt, &store, at, Ok(value));
    }
    expect_load(&rt, &store, place(0, 5, 3, 6, 1), Ok(Cell::Number(0)));
    expect_load(&rt, &store, place(4, 0, 0, 1, 1), Err(Trap::Undefined(11)));
}
