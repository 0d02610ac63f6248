// What the tests of the memory do to a store, with what a call asks for asserted before it.
ghost use Rattle.std.specs.Prelude.{◌≡◌, ◌↔◌, IsTrue};
ghost use Rattle.cr_memory.specs.Access.{HasStride};

use cr_ints::IntKind;
use cr_memory::{Cell, Element, Guard, Pointer, Scalar, Store, Trap};
use std::process::Abort;

pub(crate) const INT: Scalar = Scalar::Int(IntKind::Int);

pub(crate) const LONG: Scalar = Scalar::Int(IntKind::Long);

pub(crate) const SEVEN: Cell = Cell::Number(7);

/// A place in an array of elements of so many cells, from `low` to below `high`.
pub(crate) fn place(object: u32, cell: u32, low: u32, high: u32, cells: u32) -> Pointer
    ensures { result ≡ Pointer.At object cell low high (record { cells = cells; of = 0 }) }
{
    Pointer::At {
        object,
        cell,
        low,
        high,
        element: Element { cells, of: 0 },
    }
}

pub(crate) fn has_stride(at: Pointer, count: u32) -> bool
    ensures { IsTrue result ↔ HasStride at count }
{
    match at {
        Pointer::Null => true,
        Pointer::At { element, .. } => element.cells == count,
    }
}

pub(crate) fn enter(
    rt: &impl Abort,
    store: &mut Store,
    shape: &[(Scalar, Guard)],
    zero: bool,
) -> u32 {
    let entered = store.enter(shape, zero);
    assert!(rt; entered.is_ok(), "it was refused");
    entered.unwrap_or(0)
}

pub(crate) fn leave(rt: &impl Abort, store: &mut Store, object: u32) {
    assert!(rt; store.is_live(object), "the object isn't alive");
    store.leave(object);
}

pub(crate) fn load(
    rt: &impl Abort,
    store: &Store,
    at: Pointer,
    kind: Scalar,
) -> Result<Cell, Trap> {
    assert!(rt; store.is_pointer(at), "no pointer of the store");
    store.load(at, kind)
}

pub(crate) fn save(
    rt: &impl Abort,
    store: &mut Store,
    at: Pointer,
    kind: Scalar,
    value: Cell,
) -> Result<(), Trap> {
    assert!(rt; store.is_pointer(at), "no pointer of the store");
    assert!(rt;
        store.holds(kind, value),
        "the cell's kind doesn't hold the value"
    );
    store.save(at, kind, value)
}

pub(crate) fn copy(
    rt: &impl Abort,
    store: &mut Store,
    from: Pointer,
    to: Pointer,
    count: u32,
) -> Result<(), Trap> {
    assert!(rt; store.is_pointer(from), "no pointer of the store");
    assert!(rt; store.is_pointer(to), "no pointer of the store");
    assert!(rt; has_stride(from, count), "the pointer has another stride");
    assert!(rt; has_stride(to, count), "the pointer has another stride");
    store.copy(from, to, count)
}
