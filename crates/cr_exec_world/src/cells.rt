// The cells of an object, set whatever their guards.
#![tactic(auto, using(crate::proofs::Working::worked, crate::proofs::Working::unsaid, crate::proofs::Working::left, crate::proofs::Working::undefined))]

ghost use Rattle.std.specs.Prelude.{◌≡◌, Ok, true, false, [], ◌∷◌, map, IsTrue, IfOk};
ghost use Rattle.cr_memory.specs.Memory.{zero_of};
ghost use Rattle.cr_memory.specs.Access.{with_cells};
ghost use Rattle.cr_eval.specs.Answers.{Answers, leaving};
ghost use Rattle.cr_meaning.specs.World.{unset_again};

use cr_memory::{Cell, Guard, Pointer, Scalar, Store, Trap};
use cr_sequence::Times;
use std::alloc::{AllocError, Global};

/// An object of no more cells isn't large: its zeros are spelled out.
const LARGE: usize = 1024;

/// Sets cells of a live object from a place on. The error is want of memory, or cells that no program of the subset has.
pub fn write(store: &mut Store, object: u32, from: u32, cells: &[Cell]) -> Result<(), Trap>
    ensures { Answers (Ok (with_cells store.old object from cells.now)) (leaving store.new result) }
{
    if store.begin_run(object, from, cells) {
        Ok(())
    } else {
        Err(Trap::NoMemory)
    }
}

/// Nothing is in the cells of an object again (C11 6.2.4p6).
pub fn clear(store: &mut Store, object: u32) -> Result<(), Trap>
    ensures { Answers (Ok (unset_again store.old object)) (leaving store.new result) }
{
    if !store.is_live(object) {
        return Err(Trap::NoMemory);
    }
    store.clear(object);
    Ok(())
}

fn zero_of(kind: Scalar) -> Cell
    ensures { result ≡ zero_of kind }
{
    match kind {
        Scalar::Int(_) => Cell::Number(0),
        Scalar::Pointer(_) => Cell::Pointer(Pointer::Null),
    }
}

fn zeros_of(alloc: Global, shape: &[(Scalar, Guard)]) -> Result<Vec<Cell>, AllocError>
    ensures { IfOk result (λ cells. cells.items ≡ map (λ own. zero_of own.0) shape.now) }
{
    shape.iter().map(|own| zero_of(own.0)).collect(alloc)
}

fn zeros(alloc: Global, shape: &Times<(Scalar, Guard)>) -> Result<Vec<Cell>, AllocError>
    ensures { IfOk result (λ cells. cells.items ≡ map (λ own. zero_of own.0) shape.now) }
{
    let (one, times) = shape.parts();
    Times::new(zeros_of(alloc, one)?, times)?.spelled(alloc)
}

/// The same of a large object, where it has elements of this shape: by the shape's cells and the object's blocks alone.
fn blank_large(
    alloc: Global,
    shape: &Times<(Scalar, Guard)>,
    store: &mut Store,
    object: u32,
) -> bool
    ensures done { result ≡ true → store.new ≡ with_cells store.old object 0 (map (λ own. zero_of own.0) shape.now) }
    ensures same { result ≡ false → store.new ≡ store.old }
{
    let (one, times) = shape.parts();
    match zeros_of(alloc, one) {
        Ok(pattern) => store.refill(object, pattern, times),
        Err(_) => false,
    }
}

/// The cells of a node's object are zero or null (6.7.9p10, p19).
pub fn blank(
    alloc: Global,
    shape: &Times<(Scalar, Guard)>,
    store: &mut Store,
    object: u32,
) -> Result<(), Trap>
    ensures { Answers (Ok (with_cells store.old object 0 (map (λ own. zero_of own.0) shape.now))) (leaving store.new result) }
{
    if shape.len() > LARGE && blank_large(alloc, shape, store, object) {
        return Ok(());
    }
    match zeros(alloc, shape) {
        Ok(cells) => write(store, object, 0, &cells),
        Err(_) => Err(Trap::NoMemory),
    }
}
