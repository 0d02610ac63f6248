// Edits in the order of their places.
ghost use Rattle.std.specs.Prelude.{◌≡◌, [], ◌∷◌, length, IfOk, OnOk};
ghost use Rattle.std.specs.declared.cmp.Ordering.TheVariants.{Equal};
ghost use Rattle.pass_levels.specs.Gathered.{gathered};
ghost use Rattle.pass_levels.specs.Level.{counted_at, in_place_order, place_cmp, place_of};
ghost use Rattle.pass_levels.specs.Order.{in_order};

use crate::Counted;
use pass_edit::{Change, Edits};
use std::alloc::{AllocError, Global};
use std::cmp::Reverse;

// An edit's first token, its last one, and its number, by which no two tie.
type Place = (u32, Reverse<u32>, usize);

/// The edits in the order of their places. The error is want of memory.
pub fn in_place_order(alloc: Global, all: &[Counted]) -> Result<Edits, AllocError>
    ensures { IfOk result (λ edits. edits ≡ in_place_order all.now) }
{
    let mut places = places(alloc, all)?;
    sort(&mut places)?;
    let mut edits = Edits::new(alloc);
    for place in places.as_slice() {
        edits.push(edit_at(all, place.2))?;
    }
    Ok(edits)
}

fn places(alloc: Global, all: &[Counted]) -> Result<Vec<Place>, AllocError>
    ensures { IfOk result (λ places. places.items ≡ gathered (λ at. place_of all.now at ∷ []) (length all.now)) }
{
    let mut places = Vec::new(alloc);
    for at in 0..all.len() {
        places.push(place(all, at))?;
    }
    Ok(places)
}

fn place(all: &[Counted], at: usize) -> Place
    ensures { result ≡ place_of all.now at }
{
    match all.get(at) {
        Some(counted) => (counted.first, Reverse(counted.last), at),
        None => (0, Reverse(0), at),
    }
}

fn edit_at(all: &[Counted], at: usize) -> &[Change]
    ensures { result.now ≡ (counted_at all.now at).edit }
{
    match all.get(at) {
        Some(counted) => counted.edit.as_slice(),
        None => &[],
    }
}

/// Puts a list in order. The error is want of memory; the list has all its elements then, in some order.
pub fn sort<T: Ord>(list: &mut Vec<T>) -> Result<(), AllocError>
    requires { (x y : T) → T.cmp x y ≡ Equal → x ≡ y }
    ensures { OnOk result (list.new.items ≡ in_order T.cmp list.old.items) }
{
    list.sort()
}
