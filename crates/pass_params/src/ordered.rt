// Changes in the order of their places.
ghost use Rattle.std.specs.Prelude.{◌≡◌, [], ◌∷◌, length, IfOk};
ghost use Rattle.pass_levels.specs.Gathered.{gathered};
ghost use Rattle.pass_params.specs.Ordered.{change_at, ordered, place_of};

use cr_rows::Row;
use pass_edit::{Change, Text};
use pass_levels::sort;
use std::alloc::{AllocError, Global};
use std::cmp::Reverse;

// Where a change begins, where it ends, and its number, by which no two tie.
type Place = (u32, Reverse<u32>, usize);

/// The changes in the order of their places. The error is want of memory.
pub fn in_order(alloc: Global, changes: &[Change]) -> Result<Row<Change>, AllocError>
    ensures { IfOk result (λ row. row ≡ ordered changes.now) }
{
    let mut places = places(alloc, changes)?;
    sort(&mut places)?;
    let mut row = Row::new(alloc);
    for place in places.as_slice() {
        row.push(change_at(changes, place.2))?;
    }
    Ok(row)
}

fn places(alloc: Global, changes: &[Change]) -> Result<Vec<Place>, AllocError>
    ensures { IfOk result (λ places. places.items ≡ gathered (λ at. place_of changes.now at ∷ []) (length changes.now)) }
{
    let mut places = Vec::new(alloc);
    for at in 0..changes.len() {
        places.push(place(changes, at))?;
    }
    Ok(places)
}

fn place(changes: &[Change], at: usize) -> Place
    ensures { result ≡ place_of changes.now at }
{
    let change = change_at(changes, at);
    (change.start, Reverse(change.end), at)
}

fn change_at(changes: &[Change], at: usize) -> Change
    ensures { result ≡ change_at changes.now at }
{
    match changes.get(at) {
        Some(change) => *change,
        None => Change {
            start: 0,
            end: 0,
            text: Text::Nothing,
        },
    }
}
