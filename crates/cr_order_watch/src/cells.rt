// The cells of one footprint, in another.
ghost use Rattle.std.specs.Prelude.{◌≡◌, ◌||◌, IfOk};
ghost use Rattle.cr_footprint.specs.Cell.{Cell, holds, same_cell};
ghost use Rattle.cr_footprint.specs.Foot.{sets};

use cr_footprint::{Foot, NoMemory};
use std::alloc::AllocError;

/// A cell is read as well.
fn read_too(foot: Foot, place: (u32, u32)) -> Result<Foot, NoMemory>
    ensures reads { IfOk result (λ all. (c : Cell) → (sets all).reads c ≡ ((sets foot).reads c || same_cell c place)) }
    ensures writes { IfOk result (λ all. (c : Cell) → (sets all).writes c ≡ (sets foot).writes c) }
{
    match foot.own_read(place.0, place.1) {
        Ok(all) => Ok(all),
        Err(_) => Err(AllocError),
    }
}

/// A cell is touched as well.
fn touch_too(foot: Foot, place: (u32, u32)) -> Result<Foot, NoMemory>
    ensures reads { IfOk result (λ all. (c : Cell) → (sets all).reads c ≡ (sets foot).reads c) }
    ensures writes { IfOk result (λ all. (c : Cell) → (sets all).writes c ≡ ((sets foot).writes c || same_cell c place)) }
{
    match foot.own_touch(place.0, place.1) {
        Ok(all) => Ok(all),
        Err(_) => Err(AllocError),
    }
}

/// The cells of a list are read as well.
fn with_reads(foot: Foot, cells: &[(u32, u32)]) -> Result<Foot, NoMemory>
    ensures reads { IfOk result (λ all. (c : Cell) → (sets all).reads c ≡ ((sets foot).reads c || holds cells.now c)) }
    ensures writes { IfOk result (λ all. (c : Cell) → (sets all).writes c ≡ (sets foot).writes c) }
{
    let mut all = foot;
    for place in cells {
        all = read_too(all, *place)?;
    }
    Ok(all)
}

/// The cells of a list are touched as well.
fn with_touches(foot: Foot, cells: &[(u32, u32)]) -> Result<Foot, NoMemory>
    ensures reads { IfOk result (λ all. (c : Cell) → (sets all).reads c ≡ (sets foot).reads c) }
    ensures writes { IfOk result (λ all. (c : Cell) → (sets all).writes c ≡ ((sets foot).writes c || holds cells.now c)) }
{
    let mut all = foot;
    for place in cells {
        all = touch_too(all, *place)?;
    }
    Ok(all)
}

/// All cells of another footprint as well, those that are written as touched.
pub(crate) fn with_all(foot: Foot, own: &Foot) -> Result<Foot, NoMemory>
    ensures reads { IfOk result (λ all. (c : Cell) → (sets all).reads c ≡ ((sets foot).reads c || (sets own.now).reads c)) }
    ensures writes { IfOk result (λ all. (c : Cell) → (sets all).writes c ≡ ((sets foot).writes c || (sets own.now).writes c)) }
{
    match with_reads(foot, own.reads()) {
        Ok(foot) => with_touches(foot, own.writes()),
        Err(end) => Err(end),
    }
}
