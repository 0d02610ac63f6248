// The flat numbering of a file's variants.
ghost use Rattle.std.specs.Prelude.{◌≡◌, ◌<◌, ◌≤◌, ◌*◌, ◌+◌, ℕ, List, length, slice_get, Some};
ghost use Rattle.cr_cursor.specs.Variants.{cursors, cursors_below, pass_cursors, place_of};

use crate::passes::{Cursor, Passes};

/// How many passes there are.
pub const PASSES: u8 = 12;

/// How many levels a pass has at most.
pub const LEVELS: u8 = 16;

/// How many variants a file has, over all passes.
pub fn positions<P: Passes>(passes: &P, prep: &P::Prep) -> u64
    ensures count { (file : List ℕ) → result ≡ length (cursors (P.offer passes.now prep.now file).widths) }
    ensures few { result ≤ 201326592 }
{
    variants_below(passes, prep, PASSES)
}

/// The cursor at a position.
pub fn cursor_at<P: Passes>(passes: &P, prep: &P::Prep, position: u64) -> Cursor
    requires { (file : List ℕ) × (position < length (cursors (P.offer passes.now prep.now file).widths)) }
    ensures { (file : List ℕ) → slice_get (cursors (P.offer passes.now prep.now file).widths) position ≡ Some result }
{
    let mut left = position;
    for pass in 0..PASSES {
        let variants = variants_in(passes, prep, pass, LEVELS);
        if left < variants {
            return cursor_in(passes, prep, pass, left);
        }
        left -= variants;
    }
    unreachable!()
}

/// The position of a cursor. Past its level's width it is the first position after that level.
pub fn position_of<P: Passes>(passes: &P, prep: &P::Prep, cursor: Cursor) -> u64
    ensures { (file : List ℕ) → result ≡ place_of (P.offer passes.now prep.now file).widths cursor }
{
    let passes_before = variants_below(passes, prep, cursor.pass);
    let levels_before = variants_in(passes, prep, cursor.pass, cursor.level);
    let width = passes.width(prep, cursor.pass, cursor.level);
    passes_before + levels_before + cursor.index.min(width)
}

// How many variants the passes below this one have.
fn variants_below<P: Passes>(passes: &P, prep: &P::Prep, end: u8) -> u64
    ensures count { (file : List ℕ) → result ≡ length (cursors_below (P.offer passes.now prep.now file).widths end) }
    ensures few { result ≤ 16777216 * end }
{
    let mut total = 0;
    for pass in 0..end {
        total += variants_in(passes, prep, pass, LEVELS);
    }
    total
}

// How many variants the levels of a pass below this one have.
fn variants_in<P: Passes>(passes: &P, prep: &P::Prep, pass: u8, end: u8) -> u64
    ensures count { (file : List ℕ) → result ≡ length (pass_cursors (P.offer passes.now prep.now file).widths pass end) }
    ensures few { result ≤ 1048576 * end }
{
    let mut total = 0;
    for level in 0..end {
        total += passes.width(prep, pass, level);
    }
    total
}

// The cursor at a place among those of a pass.
fn cursor_in<P: Passes>(passes: &P, prep: &P::Prep, pass: u8, place: u64) -> Cursor
    requires { (file : List ℕ) × (place < length (pass_cursors (P.offer passes.now prep.now file).widths pass 16)) }
    ensures { (file : List ℕ) → slice_get (pass_cursors (P.offer passes.now prep.now file).widths pass 16) place ≡ Some result }
{
    let mut left = place;
    for level in 0..LEVELS {
        let width = passes.width(prep, pass, level);
        if left < width {
            return Cursor {
                pass,
                level,
                index: left,
            };
        }
        left -= width;
    }
    unreachable!()
}
