// What a pass offers for one file.
ghost use Rattle.std.specs.Prelude.{◌≡◌, ◌<◌, ◌≤◌, [], length, slice_index_or, vec_capacity, OnOk, OnErr};
ghost use Rattle.pass_edit.specs.Menu.{entry_of, level_of};

use crate::{Change, Edits, Kept, apply};
use std::alloc::AllocError;
use std::marker::Model;

/// What a pass offers for one file: its edits by levels, level 0 first, and what their texts name beside the file's bytes.
#[derive(Drop)]
pub struct Menu {
    levels: Vec<Edits>,
    kept: Kept,
}

impl Model for Menu {
    ghost use Rattle.pass_edit.specs.Menu.{Offering};

    ghost Value = { Offering };

    ghost view = { λ m. record { levels = m.levels.items; kept = m.kept } };
}

impl Menu {
    /// The edits of each level, and what they keep.
    pub fn new(levels: Vec<Edits>, kept: Kept) -> Menu
        ensures { result ≡ record { levels = levels.items; kept = kept } }
    {
        Menu { levels, kept }
    }
}

/// How many variants a level has. A level that isn't there has none.
pub fn width(menu: &Menu, level: u8) -> u64
    ensures width { result ≡ length (level_of menu.now level) }
    ensures few { result ≤ 1048576 }
{
    match menu.levels.get(level as usize) {
        Some(edits) => edits.len() as u64,
        None => 0,
    }
}

/// Sets `out` to the file's variant of this level and index. It takes no memory where `out` has room; after an error, which is want of
/// memory, `out` is empty.
pub fn variant(
    menu: &Menu,
    file: &[u8],
    level: u8,
    at: u64,
    out: &mut Vec<u8>,
) -> Result<(), AllocError>
    ensures variant { OnOk result (out.new.items ≡ entry_of file.now menu.now level at) }
    ensures empty { OnErr result (out.new.items ≡ []) }
    ensures full { OnErr result (vec_capacity out.old < length (entry_of file.now menu.now level at)) }
{
    apply(file, &menu.kept, edit(menu, level, at), out)
}

fn edit(menu: &Menu, level: u8, at: u64) -> &[Change]
    ensures { result.now ≡ slice_index_or (level_of menu.now level) at [] }
{
    match menu.levels.get(level as usize) {
        Some(edits) => edits.get(at as usize),
        None => &[],
    }
}
