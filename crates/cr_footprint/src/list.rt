ghost use Rattle.std.specs.Prelude.{◌≡◌, ◌≤◌, [], ◌∷◌, length, insert, IfOk, OnErr, OnOk};

use smallvec::SmallVec;
use std::alloc::{AllocError, Global};
use std::marker::Model;
use std::slice;

/// Some cells in one block of memory, from more than four on in another.
pub(crate) type Several = SmallVec<(u32, u32), 4>;

/// How a list is kept.
#[derive(Drop)]
pub(crate) enum Kept {
    Nothing,
    One((u32, u32)),
    More(Box<Several>),
}

/// A list of cells, of two words, since most have one cell at most, which then takes no memory.
#[derive(Drop)]
pub(crate) struct CellList {
    alloc: Global,
    kept: Kept,
}

impl Model for CellList {
    ghost use Rattle.std.specs.Prelude.{List};
    ghost use Rattle.cr_footprint.specs.Cell.{Cell};

    ghost Value = { List Cell };

    ghost use Rattle.cr_footprint.specs.Kept.{cells_of};

    ghost view = { λ list. cells_of list.kept };
}

// Puts a cell before the one at a place, or behind all.
fn put(list: &mut Several, place: usize, cell: (u32, u32)) -> Result<(), AllocError>
    requires { place ≤ length list.old.items }
    ensures ok { OnOk result (list.new.items ≡ insert list.old.items place cell) }
    ensures err { OnErr result (list.new ≡ list.old) }
{
    if place == list.len() {
        Ok(list.push(cell)?)
    } else {
        Ok(list.insert(place, cell)?)
    }
}

/// Some cells, kept where they have room.
fn boxed(alloc: Global, cells: Several) -> Result<Box<Several>, AllocError>
    ensures { IfOk result (λ list. list.value.items ≡ cells.items) }
{
    match Box::new(alloc, cells) {
        Ok(list) => Ok(list),
        Err(_) => Err(AllocError),
    }
}

/// A list of these cells.
fn several(alloc: Global, cells: &[(u32, u32)]) -> Result<Several, AllocError>
    ensures { IfOk result (λ list. list.items ≡ cells.now) }
{
    let mut list = SmallVec::with_capacity(alloc, cells.len())?;
    list.extend_from_slice(cells)?;
    Ok(list)
}

/// A cell and another one, at a place beside it.
fn two(
    alloc: Global,
    first: (u32, u32),
    place: usize,
    cell: (u32, u32),
) -> Result<Box<Several>, AllocError>
    requires { place ≤ 1 }
    ensures { IfOk result (λ list. list.value.items ≡ insert (first ∷ []) place cell) }
{
    let mut cells = SmallVec::new(alloc);
    cells.push(first)?;
    put(&mut cells, place, cell)?;
    boxed(alloc, cells)
}

impl CellList {
    #[inline]
    pub(crate) fn new(alloc: Global) -> CellList
        ensures { result ≡ [] }
    {
        CellList {
            alloc,
            kept: Kept::Nothing,
        }
    }

    #[inline]
    pub(crate) fn one(alloc: Global, cell: (u32, u32)) -> CellList
        ensures { result ≡ cell ∷ [] }
    {
        CellList {
            alloc,
            kept: Kept::One(cell),
        }
    }

    pub(crate) fn from_cells(alloc: Global, cells: Several) -> Result<CellList, AllocError>
        ensures { IfOk result (λ list. list ≡ cells.items) }
    {
        let kept = match cells.as_slice() {
            [] => Kept::Nothing,
            [cell] => Kept::One(*cell),
            _ => Kept::More(boxed(alloc, cells)?),
        };
        Ok(CellList { alloc, kept })
    }

    pub(crate) fn allocator(&self) -> Global {
        self.alloc
    }

    pub(crate) fn copied(&self) -> Result<CellList, AllocError>
        ensures { IfOk result (λ list. list ≡ self.now) }
    {
        let alloc = self.alloc;
        let kept = match &self.kept {
            Kept::Nothing => Kept::Nothing,
            Kept::One(cell) => Kept::One(*cell),
            Kept::More(list) => Kept::More(boxed(alloc, several(alloc, list.as_slice())?)?),
        };
        Ok(CellList { alloc, kept })
    }

    #[inline]
    pub(crate) fn as_slice(&self) -> &[(u32, u32)]
        ensures { result.now ≡ self.now }
    {
        match &self.kept {
            Kept::Nothing => &[],
            Kept::One(cell) => slice::from_ref(cell),
            Kept::More(list) => list.as_slice(),
        }
    }

    #[inline]
    pub(crate) fn len(&self) -> usize
        ensures { result ≡ length self.now }
    {
        match &self.kept {
            Kept::Nothing => 0,
            Kept::One(_) => 1,
            Kept::More(list) => list.len(),
        }
    }

    /// Puts a cell before the one at a place, or behind all.
    pub(crate) fn insert(&mut self, place: usize, cell: (u32, u32)) -> Result<(), AllocError>
        requires { place ≤ length self.old }
        ensures ok { OnOk result (self.new ≡ insert self.old place cell) }
        ensures err { OnErr result (self.new ≡ self.old) }
    {
        match &mut self.kept {
            Kept::Nothing => {
                self.kept = Kept::One(cell);
                Ok(())
            }
            Kept::One(own) => {
                let list = two(self.alloc, *own, place, cell)?;
                self.kept = Kept::More(list);
                Ok(())
            }
            Kept::More(list) => put(list, place, cell),
        }
    }
}
