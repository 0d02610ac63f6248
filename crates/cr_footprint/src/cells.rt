ghost use Rattle.std.specs.Prelude.{◌≡◌, ◌&&◌, ◌||◌, ◌↔◌, false, find, IfOk, IsTrue, OnOk};
ghost use Rattle.std.proofs.Props.{props};
ghost use Rattle.cr_footprint.specs.Merge.{merged};
ghost use Rattle.cr_footprint.specs.Cell.{Cell, holds, same_cell, span, IsRising, IsLeastOf, Spans};

use crate::list::{CellList, Several};
use smallvec::SmallVec;
use std::alloc::{AllocError, Global};
use std::cmp::Ordering;
use std::mem;
use std::ops::Range;

// Up to so many cells are put to a set one by one.
const FEW: usize = 8;

/// The cells of two lists.
fn merge(alloc: Global, first: &[(u32, u32)], second: &[(u32, u32)]) -> Result<Several, AllocError>
    ensures { IfOk result (λ all. all.items ≡ merged first.now second.now) }
{
    let mut all = SmallVec::with_capacity(alloc, first.len().saturating_add(second.len()))?;
    let (mut left, mut right) = (first, second);
    loop {
        let [x, xs @ ..] = left else {
            all.extend_from_slice(right)?;
            return Ok(all);
        };
        let [y, ys @ ..] = right else {
            all.extend_from_slice(left)?;
            return Ok(all);
        };
        match x.cmp(y) {
            Ordering::Less => {
                all.push(*x)?;
                left = xs;
            }
            Ordering::Equal => {
                all.push(*x)?;
                left = xs;
                right = ys;
            }
            Ordering::Greater => {
                all.push(*y)?;
                right = ys;
            }
        }
    }
}

/// The cells of an object in a range of numbers, in their order.
fn spanned(alloc: Global, object: u32, cells: Range<u32>) -> Result<Several, AllocError>
    ensures { IfOk result (λ all. Spans object cells.start cells.end all.items) }
{
    let mut all = SmallVec::with_capacity(alloc, cells.len())?;
    for cell in cells {
        all.push((object, cell))?;
    }
    Ok(all)
}

/// A set of cells, as a list in rising order. A single one takes no memory.
#[derive(Drop)]
pub struct Cells {
    list: CellList,
    ghost rising: { IsRising list } by { Prim.hlevel props },
}

impl Cells {
    ghost use Rattle.cr_footprint.specs.Cells.{has};

    /// No cell. Takes no memory.
    pub fn new(alloc: Global) -> Cells
        ensures { (c : Cell) → has result c ≡ false }
    {
        Cells {
            list: CellList::new(alloc),
        }
    }

    /// One cell. Takes no memory.
    #[inline]
    pub fn one(alloc: Global, cell: (u32, u32)) -> Cells
        ensures { (c : Cell) → has result c ≡ same_cell c cell }
    {
        Cells {
            list: CellList::one(alloc, cell),
        }
    }

    /// The allocator that the set was made with.
    pub fn allocator(&self) -> Global {
        self.list.allocator()
    }

    /// A set of the same cells.
    pub fn copied(&self) -> Result<Cells, AllocError>
        ensures { IfOk result (λ set. set.list ≡ self.now.list) }
    {
        let list = self.list.copied()?;
        Ok(Cells { list })
    }

    /// The cells, in rising order.
    pub fn as_slice(&self) -> &[(u32, u32)]
        ensures rising { IsRising result.now }
        ensures cells { (c : Cell) → holds result.now c ≡ has self.now c }
    {
        self.list.as_slice()
    }

    /// Whether there is no cell.
    #[inline]
    pub fn is_empty(&self) -> bool
        ensures { IsTrue result ↔ ((c : Cell) → has self.now c ≡ false) }
    {
        self.list.len() == 0
    }

    /// Whether the set has a cell.
    pub fn contains(&self, cell: (u32, u32)) -> bool
        ensures { result ≡ has self.now cell }
    {
        self.list.as_slice().binary_search(&cell).is_ok()
    }

    /// Puts a cell in its place, unless it is there.
    pub fn insert(&mut self, cell: (u32, u32)) -> Result<(), AllocError>
        ensures { OnOk result ((c : Cell) → has self.new c ≡ (has self.old c || same_cell c cell)) }
    {
        match self.list.as_slice().binary_search(&cell) {
            Ok(_) => Ok(()),
            Err(place) => self.list.insert(place, cell),
        }
    }

    /// The cells of an object in a range of numbers.
    pub fn of_span(alloc: Global, object: u32, cells: Range<u32>) -> Result<Cells, AllocError>
        ensures { IfOk result (λ set. (c : Cell) → has set c ≡ span object cells.start cells.end c) }
    {
        let all = spanned(alloc, object, cells)?;
        let list = CellList::from_cells(alloc, all)?;
        Ok(Cells { list })
    }

    fn insert_all(&mut self, more: &Cells) -> Result<(), AllocError>
        ensures { OnOk result ((c : Cell) → has self.new c ≡ (has self.old c || has more.now c)) }
    {
        for &cell in more.list.as_slice() {
            self.insert(cell)?;
        }
        Ok(())
    }

    fn merged_with(&self, other: &Cells) -> Result<Cells, AllocError>
        ensures { IfOk result (λ cells. (c : Cell) → has cells c ≡ (has self.now c || has other.now c)) }
    {
        let alloc = self.list.allocator();
        let cells = merge(alloc, self.list.as_slice(), other.list.as_slice())?;
        let list = CellList::from_cells(alloc, cells)?;
        Ok(Cells { list })
    }

    // A few are put to the others one by one; more are merged with them in one walk.
    fn take_fewer(&mut self, more: &Cells) -> Result<(), AllocError>
        ensures { OnOk result ((c : Cell) → has self.new c ≡ (has self.old c || has more.now c)) }
    {
        if more.list.len() > FEW {
            *self = self.merged_with(more)?;
            return Ok(());
        }
        self.insert_all(more)
    }

    #[inline(never)]
    fn take_some(&mut self, more: &mut Cells) -> Result<(), AllocError>
        ensures { OnOk result ((c : Cell) → has self.new c ≡ (has self.old c || has more.old c)) }
    {
        if self.list.len() < more.list.len() {
            mem::swap(self, more);
        }
        self.take_fewer(more)
    }

    /// Takes in the cells of another set, which may have any cells afterwards.
    #[inline(always)]
    pub fn take_in(&mut self, more: &mut Cells) -> Result<(), AllocError>
        ensures { OnOk result ((c : Cell) → has self.new c ≡ (has self.old c || has more.old c)) }
    {
        if more.is_empty() {
            return Ok(());
        }
        self.take_some(more)
    }

    fn first_within(&self, other: &Cells) -> Option<(u32, u32)>
        ensures { result ≡ find (has other.now) self.now.list }
    {
        self.list
            .as_slice()
            .iter()
            .copied()
            .find(|cell| other.contains(*cell))
    }

    /// The least cell that stands in both.
    #[inline(never)]
    pub fn first_shared(&self, other: &Cells) -> Option<(u32, u32)>
        ensures { IsLeastOf (λ c. has self.now c && has other.now c) result }
    {
        if other.list.len() < self.list.len() {
            other.first_within(self)
        } else {
            self.first_within(other)
        }
    }
}
