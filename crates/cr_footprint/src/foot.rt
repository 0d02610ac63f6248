ghost use Rattle.std.specs.Prelude.{◌≡◌, ℕ, Bool, false, true, Err, ◌&&◌, ◌||◌, IfOk, OnOk, IsTrue};
ghost use Rattle.cr_footprint.specs.Cell.{Cell, holds, span, IsRising, IsLeast, IsLeastOf};

use crate::cells::Cells;
use crate::end::FootEnd;
use std::alloc::{AllocError, Global};
use std::ops::Range;

/// Want of memory.
pub type NoMemory = AllocError;

/// What the evaluation of an expression reads and writes. A touch, the read of a volatile object, counts as a write that is
/// settled at once. It keeps the allocator that it was made with.
#[derive(Drop)]
pub struct Foot {
    reads: Cells,
    writes: Cells,
    opens: Cells,
}

/// The lesser of two cells that may be there.
fn lesser(first: Option<(u32, u32)>, second: Option<(u32, u32)>) -> Option<(u32, u32)>
    ensures { (p q : Cell → Bool) → IsLeastOf p first → IsLeastOf q second → IsLeastOf (λ c. p c || q c) result }
{
    match (first, second) {
        (Some(a), Some(b)) => Some(a.min(b)),
        (a, None) => a,
        (None, b) => b,
    }
}

impl Foot {
    ghost use Rattle.cr_footprint.specs.Cells.{has};
    ghost use Rattle.cr_footprint.specs.Foot.{sets, no_events, with_read, with_touch, with_write, with_reads, with_writes, open_in, union_of, then_of, accesses, meets, IsOpenAt};

    /// Nothing is read or written. Takes no memory.
    pub fn none(alloc: Global) -> Foot
        ensures { sets result ≡ no_events }
    {
        Foot {
            reads: Cells::new(alloc),
            writes: Cells::new(alloc),
            opens: Cells::new(alloc),
        }
    }

    /// One read.
    #[inline]
    pub fn read(alloc: Global, object: u32, cell: u32) -> Result<Foot, NoMemory>
        ensures { IfOk result (λ foot. sets foot ≡ with_read no_events (object, cell)) }
    {
        Ok(Foot {
            reads: Cells::one(alloc, (object, cell)),
            writes: Cells::new(alloc),
            opens: Cells::new(alloc),
        })
    }

    /// One touch: the read of a volatile object (C11 5.1.2.3p2).
    pub fn touch(alloc: Global, object: u32, cell: u32) -> Result<Foot, NoMemory>
        ensures { IfOk result (λ foot. sets foot ≡ with_touch no_events (object, cell)) }
    {
        Ok(Foot {
            reads: Cells::new(alloc),
            writes: Cells::one(alloc, (object, cell)),
            opens: Cells::new(alloc),
        })
    }

    /// The same footprint once more.
    pub fn copied(&self) -> Result<Foot, NoMemory>
        ensures { IfOk result (λ foot. sets foot ≡ sets self.now) }
    {
        Ok(Foot {
            reads: self.reads.copied()?,
            writes: self.writes.copied()?,
            opens: self.opens.copied()?,
        })
    }

    /// The cells that are read, in rising order. Takes no memory.
    pub fn reads(&self) -> &[(u32, u32)]
        ensures rising { IsRising result.now }
        ensures cells { (c : Cell) → holds result.now c ≡ (sets self.now).reads c }
    {
        self.reads.as_slice()
    }

    /// The cells that are written or touched, in rising order. Takes no memory.
    pub fn writes(&self) -> &[(u32, u32)]
        ensures rising { IsRising result.now }
        ensures cells { (c : Cell) → holds result.now c ≡ (sets self.now).writes c }
    {
        self.writes.as_slice()
    }

    /// The least cell that this evaluation writes and the other reads or writes.
    #[inline(never)]
    fn first_hit(&self, other: &Foot) -> Option<(u32, u32)>
        ensures { IsLeastOf (λ c. (sets self.now).writes c && accesses (sets other.now) c) result }
    {
        lesser(
            self.writes.first_shared(&other.reads),
            self.writes.first_shared(&other.writes),
        )
    }

    /// The least cell on which a write of one meets a read or a write of the other.
    #[inline(always)]
    fn first_conflict(&self, other: &Foot) -> Option<(u32, u32)>
        ensures { IsLeastOf (meets (sets self.now) (sets other.now)) result }
    {
        if self.writes.is_empty() && other.writes.is_empty() {
            return None;
        }
        lesser(
            self.first_hit(other),
            self.reads.first_shared(&other.writes),
        )
    }

    /// The footprint of two unsequenced evaluations, as the operands of `+`. Conflict names the least
    /// object and cell on which a write or a touch of one, settled or open, meets an event of the other.
    #[inline(always)]
    pub fn beside(mut self, mut other: Foot) -> Result<Foot, FootEnd>
        ensures joined { IfOk result (λ foot. sets foot ≡ union_of (sets self) (sets other)) }
        ensures apart { OnOk result ((c : Cell) → meets (sets self) (sets other) c ≡ false) }
        ensures conflict { (o c : ℕ) → result ≡ Err (FootEnd.Conflict o c) → IsLeast (meets (sets self) (sets other)) (o, c) }
    {
        if let Some((object, cell)) = self.first_conflict(&other) {
            return Err(FootEnd::Conflict(object, cell));
        }
        self.take_all(&mut other)?;
        Ok(self)
    }

    /// Has all events of another as well, which keeps any of them.
    #[inline(always)]
    fn take_all(&mut self, other: &mut Foot) -> Result<(), NoMemory>
        ensures { OnOk result (sets self.new ≡ union_of (sets self.old) (sets other.old)) }
    {
        self.reads.take_in(&mut other.reads)?;
        self.writes.take_in(&mut other.writes)?;
        self.opens.take_in(&mut other.opens)
    }

    /// The footprint of an evaluation, a sequence point and the next evaluation, as the operands of a
    /// comma. It never conflicts.
    pub fn then(mut self, mut next: Foot) -> Result<Foot, NoMemory>
        ensures { IfOk result (λ foot. sets foot ≡ then_of (sets self) (sets next)) }
    {
        self.reads.take_in(&mut next.reads)?;
        self.writes.take_in(&mut next.writes)?;
        self.opens = next.opens;
        Ok(self)
    }

    /// Adds the side effect of the expression's own operator on a cell. It conflicts with an open
    /// write of its operands on that cell.
    pub fn own_write(mut self, object: u32, cell: u32) -> Result<Foot, FootEnd>
        ensures added { IfOk result (λ foot. sets foot ≡ with_write (sets self) (object, cell)) }
        ensures apart { OnOk result ((sets self).opens (object, cell) ≡ false) }
        ensures conflict { (o c : ℕ) → result ≡ Err (FootEnd.Conflict o c) → IsOpenAt (sets self) (object, cell) (o, c) }
    {
        if self.opens.contains((object, cell)) {
            return Err(FootEnd::Conflict(object, cell));
        }
        self.writes.insert((object, cell))?;
        self.opens.insert((object, cell))?;
        Ok(self)
    }

    /// Adds the read of the expression's own operator on a cell. It conflicts with an open write of its
    /// operands on that cell.
    pub fn own_read(mut self, object: u32, cell: u32) -> Result<Foot, FootEnd>
        ensures added { IfOk result (λ foot. sets foot ≡ with_read (sets self) (object, cell)) }
        ensures apart { OnOk result ((sets self).opens (object, cell) ≡ false) }
        ensures conflict { (o c : ℕ) → result ≡ Err (FootEnd.Conflict o c) → IsOpenAt (sets self) (object, cell) (o, c) }
    {
        if self.opens.contains((object, cell)) {
            return Err(FootEnd::Conflict(object, cell));
        }
        self.reads.insert((object, cell))?;
        Ok(self)
    }

    /// Adds the touch of the expression's own operator on a cell. It conflicts with an open write of its
    /// operands on that cell.
    pub fn own_touch(mut self, object: u32, cell: u32) -> Result<Foot, FootEnd>
        ensures added { IfOk result (λ foot. sets foot ≡ with_touch (sets self) (object, cell)) }
        ensures apart { OnOk result ((sets self).opens (object, cell) ≡ false) }
        ensures conflict { (o c : ℕ) → result ≡ Err (FootEnd.Conflict o c) → IsOpenAt (sets self) (object, cell) (o, c) }
    {
        let place = (object, cell);
        if self.opens.contains(place) {
            return Err(FootEnd::Conflict(object, cell));
        }
        self.writes.insert(place)?;
        Ok(self)
    }

    /// Adds the side effects of the expression's own operator on the cells of an object in a range of numbers, as the
    /// assignment of a struct has. It conflicts with an open write of its operands on one of them, and names the least.
    pub fn own_writes(mut self, object: u32, cells: Range<u32>) -> Result<Foot, FootEnd>
        ensures added { IfOk result (λ foot. sets foot ≡ with_writes (sets self) (span object cells.start cells.end)) }
        ensures apart { OnOk result ((c : Cell) → open_in (sets self) (span object cells.start cells.end) c ≡ false) }
        ensures conflict { (o c : ℕ) → result ≡ Err (FootEnd.Conflict o c) → IsLeast (open_in (sets self) (span object cells.start cells.end)) (o, c) }
    {
        match self.write_span(object, cells) {
            Ok(()) => Ok(self),
            Err(end) => Err(end),
        }
    }

    fn write_span(&mut self, object: u32, cells: Range<u32>) -> Result<(), FootEnd>
        ensures added { OnOk result (sets self.new ≡ with_writes (sets self.old) (span object cells.start cells.end)) }
        ensures apart { OnOk result ((c : Cell) → open_in (sets self.old) (span object cells.start cells.end) c ≡ false) }
        ensures conflict { (o c : ℕ) → result ≡ Err (FootEnd.Conflict o c) → IsLeast (open_in (sets self.old) (span object cells.start cells.end)) (o, c) }
    {
        let (first, end) = (cells.start, cells.end);
        let mut own = Cells::of_span(self.opens.allocator(), object, first..end)?;
        if let Some((object, cell)) = self.opens.first_shared(&own) {
            return Err(FootEnd::Conflict(object, cell));
        }
        let mut more = Cells::of_span(self.opens.allocator(), object, first..end)?;
        self.writes.take_in(&mut own)?;
        self.opens.take_in(&mut more)?;
        Ok(())
    }

    /// Adds the reads of the expression's own operator on the cells of an object in a range of numbers, as the value of a struct
    /// has. It conflicts with an open write of its operands on one of them, and names the least.
    pub fn own_reads(mut self, object: u32, cells: Range<u32>) -> Result<Foot, FootEnd>
        ensures added { IfOk result (λ foot. sets foot ≡ with_reads (sets self) (span object cells.start cells.end)) }
        ensures apart { OnOk result ((c : Cell) → open_in (sets self) (span object cells.start cells.end) c ≡ false) }
        ensures conflict { (o c : ℕ) → result ≡ Err (FootEnd.Conflict o c) → IsLeast (open_in (sets self) (span object cells.start cells.end)) (o, c) }
    {
        match self.read_span(object, cells) {
            Ok(()) => Ok(self),
            Err(end) => Err(end),
        }
    }

    fn read_span(&mut self, object: u32, cells: Range<u32>) -> Result<(), FootEnd>
        ensures added { OnOk result (sets self.new ≡ with_reads (sets self.old) (span object cells.start cells.end)) }
        ensures apart { OnOk result ((c : Cell) → open_in (sets self.old) (span object cells.start cells.end) c ≡ false) }
        ensures conflict { (o c : ℕ) → result ≡ Err (FootEnd.Conflict o c) → IsLeast (open_in (sets self.old) (span object cells.start cells.end)) (o, c) }
    {
        let mut own = Cells::of_span(self.opens.allocator(), object, cells)?;
        if let Some((object, cell)) = self.opens.first_shared(&own) {
            return Err(FootEnd::Conflict(object, cell));
        }
        self.reads.take_in(&mut own)?;
        Ok(())
    }
}
