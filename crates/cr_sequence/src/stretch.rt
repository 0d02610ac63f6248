ghost use Rattle.std.specs.Prelude.{◌≡◌, ◌*◌, ◌<◌, ◌≤◌, ◌∷◌, [], IfOk, IfSome, length, map, slice_get, slice_set, take, Some};
ghost use Rattle.cr_sequence.specs.Kept.{repeated};

use crate::blocks::{BLOCK, item_at, none_each, set, unmake};
use std::alloc::{AllocError, Global};
use std::marker::Model;

/// A pattern so many times, whose items are made block by block when one of them is first set.
#[derive(Drop)]
pub struct Stretch<T> {
    count: usize,
    first: T,
    pattern: Vec<T>,
    blocks: Vec<Option<u32>>,
    pool: Vec<T>,
}

impl<T> Model for Stretch<T> {
    ghost use Rattle.std.specs.Prelude.{List, length};
    ghost use Rattle.std.specs.Coded.{coded_list};
    ghost use Rattle.cr_sequence.specs.Kept.{items_of, IsKept, Covers};

    ghost Value = { List T };

    ghost coded = { coded_list T.code };

    ghost view = { λ s. items_of s.count s.first s.pattern.items s.blocks.items s.pool.items };

    ghost invariant = { λ s. IsKept s.blocks.items s.pool × Covers s.count (length s.blocks.items) (length s.pattern.items) };
}

impl<T: Copy> Stretch<T> {
    /// A pattern so many times. Its time is a step for each block.
    pub fn new(alloc: Global, pattern: Vec<T>, times: usize) -> Result<Stretch<T>, AllocError>
        requires some { 0 < length pattern.items }
        requires few { times * length pattern.items ≤ 4294967296 }
        ensures { IfOk result (λ stretch. stretch ≡ repeated times pattern.items) }
    {
        let each = size_of(&pattern);
        let count = times * each;
        let room = count.div_ceil(BLOCK);
        Ok(Stretch {
            count,
            first: pattern[0],
            pattern,
            blocks: none_each(alloc, room)?,
            pool: Vec::with_capacity(alloc, room * 256)?,
        })
    }

    /// How many items there are.
    #[inline]
    pub fn len(&self) -> usize
        ensures { result ≡ length self.now }
    {
        self.count
    }

    /// An item.
    #[inline]
    pub fn get(&self, place: usize) -> T
        requires { place < length self.now }
        ensures { slice_get self.now place ≡ Some result }
    {
        item_at(self.first, &self.pattern, &self.blocks, &self.pool, place)
    }

    /// Sets an item. It takes no memory, so it can't fail: the room was reserved, and is used block by block.
    #[inline(always)]
    pub fn set(&mut self, place: usize, value: T)
        requires { place < length self.old }
        ensures { self.new ≡ slice_set self.old place value }
    {
        set(
            self.first,
            &self.pattern,
            &mut self.blocks,
            &mut self.pool,
            place,
            value,
        );
    }

    /// Drops the items from a place on.
    pub fn truncate(&mut self, count: usize)
        ensures { self.new ≡ take count self.old }
    {
        if count < self.count {
            self.count = count;
        }
    }

    /// Each item is one value. Its time is a step for each block, where one was made.
    pub fn fill(&mut self, value: T)
        ensures { self.new ≡ map (λ _. value) self.old }
    {
        unmake(&mut self.blocks, &mut self.pool);
        self.first = value;
        set_alone(&mut self.pattern, value);
    }

    /// A pattern so many times in place of all items. Its time is a step for each block, where one was made.
    pub fn refill(&mut self, pattern: Vec<T>, times: usize)
        requires some { 0 < length pattern.items }
        requires whole { times * length pattern.items ≡ length self.old }
        ensures { self.new ≡ repeated times pattern.items }
    {
        unmake(&mut self.blocks, &mut self.pool);
        self.first = pattern[0];
        self.pattern = pattern;
    }

    /// The pattern and how often it comes, where no block was made.
    pub fn pattern(&self) -> Option<(&[T], usize)>
        ensures { IfSome result (λ p. repeated p.1 p.0.now ≡ self.now) }
    {
        if self.pool.len() != 0 {
            return None;
        }
        let each = size_of(&self.pattern);
        let times = self.count / each;
        if times * each == self.count {
            Some((self.pattern.as_slice(), times))
        } else {
            None
        }
    }
}

pub(crate) fn size_of<T>(items: &Vec<T>) -> usize
    ensures { result ≡ length items.now.items }
{
    items.len()
}

// One item is there alone.
fn set_alone<T: Copy>(items: &mut Vec<T>, value: T)
    requires { 0 < length items.old.items }
    ensures { items.new.items ≡ value ∷ [] }
{
    items.truncate(1);
    items[0] = value;
}
