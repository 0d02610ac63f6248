ghost use Rattle.std.specs.Prelude.{◌≡◌, IfOk, IfSome, length};
ghost use Rattle.cr_sequence.specs.Kept.{repeated};

use crate::stretch::size_of;
use std::alloc::{AllocError, Global};
use std::marker::Model;

/// Items that come so many times, spelled out once.
#[derive(Drop)]
pub struct Times<T> {
    count: usize,
    one: Vec<T>,
    times: u32,
}

impl<T> Model for Times<T> {
    ghost use Rattle.std.specs.Prelude.{◌≡◌, List, length};
    ghost use Rattle.std.specs.Coded.{coded_list};
    ghost use Rattle.cr_sequence.specs.Kept.{repeated};

    ghost Value = { List T };

    ghost coded = { coded_list T.code };

    ghost view = { λ t. repeated t.times t.one.items };

    ghost invariant = { λ t. t.count ≡ length (repeated t.times t.one.items) };
}

impl<T: Copy> Times<T> {
    /// Items so many times. The error is that they can't be counted.
    pub fn new(one: Vec<T>, times: u32) -> Result<Times<T>, AllocError>
        ensures { IfOk result (λ all. all ≡ repeated times one.items) }
    {
        let each = size_of(&one);
        match (times as usize).checked_mul(each) {
            Some(count) => Ok(Times { count, one, times }),
            None => Err(AllocError),
        }
    }

    /// How many items there are.
    pub fn len(&self) -> usize
        ensures { result ≡ length self.now }
    {
        self.count
    }

    /// The items that come over and over, and how often.
    pub fn parts(&self) -> (&[T], u32)
        ensures { repeated result.1 result.0.now ≡ self.now }
    {
        (self.one.as_slice(), self.times)
    }

    /// The items, where they come once.
    pub fn as_slice(&self) -> Option<&[T]>
        ensures { IfSome result (λ items. items.now ≡ self.now) }
    {
        if self.times == 1 {
            Some(self.one.as_slice())
        } else {
            None
        }
    }

    /// All of them, one behind another.
    pub fn spelled(&self, alloc: Global) -> Result<Vec<T>, AllocError>
        ensures { IfOk result (λ all. all.items ≡ self.now) }
    {
        times_over(alloc, &self.one, self.times)
    }
}

#[tactic(auto, using(crate::proofs::Showing::repeated_more))]
fn times_over<T: Copy>(alloc: Global, one: &Vec<T>, times: u32) -> Result<Vec<T>, AllocError>
    ensures { IfOk result (λ all. all.items ≡ repeated times one.now.items) }
{
    let mut all = Vec::new(alloc);
    for _turn in 0..times {
        all.extend_from_slice(one.as_slice())?;
    }
    Ok(all)
}
