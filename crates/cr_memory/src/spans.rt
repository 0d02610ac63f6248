ghost use Rattle.std.specs.Prelude.{◌≡◌, ◌≢◌, ◌↔◌, ℕ, ◌<◌, ◌≤◌, ◌^◌, ◌++◌, ◌∷◌, [], true, false, length, slice_set, IsTrue, IfOk, OnOk, OnErr, IfSome, IfNone};
ghost use Rattle.std.specs.List.{remove};
ghost use Rattle.cr_memory.specs.Flat.{span_at, span_of, ended_span, moved_span, HasRoom, EndsAfterLast, IsNext, living_in};
ghost use Rattle.cr_memory.specs.Spans.{living_at, IsRising, IsPlaceOf, Parts};

use crate::span::Span;
use cr_sequence::give_back;
use std::alloc::{AllocError, Global};
use std::marker::Model;

/// So many of the last live objects are looked at before a search by halves: most accesses are to them.
const NEAR: usize = 6;

/// Where the cells of a live object stand.
#[derive(Clone, Copy, PartialEq, Eq, Debug)]
pub struct Living {
    pub first: usize,
    pub number: u32,
    pub count: u32,
}

/// The spans of all objects by their numbers, from 0 on. Those of objects that have ended take no room.
#[derive(Drop)]
pub struct Spans {
    entered: u32,
    living: Vec<Living>,
}

impl Model for Spans {
    ghost use Rattle.std.specs.Prelude.{List};
    ghost use Rattle.cr_memory.specs.declared.span.Span.{Span};

    ghost Value = { List Span };

    ghost use Rattle.cr_memory.specs.Spans.{spans_of, IsKept};

    ghost view = { λ s. spans_of s.entered s.living.items };

    ghost invariant = { λ s. IsKept s.entered s.living.items };
}

impl Spans {
    pub(crate) fn new(alloc: Global) -> Spans
        ensures { result ≡ [] }
    {
        Spans {
            entered: 0,
            living: Vec::new(alloc),
        }
    }

    /// How many objects were entered.
    pub(crate) fn entered(&self) -> u32
        ensures { result ≡ length self.now }
    {
        self.entered
    }

    /// How many objects live.
    pub(crate) fn living(&self) -> u32
        ensures { result ≡ living_in self.now }
    {
        self.living.len() as u32
    }

    /// The span of an object. One that wasn't entered has ended.
    pub(crate) fn get(&self, number: u32) -> Span
        ensures { result ≡ span_at self.now number }
    {
        match find(&self.living, number) {
            Some(index) => {
                let own = self.living[index];
                Span {
                    first: own.first,
                    count: own.count,
                    alive: true,
                }
            }
            None => Span {
                first: 0,
                count: 0,
                alive: false,
            },
        }
    }

    /// Enters an object behind the others, or changes nothing.
    pub(crate) fn enter(&mut self, first: usize, count: u32) -> Result<u32, AllocError>
        requires { length self.old < 4294967295 }
        ensures number { IfOk result (λ number. number ≡ length self.old) }
        ensures entered { OnOk result (self.new ≡ self.old ++ span_of first count ∷ []) }
        ensures same { OnErr result (self.new ≡ self.old) }
    {
        let number = self.entered;
        self.living.push(Living {
            first,
            number,
            count,
        })?;
        self.entered = number + 1;
        Ok(number)
    }

    /// Ends an object's lifetime, and answers how many cells it had. The later live objects move up, so the last one
    /// leaves fastest.
    pub(crate) fn leave(&mut self, number: u32) -> u32
        ensures count { result ≡ (span_at self.old number).count }
        ensures left { self.new ≡ slice_set self.old number ended_span }
    {
        match find(&self.living, number) {
            Some(index) => {
                let own = self.living[index];
                take_out(&mut self.living, index);
                own.count
            }
            None => 0,
        }
    }

    /// Lets the cells of a live object begin elsewhere.
    pub(crate) fn move_to(&mut self, number: u32, first: usize)
        requires { (span_at self.old number).alive ≡ true }
        ensures { self.new ≡ slice_set self.old number (moved_span first (span_at self.old number)) }
    {
        if let Some(index) = find(&self.living, number) {
            self.living[index].first = first;
        }
    }

    /// Where the cells of the last live object end: from there on no cell is used.
    pub(crate) fn end(&self) -> usize
        requires { HasRoom self.now 18446744073709551615 }
        ensures { EndsAfterLast self.now result }
    {
        let count = self.living.len();
        if count == 0 {
            return 0;
        }
        let last = self.living[count - 1];
        last.first + last.count as usize
    }

    /// The first object from a number on that lives.
    pub(crate) fn next(&self, from: u32) -> Option<u32>
        ensures some { IfSome result (IsNext self.now from) }
        ensures none { IfNone result ((n : ℕ) → from ≤ n → (span_at self.now n).alive ≡ false) }
        ensures few { length self.now < 2 ^ 32 }
    {
        let index = below(&self.living, from);
        if index < self.living.len() {
            let own = self.living[index];
            Some(own.number)
        } else {
            None
        }
    }
}

fn take_out(living: &mut Vec<Living>, index: usize)
    requires { index < length living.old.items }
    ensures { living.new.items ≡ remove living.old.items index }
{
    living.remove(index);
    give_back(living);
}

fn is_at(living: &Vec<Living>, index: usize, number: u32) -> bool
    ensures { IsTrue result ↔ IsPlaceOf living.now.items number index }
{
    index < living.len() && living[index].number == number
}

/// How many live objects have smaller numbers.
fn below(living: &Vec<Living>, number: u32) -> usize
    requires { IsRising living.now.items }
    ensures { Parts living.now.items number result }
{
    living.partition_point(|own| own.number < number)
}

/// The place of a live object that was one of the first that were entered, or is one of the last that live.
fn guess(living: &Vec<Living>, number: u32) -> Option<usize>
    ensures { IfSome result (IsPlaceOf living.now.items number) }
{
    if is_at(living, number as usize, number) {
        return Some(number as usize);
    }
    for index in (living.len().saturating_sub(NEAR)..living.len()).rev() {
        if is_at(living, index, number) {
            return Some(index);
        }
    }
    None
}

/// The place of an object among the live ones, if it lives.
fn find(living: &Vec<Living>, number: u32) -> Option<usize>
    requires { IsRising living.now.items }
    ensures some { IfSome result (IsPlaceOf living.now.items number) }
    ensures none { IfNone result ((index : ℕ) → index < length living.now.items → (living_at living.now.items index).number ≢ number) }
{
    if let Some(index) = guess(living, number) {
        return Some(index);
    }
    let index = below(living, number);
    if is_at(living, index, number) {
        Some(index)
    } else {
        None
    }
}
