// The reading of signs, from the last to the first.
ghost use Rattle.std.specs.Prelude.{◌≡◌, ◌≢◌, [], Some, None, if◌then◌else◌, IfOk, MatchOption};
ghost use Rattle.pass_text.specs.Nesting.{closer, is_close, is_open};
ghost use Rattle.pass_text.specs.Reading.{empty, step, opened};

use crate::Pair;
use std::alloc::{AllocError, Global};
use std::marker::Model;

// A closing bracket, by its sign and the sign's number.
#[derive(Clone, Copy, Drop)]
pub struct Closing {
    sign: u8,
    at: u32,
}

/// What was read so far. Both lists have the latest at the end, and clauses see it at the front.
#[derive(Drop)]
pub struct Reading {
    waiting: Vec<Closing>,
    pairs: Vec<Pair>,
}

impl Model for Reading {
    ghost use Rattle.std.specs.Prelude.{reverse};
    ghost use Rattle.pass_text.specs.Reading.{State};

    ghost Value = { State };

    ghost view = { λ r. record { waiting = reverse r.waiting.items; pairs = reverse r.pairs.items } };
}

impl Reading {
    /// Nothing is read yet. It takes no memory.
    pub fn new(alloc: Global) -> Reading
        ensures { result ≡ empty }
    {
        Reading {
            waiting: Vec::new(alloc),
            pairs: Vec::new(alloc),
        }
    }

    /// Reads the sign before all others. Answers whether it may stand there.
    pub fn read(&mut self, at: u32, sign: u8) -> Result<bool, AllocError>
        ensures { IfOk result (λ fits. step at sign self.old ≡ (if fits then Some self.new else None)) }
    {
        if is_close(sign) {
            self.waiting.push(Closing { sign, at })?;
            return Ok(true);
        }
        if is_open(sign) {
            return self.open(at, sign);
        }
        Ok(true)
    }

    fn open(&mut self, at: u32, sign: u8) -> Result<bool, AllocError>
        ensures { IfOk result (λ fits. opened at sign self.old.waiting self.old.pairs ≡ (if fits then Some self.new else None)) }
    {
        match self.waiting.pop() {
            Some(closing) if closing.sign == closer(sign) => {
                self.pairs.push(Pair {
                    from: at,
                    to: closing.at,
                })?;
                Ok(true)
            }
            _ => Ok(false),
        }
    }

    /// The pairs, in the order of the opening brackets, or none where a closing bracket still waits.
    pub fn end(self) -> Option<Vec<Pair>>
        ensures { MatchOption result (self.waiting ≢ []) (λ pairs. (self.waiting ≡ []) × (pairs.items ≡ self.pairs)) }
    {
        if !self.waiting.is_empty() {
            return None;
        }
        let mut pairs = self.pairs;
        pairs.reverse();
        Some(pairs)
    }
}

fn is_open(sign: u8) -> bool
    ensures { result ≡ is_open sign }
{
    matches!(sign, b'(' | b'[' | b'{')
}

fn is_close(sign: u8) -> bool
    ensures { result ≡ is_close sign }
{
    matches!(sign, b')' | b']' | b'}')
}

fn closer(sign: u8) -> u8
    ensures { result ≡ closer sign }
{
    match sign {
        b'(' => b')',
        b'[' => b']',
        _ => b'}',
    }
}
