// Pass t: runs of tokens.
ghost use Rattle.std.specs.Prelude.{◌≡◌, ◌++◌, ◌<◌, List, ℕ, IfOk, OnOk};
ghost use Rattle.pass_edit.specs.declared.change.Change.{Change as SpecChange};
ghost use Rattle.pass_text.specs.Runs.{run_gone, runs_gone, t_offering};

use cr_cursor::NoMemory;
use cr_tokens::Token;
use pass_edit::{Edits, Kept, Menu};
use pass_levels::{Turns, gone, in_turn};
use std::alloc::Global;

// Runs of one length: a token, and so many more behind it.
#[derive(Drop)]
struct Runs<'a> {
    tokens: &'a [Token],
    more: usize,
}

impl Turns for Runs<'_> {
    ghost gives = { λ r at. run_gone r.tokens.now r.more at };

    fn give(&self, _alloc: Global, at: usize, edits: &mut Edits) -> Result<(), NoMemory> {
        let last = at.saturating_add(self.more);
        edits.push(&[gone(self.tokens, at, last)])
    }
}

fn level(alloc: Global, tokens: &[Token], more: usize) -> Result<Edits, NoMemory>
    ensures { IfOk result (λ edits. edits ≡ runs_gone tokens.now more) }
{
    let count = tokens.len().saturating_sub(more);
    in_turn(alloc, count, &Runs { tokens, more })
}

// How many tokens go with the first, level by level.
const MORE: [usize; 5] = [15, 7, 3, 1, 0];

/// What pass t offers for a file of these tokens: at level L each run of `2^(4 - L)` tokens goes. The error is want of memory.
pub fn runs_of_tokens(alloc: Global, tokens: &[Token]) -> Result<Menu, NoMemory>
    ensures { IfOk result (λ menu. menu ≡ t_offering tokens.now) }
{
    let mut levels = Vec::new(alloc);
    for more in MORE {
        levels.push(level(alloc, tokens, more)?)?;
    }
    Ok(Menu::new(levels, Kept::nothing(alloc)))
}
