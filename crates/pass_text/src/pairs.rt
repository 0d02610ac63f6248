// Pass b: brackets and their partners.
ghost use Rattle.std.specs.Prelude.{◌≡◌, ◌++◌, ◌∷◌, [], map, slice_index, IfOk, OnOk};
ghost use Rattle.pass_text.specs.Brackets.{IsBracketOffering, b_offering, pair_gone, pairs_gone, signs_of};

use crate::matching::partners;
use crate::pair::Pair;
use cr_cursor::NoMemory;
use cr_tokens::Token;
use pass_edit::{Edits, Kept, Menu};
use pass_levels::gone;
use std::alloc::Global;

/// What pass b offers for a file of these tokens: of each bracket and its partner, at level 0 all from the one to the other goes, at level 1
/// what is between, at level 2 the two brackets. Where some bracket has no partner, there is nothing at all three. The error is want of memory.
pub fn brackets(alloc: Global, file: &[u8], tokens: &[Token]) -> Result<Menu, NoMemory>
    ensures { IfOk result (λ menu. IsBracketOffering file.now tokens.now menu) }
{
    let signs = signs(alloc, file, tokens)?;
    let found = partners(alloc, signs.as_slice())?;
    match found {
        Some(pairs) => menu(alloc, tokens, pairs.as_slice()),
        None => menu(alloc, tokens, &[]),
    }
}

fn signs(alloc: Global, file: &[u8], tokens: &[Token]) -> Result<Vec<u8>, NoMemory>
    ensures { IfOk result (λ signs. signs.items ≡ signs_of file.now tokens.now) }
{
    let mut signs = Vec::new(alloc);
    for token in tokens {
        signs.push(byte_at(file, token.start as usize))?;
    }
    Ok(signs)
}

fn byte_at(file: &[u8], at: usize) -> u8
    ensures { result ≡ slice_index file.now at }
{
    match file.get(at) {
        Some(byte) => *byte,
        None => 0,
    }
}

const LEVELS: [u8; 3] = [0, 1, 2];

fn menu(alloc: Global, tokens: &[Token], pairs: &[Pair]) -> Result<Menu, NoMemory>
    ensures { IfOk result (λ menu. menu ≡ b_offering tokens.now pairs.now) }
{
    let mut levels = Vec::new(alloc);
    for level in LEVELS {
        levels.push(edits(alloc, tokens, pairs, level)?)?;
    }
    Ok(Menu::new(levels, Kept::nothing(alloc)))
}

fn edits(alloc: Global, tokens: &[Token], pairs: &[Pair], level: u8) -> Result<Edits, NoMemory>
    ensures { IfOk result (λ edits. edits ≡ pairs_gone tokens.now pairs.now level) }
{
    let mut edits = Edits::new(alloc);
    for pair in pairs {
        push(&mut edits, tokens, level, *pair)?;
    }
    Ok(edits)
}

fn push(edits: &mut Edits, tokens: &[Token], level: u8, pair: Pair) -> Result<(), NoMemory>
    ensures { OnOk result (edits.new ≡ edits.old ++ pair_gone tokens.now level pair ∷ []) }
{
    let from = pair.from as usize;
    let to = pair.to as usize;
    match level {
        0 => edits.push(&[gone(tokens, from, to)]),
        1 if from + 1 == to => edits.push(&[]),
        1 => edits.push(&[gone(tokens, from + 1, to.saturating_sub(1))]),
        _ => edits.push(&[gone(tokens, from, from), gone(tokens, to, to)]),
    }
}
