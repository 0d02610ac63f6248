// Rows of acceptances, followed from a file on.
ghost use Rattle.std.specs.Prelude.{◌≡◌, ◌∷◌, ◌↔◌, [], IfOk, IsTrue, MatchOption, true, false};
ghost use Rattle.cr_cursor.specs.TokenLaw.{IsTokenized};
ghost use Rattle.cr_pool.specs.Sizes.{HasSize};
ghost use Rattle.cr_reduce.specs.Reduction.{Within};
ghost use Rattle.cr_replay.specs.Chains.{Finds, IsStep, LeadsNowhere, chain_of};

use cr_cursor::{Law, Never, NoMemory, Passes, Ruling};
use cr_pool::measure;
use cr_reduce::{Accepted, size_of};
use std::alloc::{AllocError, Global};

/// Where rows lead.
#[derive(Debug, Drop)]
pub enum Followed {
    /// All of them lead on: to this file, with the last row's turns, or 0 where there are no rows.
    To(Vec<u8>, u64),
    /// This row, from 1, is the first that leads nowhere.
    Breaks(u32),
    NoMemory,
}

/// Follows rows from a file on. With a limit each row's turn is to be within it.
pub fn follow<P: Passes, L: Law>(
    alloc: Global,
    passes: &P,
    law: &L,
    from: Vec<u8>,
    rows: &Vec<Accepted>,
    limit: Option<u64>,
) -> Followed
    requires tokenizes { IsTokenized from.items }
    ensures { Finds (chain_of P.Passes passes.now L.Law law.now limit) from.items rows.now.items result }
{
    let mut size = match size_of(alloc, &from) {
        Ok(size) => size,
        Err(_) => return Followed::NoMemory,
    };
    let mut file = from;
    let mut turns = 0;
    let mut number = 1;
    let mut rest = rows.as_slice();
    loop {
        let Some((one, more)) = first_of(rest) else {
            return Followed::To(file, turns);
        };
        let Ok(found) = step(alloc, passes, law, &file, size, turns, limit, *one) else {
            return Followed::NoMemory;
        };
        let Some(next) = found else {
            return Followed::Breaks(number);
        };
        file = next;
        size = one.size;
        turns = one.turn;
        number += 1;
        rest = more;
    }
}

fn first_of(rows: &[Accepted]) -> Option<(&Accepted, &[Accepted])>
    ensures { MatchOption result (rows.now ≡ []) (λ parts. rows.now ≡ parts.0.now ∷ parts.1.now) }
{
    rows.split_first()
}

// The file that a row leads to, where it leads anywhere. Numbers are looked at before anything is prepared, so a forged
// row costs nothing.
fn step<P: Passes, L: Law>(
    alloc: Global,
    passes: &P,
    law: &L,
    file: &Vec<u8>,
    size: u64,
    turns: u64,
    limit: Option<u64>,
    one: Accepted,
) -> Result<Option<Vec<u8>>, NoMemory>
    requires sized { HasSize file.now.items size }
    ensures { IfOk result (λ found. MatchOption found (LeadsNowhere (chain_of P.Passes passes.now L.Law law.now limit) file.now.items turns one)
        (λ next. IsStep (chain_of P.Passes passes.now L.Law law.now limit) file.now.items turns one next.items)) }
{
    if one.turn <= turns || one.size >= size || is_past(limit, one.turn) {
        return Ok(None);
    }
    let prep = passes.prepare(alloc, file)?;
    if one.at.index >= passes.width(&prep, one.at.pass, one.at.level) {
        drop(prep);
        return Ok(None);
    }
    let mut next = Vec::new(alloc);
    let made = passes.variant(&prep, file, one.at, &mut next);
    drop(prep);
    made?;
    if is_good(alloc, law, &next, one.size)? {
        return Ok(Some(next));
    }
    Ok(None)
}

fn is_past(limit: Option<u64>, turn: u64) -> bool
    ensures past { result ≡ true → Within limit turn → ⊥ }
    ensures within { result ≡ false → Within limit turn }
{
    match limit {
        Some(limit) => turn > limit,
        None => false,
    }
}

// Whether a variant has this size and is lawful.
fn is_good<L: Law>(alloc: Global, law: &L, variant: &[u8], size: u64) -> Result<bool, NoMemory>
    ensures good { IfOk result (λ good. good ≡ true → HasSize variant.now size × L.lawful law.now variant.now) }
    ensures bad { IfOk result (λ good. good ≡ false → HasSize variant.now size → L.lawful law.now variant.now → ⊥) }
{
    if !has_size(alloc, variant, size)? {
        return Ok(false);
    }
    match law.rule(alloc, variant, &mut Never { looks: 0 }) {
        Ruling::Lawful => Ok(true),
        Ruling::Unlawful(_) => Ok(false),
        Ruling::Stopped => unreachable!(),
        Ruling::NoMemory => Err(AllocError),
    }
}

/// Whether a file has this size.
pub(crate) fn has_size(alloc: Global, file: &[u8], size: u64) -> Result<bool, NoMemory>
    ensures { IfOk result (λ has. IsTrue has ↔ HasSize file.now size) }
{
    match measure(alloc, file)? {
        Some(found) => Ok(found == size),
        None => Ok(false),
    }
}
