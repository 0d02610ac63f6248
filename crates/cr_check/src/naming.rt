// The first fault of the names of a unit.
ghost use Rattle.std.specs.Prelude.{◌≡◌, Some, IfOk, false, length};
ghost use Rattle.cr_syntax.specs.Words.{AreSpans};
ghost use Rattle.cr_scopes.specs.Units.{AreUnitEntities, IsUnitFirst};
ghost use Rattle.cr_check_definitions.specs.Known.{declared_in, first_part};
ghost use Rattle.cr_check.specs.NameFaults.{IsFirstNameFault, IsFirstRepeated, NoneBefore, again_before, first_declared, lesser_of, stands_again};

use crate::checked::{declarations_of, gather};
use cr_check_definitions::repeated;
use cr_rows::entry_at;
use cr_scopes::{NameFault, Names, token_of};
use cr_scopes_bindings::name_at;
use cr_syntax::{Node, Unit, number_of};
use std::alloc::{AllocError, Global};

/// The first fault of the names of a unit, given the first one that shows by the names alone: that one, or Twice at a lesser token, where a
/// typedef name is declared again with another type than that of its first declaration (C11 6.7p3). The names are those that
/// `resolve_whole` answers with the fault. The error is want of memory.
#[tactic(auto, using(crate::proofs::NameFaults::first_is, crate::proofs::NameFaults::none_before_is))]
pub fn first_name_fault(
    alloc: Global,
    file: &[u8],
    unit: &Unit,
    names: &Names,
    fault: NameFault,
) -> Result<NameFault, AllocError>
    requires spans { AreSpans file.now unit.now.tokens.list.items }
    requires names { AreUnitEntities file.now unit.now names.now }
    requires fault { IsUnitFirst file.now unit.now (Some fault) }
    ensures { IfOk result (λ first. IsFirstNameFault file.now unit.now first) }
{
    if !is_declared_again(unit.nodes.as_slice(), names, token_of(fault))? {
        return Ok(fault);
    }
    let token = first_repeated(alloc, file, unit, names)?;
    Ok(lesser(fault, token))
}

// Whether some name is declared again before a token, whatever it is: without that no types are needed.
#[tactic(auto, using(crate::proofs::Again::none_yet, crate::proofs::Again::one_more, crate::proofs::Again::all_looked_at, crate::proofs::Again::is_one))]
fn is_declared_again(nodes: &[Node], names: &Names, before: u32) -> Result<bool, AllocError>
    ensures { IfOk result (λ is. is ≡ false → NoneBefore nodes.now names.now before (length nodes.now)) }
{
    for at in 0..nodes.len() {
        let declared = name_at(nodes, number_of(at)?);
        if stands_again_before(names, declared, before) {
            return Ok(true);
        }
    }
    Ok(false)
}

fn stands_again_before(names: &Names, token: Option<u32>, before: u32) -> bool
    ensures { result ≡ again_before names.now before token }
{
    match token {
        Some(token) => token < before && stands_again(names, token),
        None => false,
    }
}

fn stands_again(names: &Names, token: u32) -> bool
    ensures { result ≡ stands_again names.now token }
{
    match first_declared(
        names,
        entry_at(names.of_token.as_slice(), token as usize, None),
    ) {
        Some(first) => first != token,
        None => false,
    }
}

fn first_declared(names: &Names, entity: Option<u32>) -> Option<u32>
    ensures { result ≡ first_declared names.now entity }
{
    match entity {
        Some(entity) => first_token_of(names, entity as usize),
        None => None,
    }
}

fn first_token_of(names: &Names, entity: usize) -> Option<u32>
    ensures { result ≡ first_part (declared_in names.now entity) }
{
    match names.entities.as_slice().get(entity) {
        Some(entity) => first_part(entity.declared.as_slice()),
        None => None,
    }
}

fn first_part(tokens: &[u32]) -> Option<u32>
    ensures { result ≡ first_part tokens.now }
{
    match tokens {
        [token, ..] => Some(*token),
        [] => None,
    }
}

// The first token at which a typedef name is declared again with another type.
#[tactic(auto, using(crate::proofs::NameFaults::repeated_is))]
fn first_repeated(
    alloc: Global,
    file: &[u8],
    unit: &Unit,
    names: &Names,
) -> Result<Option<u32>, AllocError>
    requires { AreSpans file.now unit.now.tokens.list.items }
    ensures { IfOk result (λ token. IsFirstRepeated file.now unit.now names.now token) }
{
    let checked = gather(alloc, file, unit, names)?;
    repeated(alloc, names, &declarations_of(file, unit, &checked))
}

fn lesser(fault: NameFault, token: Option<u32>) -> NameFault
    ensures { result ≡ lesser_of fault token }
{
    match token {
        Some(token) => if token < token_of(fault) {
            NameFault::Twice(token)
        } else {
            fault
        },
        None => fault,
    }
}
