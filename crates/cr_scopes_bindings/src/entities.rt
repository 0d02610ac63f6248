// The tokens that declare entities.
ghost use Rattle.std.specs.Prelude.{◌≡◌, ◌<◌, ◌==◌, ℕ, true, false, None, IfOk, length, slice_index_or, slice_set, if◌then◌else◌};
ghost use Rattle.std.specs.List.{list_any};
ghost use Rattle.cr_scopes_bindings.specs.Entities.{declared_entity, entity_at as entity_of_token, entity_within, first_in, first_of, previous_of, AreDeclaring};
ghost use Rattle.cr_rows.specs.Columns.{AreOf};

use crate::last::{entry, put};
use cr_rows::entry_at;
use cr_scopes::{Entity, Names};
use cr_syntax::number_of;
use std::alloc::{AllocError, Global};

fn entity_within(count: usize, entity: Option<u32>) -> Option<usize>
    ensures { result ≡ entity_within count entity }
{
    match entity {
        Some(entity) => if (entity as usize) < count {
            Some(entity as usize)
        } else {
            None
        },
        None => None,
    }
}

/// The number of the entity that a token stands for.
pub(crate) fn entity_at(names: &Names, token: usize) -> Option<usize>
    ensures { result ≡ entity_of_token names.now token }
{
    entity_within(
        names.entities.len(),
        entry_at(names.of_token.as_slice(), token, None),
    )
}

/// Sets a mark; a column has none where it doesn't reach.
pub(crate) fn mark(column: &mut Vec<bool>, at: usize)
    ensures { column.new.items ≡ slice_set column.old.items at true }
{
    if at < column.len() {
        column[at] = true;
    }
}

fn mark_all(column: &mut Vec<bool>, declared: &[u32])
    ensures count { length column.new.items ≡ length column.old.items }
    ensures each { (k : ℕ) → k < length column.old.items → slice_index_or column.new.items k false ≡ (if list_any (λ d. d == k) declared.now then true else slice_index_or column.old.items k false) }
{
    for token in declared {
        mark(column, *token as usize);
    }
}

/// Which tokens declare something.
#[tactic(auto, using(crate::proofs::Marked::either))]
pub(crate) fn declaring(alloc: Global, names: &Names) -> Result<Vec<bool>, AllocError>
    ensures { IfOk result (λ column. AreDeclaring names.now (length names.now.of_token) column.items) }
{
    let mut column = vec![in alloc; false; names.of_token.len()]?;
    for entity in names.entities.as_slice() {
        mark_all(&mut column, entity.declared.as_slice());
    }
    Ok(column)
}

fn if_it_declares(declares: bool, entity: Option<usize>) -> Option<usize>
    ensures { result ≡ (if declares then entity else None) }
{
    if declares { entity } else { None }
}

/// For each token the one before it that declares the same.
#[tactic(auto, using(cr_rows::proofs::Columns::one_more, crate::proofs::Marked::before_is))]
pub(crate) fn previous(
    alloc: Global,
    names: &Names,
    declaring: &[bool],
) -> Result<Vec<Option<u32>>, AllocError>
    requires { AreDeclaring names.now (length names.now.of_token) declaring.now }
    ensures { IfOk result (λ column. AreOf (previous_of names.now) None (length names.now.of_token) column.items) }
{
    let mut last = vec![in alloc; None; names.entities.len()]?;
    let mut previous = Vec::new(alloc);
    for token in 0..names.of_token.len() {
        let number = number_of(token)?;
        let entity = entity_at(names, token);
        previous.push(entry(&last, entity))?;
        put(
            &mut last,
            if_it_declares(entry_at(declaring, token, false), entity),
            number,
        );
    }
    Ok(previous)
}

fn first_in(entity: &Entity) -> Option<usize>
    ensures { result ≡ first_in entity.now.declared }
{
    match entity.declared.as_slice() {
        [token, ..] => Some(*token as usize),
        [] => None,
    }
}

/// The first token that declares an entity.
pub(crate) fn first_of(names: &Names, entity: Option<usize>) -> Option<usize>
    ensures { result ≡ first_of names.now entity }
{
    let entity = entity?;
    match names.entities.as_slice().get(entity) {
        Some(entity) => first_in(entity),
        None => None,
    }
}
