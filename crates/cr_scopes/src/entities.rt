ghost use Rattle.std.specs.Prelude.{◌≡◌, ◌+◌, ◌<◌, ◌++◌, ◌∷◌, [], ℕ, Some, None, IfOk, OnOk, length, slice_get, slice_set, slice_index_or, if◌then◌else◌};
ghost use Rattle.cr_scopes.specs.Resolved.{begins, nobody, with_token, AreNames};
ghost use Rattle.cr_scopes.specs.Building.{told_in, number_in, AreBegun, AreNumbered, AreFilled, HasAdded};

use crate::names::{Entity, Names};
use crate::told::Told;
use cr_rows::Row;
use cr_syntax::number_of as number_of_token;
use std::alloc::{AllocError, Global};

/// The entities, by what the tokens stand for.
#[tactic(auto, using(crate::proofs::Built::built))]
pub fn entities_of(alloc: Global, told: &Vec<Option<Told>>) -> Result<Names, AllocError>
    ensures { IfOk result (λ names. AreNames (told_in told.now.items) (length told.now.items) names) }
{
    let begun = beginnings(alloc, told)?;
    let of_token = numbers(alloc, told, &begun)?;
    let entities = filled(alloc, told, &of_token, begun.count)?;
    Ok(Names {
        entities: Row::from_vec(entities),
        of_token: Row::from_vec(of_token),
    })
}

// Which tokens begin an entity, each with its number, and how many do.
#[derive(Drop)]
struct Begun {
    numbers: Vec<Option<u32>>,
    count: u32,
}

#[tactic(auto, using(crate::proofs::Built::one_begun))]
fn beginnings(alloc: Global, told: &Vec<Option<Told>>) -> Result<Begun, AllocError>
    ensures { IfOk result (λ b. AreBegun (told_in told.now.items) b.numbers.items b.count (length told.now.items)) }
{
    let mut numbers = Vec::with_capacity(alloc, told.len())?;
    let mut count = 0;
    for at in 0..told.len() {
        count = number_one(&mut numbers, count, begins(told_at(told, at), at))?;
    }
    Ok(Begun { numbers, count })
}

fn begins(what: Option<Told>, at: usize) -> bool
    ensures { result ≡ begins what at }
{
    match what {
        Some(told) => told.declares && told.first as usize == at,
        None => false,
    }
}

fn number_one(numbers: &mut Vec<Option<u32>>, count: u32, begins: bool) -> Result<u32, AllocError>
    ensures numbers { OnOk result (numbers.new.items ≡ numbers.old.items ++ (if begins then Some count else None) ∷ []) }
    ensures count { IfOk result (λ n. n ≡ (if begins then count + 1 else count)) }
{
    match begins {
        true => {
            let next = count.checked_add(1).ok_or(AllocError)?;
            numbers.push(Some(count))?;
            Ok(next)
        }
        false => {
            numbers.push(None)?;
            Ok(count)
        }
    }
}

// The number of the entity that each token stands for.
#[tactic(auto, using(crate::proofs::Built::one_numbered))]
fn numbers(
    alloc: Global,
    told: &Vec<Option<Told>>,
    begun: &Begun,
) -> Result<Vec<Option<u32>>, AllocError>
    ensures { IfOk result (λ of. AreNumbered (told_in told.now.items) begun.now.numbers.items of.items (length told.now.items)) }
{
    let mut of_token = Vec::with_capacity(alloc, told.len())?;
    for at in 0..told.len() {
        of_token.push(number_of(&begun.numbers, told_at(told, at)))?;
    }
    Ok(of_token)
}

fn told_at(told: &Vec<Option<Told>>, at: usize) -> Option<Told>
    ensures { result ≡ told_in told.now.items at }
{
    if at < told.len() { told[at] } else { None }
}

fn number_of(begun: &Vec<Option<u32>>, what: Option<Told>) -> Option<u32>
    ensures { result ≡ number_in begun.now.items what }
{
    match what {
        Some(told) => number_at(begun, told.first as usize),
        None => None,
    }
}

// The entities, each with its tokens.
#[tactic(auto, using(crate::proofs::Built::one_filled))]
fn filled(
    alloc: Global,
    told: &Vec<Option<Told>>,
    of_token: &Vec<Option<u32>>,
    count: u32,
) -> Result<Vec<Entity>, AllocError>
    ensures { IfOk result (λ es. AreFilled (told_in told.now.items) of_token.now.items es.items count (length told.now.items)) }
{
    let mut entities = nobodies(alloc, count)?;
    for at in 0..told.len() {
        let token = number_of_token(at)?;
        add(
            &mut entities,
            number_at(of_token, at),
            token,
            told_at(told, at),
        )?;
    }
    Ok(entities)
}

fn number_at(of_token: &Vec<Option<u32>>, at: usize) -> Option<u32>
    ensures { result ≡ slice_index_or of_token.now.items at None }
{
    if at < of_token.len() {
        of_token[at]
    } else {
        None
    }
}

#[tactic(auto, using(crate::proofs::Built::one_nobody))]
fn nobodies(alloc: Global, count: u32) -> Result<Vec<Entity>, AllocError>
    ensures whole { IfOk result (λ es. length es.items ≡ count) }
    ensures each { IfOk result (λ es. (j : ℕ) → j < count → slice_get es.items j ≡ Some nobody) }
{
    let mut entities = Vec::new(alloc);
    for _k in 0..count {
        entities.push(Entity {
            declared: Row::new(alloc),
            uses: Row::new(alloc),
            space: 0,
        })?;
    }
    Ok(entities)
}

#[tactic(auto, using(crate::proofs::Built::nothing_added))]
fn add(
    entities: &mut Vec<Entity>,
    number: Option<u32>,
    token: u32,
    what: Option<Told>,
) -> Result<(), AllocError>
    ensures { OnOk result (HasAdded number token what entities.old.items entities.new.items) }
{
    match number {
        None => Ok(()),
        Some(number) => add_at(entities, number as usize, token, what),
    }
}

#[tactic(auto, using(crate::proofs::Built::added_past, crate::proofs::Built::added_at))]
fn add_at(
    entities: &mut Vec<Entity>,
    at: usize,
    token: u32,
    what: Option<Told>,
) -> Result<(), AllocError>
    ensures { OnOk result (HasAdded (Some at) token what entities.old.items entities.new.items) }
{
    if at < entities.len() {
        put(&mut entities[at], token, what)?;
    }
    Ok(())
}

fn put(entity: &mut Entity, token: u32, what: Option<Told>) -> Result<(), AllocError>
    ensures { OnOk result (entity.new ≡ with_token token what entity.old) }
{
    match what {
        None => Ok(()),
        Some(told) => {
            if told.declares {
                entity.declared.push(token)?;
            } else {
                entity.uses.push(token)?;
            }
            entity.space = told.space;
            Ok(())
        }
    }
}
