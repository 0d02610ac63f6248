// Where what tokens name is declared and used.
ghost use Rattle.std.specs.Prelude.{◌≡◌, ◌+◌, ◌-◌, ◌==◌, ◌&&◌, ℕ, None, IfOk, cond, length, nat_le, slice_index_or};
ghost use Rattle.std.specs.List.{list_all, list_any, range_with_len};
ghost use Rattle.cr_scopes.specs.Resolved.{is_number};
ghost use Rattle.pass_names.specs.Reach.{AreOuter, are_own, entity_at, fits, has_no_use_outside, is_own, is_within, number_of, uses_of};

use cr_scopes::Names;
use std::alloc::{AllocError, Global};

/// What names stand for, and for each token the first and the last of the tokens that use what it declares, if there are any.
#[derive(Drop)]
pub struct Reach<'a> {
    pub names: &'a Names,
    outer: Vec<Option<(u32, u32)>>,
    ghost is: { AreOuter names.now outer.items },
}

fn number_of(names: &Names, token: usize) -> Option<u32>
    ensures { result ≡ number_of names.now token }
{
    match names.of_token.as_slice().get(token) {
        Some(number) => *number,
        None => None,
    }
}

/// The tokens that use an entity.
pub fn uses_at(names: &Names, at: usize) -> &[u32]
    ensures { result.now ≡ (entity_at names.now at).uses }
{
    match names.entities.as_slice().get(at) {
        Some(entity) => entity.uses.as_slice(),
        None => &[],
    }
}

/// The tokens that declare an entity.
pub fn declared_at(names: &Names, at: usize) -> &[u32]
    ensures { result.now ≡ (entity_at names.now at).declared }
{
    match names.entities.as_slice().get(at) {
        Some(entity) => entity.declared.as_slice(),
        None => &[],
    }
}

/// The tokens that use what a token names.
pub fn uses_of(names: &Names, token: usize) -> &[u32]
    ensures { result.now ≡ uses_of names.now token }
{
    match number_of(names, token) {
        Some(at) => uses_at(names, at as usize),
        None => &[],
    }
}

/// Whether a token stands from one to another.
pub fn is_within(first: u32, last: u32, token: u32) -> bool
    ensures { result ≡ is_within first last token }
{
    first <= token && token <= last
}

/// Whether what a token names has no use but from one token to another.
pub fn has_no_use_outside(names: &Names, first: u32, last: u32, token: usize) -> bool
    ensures { result ≡ has_no_use_outside names.now first last token }
{
    uses_of(names, token)
        .iter()
        .all(|used| is_within(first, last, *used))
}

fn fits(first: u32, last: u32, outer: Option<(u32, u32)>) -> bool
    ensures { result ≡ fits first last outer }
{
    match outer {
        Some((least, greatest)) => first <= least && greatest <= last,
        None => true,
    }
}

fn lesser(left: u32, right: u32) -> u32
    ensures { (first : ℕ) → nat_le first result ≡ (nat_le first left && nat_le first right) }
{
    if left <= right { left } else { right }
}

fn greater(left: u32, right: u32) -> u32
    ensures { (last : ℕ) → nat_le result last ≡ (nat_le left last && nat_le right last) }
{
    if left <= right { right } else { left }
}

fn widened(outer: Option<(u32, u32)>, token: u32) -> Option<(u32, u32)>
    ensures { (first last : ℕ) → fits first last result ≡ (fits first last outer && is_within first last token) }
{
    match outer {
        Some((least, greatest)) => Some((lesser(least, token), greater(greatest, token))),
        None => Some((token, token)),
    }
}

// The first and the last of some tokens, wherever they stand in the list.
fn outer_of(tokens: &[u32]) -> Option<(u32, u32)>
    ensures { (first last : ℕ) → fits first last result ≡ list_all (is_within first last) tokens.now }
{
    let mut outer = None;
    for token in tokens {
        outer = widened(outer, *token);
    }
    outer
}

// A token's, if it stands for this entity.
fn put_at(
    names: &Names,
    at: usize,
    token: usize,
    outer: Option<(u32, u32)>,
    all: &mut Vec<Option<(u32, u32)>>,
)
    requires { length all.old.items ≡ length names.now.of_token }
    ensures count { length all.new.items ≡ length names.now.of_token }
    ensures put { (other : ℕ) → slice_index_or all.new.items other None ≡ cond (is_number (number_of names.now other) at && (token == other)) outer (slice_index_or all.old.items other None) }
{
    match number_of(names, token) {
        Some(number) => if number as usize == at {
            all[token] = outer;
        },
        None => {}
    }
}

// Those of all tokens that declare an entity.
fn put_all(names: &Names, at: usize, outer: Option<(u32, u32)>, all: &mut Vec<Option<(u32, u32)>>)
    requires { length all.old.items ≡ length names.now.of_token }
    ensures count { length all.new.items ≡ length names.now.of_token }
    ensures put { (other : ℕ) → slice_index_or all.new.items other None ≡ cond (is_number (number_of names.now other) at && list_any (λ token. token == other) (entity_at names.now at).declared) outer (slice_index_or all.old.items other None) }
{
    let declared = declared_at(names, at);
    for token in declared {
        put_at(names, at, *token as usize, outer, all);
    }
}

// None for each of so many tokens.
fn none_each(alloc: Global, count: usize) -> Result<Vec<Option<(u32, u32)>>, AllocError>
    ensures count { IfOk result (λ all. length all.items ≡ count) }
    ensures none { IfOk result (λ all. (token : ℕ) → slice_index_or all.items token None ≡ None) }
{
    Vec::from_elem(alloc, None, count)
}

fn outer_uses(alloc: Global, names: &Names) -> Result<Vec<Option<(u32, u32)>>, AllocError>
    ensures { IfOk result (λ all. AreOuter names.now all.items) }
{
    let mut all = none_each(alloc, names.of_token.len())?;
    for at in 0..names.entities.len() {
        put_all(names, at, outer_of(uses_at(names, at)), &mut all);
    }
    Ok(all)
}

/// How far the uses of what each token declares reach.
pub fn reach_of<'a>(alloc: Global, names: &'a Names) -> Result<Reach<'a>, AllocError>
    ensures { IfOk result (λ reach. reach.names.now ≡ names.now) }
{
    let outer = outer_uses(alloc, names)?;
    Ok(Reach { names, outer })
}

fn is_own(reach: &Reach, first: u32, last: u32, token: usize) -> bool
    ensures { result ≡ is_own reach.now.names.now first last token }
{
    match reach.outer.get(token) {
        Some(outer) => fits(first, last, *outer),
        None => true,
    }
}

/// Whether nothing that is declared from one token to another has a use outside.
pub fn are_own(reach: &Reach, first: u32, last: u32) -> bool
    ensures { result ≡ are_own reach.now.names.now first last }
{
    (first as usize..last as usize + 1).all(|token| is_own(reach, first, last, token))
}
