// Pass r: new names.
ghost use Rattle.std.specs.Prelude.{◌≡◌, ◌<◌, ◌==◌, ◌++◌, ◌∷◌, [], ℕ, Some, IfOk, map};
ghost use Rattle.std.specs.Ordering.{nat_cmp};
ghost use Rattle.std.specs.List.{list_any};
ghost use Rattle.pass_edit.specs.declared.change.Text.TheVariants as TheText;
ghost use Rattle.pass_levels.specs.Places.{replaced as replaced_by};
ghost use Rattle.pass_edit.specs.Forms.{nothing_kept};
ghost use Rattle.pass_levels.specs.Order.{in_order};
ghost use Rattle.pass_names.specs.Renamed.{entities_give, r_offering, renaming, renaming_by};

use crate::reach::{declared_at, uses_at};
use crate::reserved::reserved_of;
use crate::short::{first_free, short_name};
use cr_rows::Row;
use cr_scopes::Names;
use cr_syntax::Unit;
use cr_tokens::Token;
use pass_edit::{Change, Edits, Kept, Menu, Text};
use pass_levels::{Turns, in_turn, replaced, sort};
use std::alloc::{AllocError, Global};

// Each entity that isn't reserved has its tokens renamed.
#[derive(Drop)]
struct Renames<'a> {
    tokens: &'a [Token],
    names: &'a Names,
    reserved: &'a [u32],
    bytes: u32,
}

impl Turns for Renames<'_> {
    ghost gives = { λ r at. entities_give r.tokens.now r.bytes r.reserved.now r.names.now at };

    fn give(&self, alloc: Global, at: usize, edits: &mut Edits) -> Result<(), AllocError> {
        if is_reserved(self.reserved, declared_at(self.names, at)) {
            return Ok(());
        }
        let tokens = tokens_of(alloc, declared_at(self.names, at), uses_at(self.names, at))?;
        let edit = changes(alloc, self.tokens, self.bytes, &tokens)?;
        edits.push(edit.as_slice())
    }
}

fn is_reserved(reserved: &[u32], declared: &[u32]) -> bool
    ensures { result ≡ list_any (λ token. list_any (λ other. other == token) reserved.now) declared.now }
{
    declared.iter().any(|token| is_among(reserved, *token))
}

fn is_among(reserved: &[u32], token: u32) -> bool
    ensures { result ≡ list_any (λ other. other == token) reserved.now }
{
    reserved.iter().any(|other| *other == token)
}

fn tokens_of(alloc: Global, declared: &[u32], uses: &[u32]) -> Result<Vec<u32>, AllocError>
    ensures { IfOk result (λ tokens. tokens.items ≡ in_order nat_cmp (declared.now ++ uses.now)) }
{
    let mut tokens = declared.to_vec(alloc)?;
    tokens.extend_from_slice(uses)?;
    sort(&mut tokens)?;
    Ok(tokens)
}

fn changes(
    alloc: Global,
    tokens: &[Token],
    bytes: u32,
    renamed: &[u32],
) -> Result<Vec<Change>, AllocError>
    ensures { IfOk result (λ changes. changes.items ≡ map (λ token. replaced_by tokens.now token token (TheText.Kept 0 bytes)) renamed.now) }
{
    let mut changes = Vec::new(alloc);
    for token in renamed {
        let at = *token as usize;
        changes.push(replaced(tokens, at, at, Text::Kept(0, bytes)))?;
    }
    Ok(changes)
}

fn renaming(
    alloc: Global,
    tokens: &[Token],
    names: &Names,
    reserved: &[u32],
    name: Vec<u8>,
) -> Result<Menu, AllocError>
    ensures { IfOk result (λ menu. menu ≡ renaming tokens.now names.now reserved.now name.items) }
{
    let bytes = u32::try_from(name.len()).map_err(|_| AllocError)?;
    let renames = Renames {
        tokens,
        names,
        reserved,
        bytes,
    };
    let mut levels = Vec::new(alloc);
    levels.push(in_turn(alloc, names.entities.len(), &renames)?)?;
    let mut kept = Kept::nothing(alloc);
    kept.bytes = Row::from_vec(name);
    Ok(Menu::new(levels, kept))
}

fn no_renaming(alloc: Global) -> Result<Menu, AllocError>
    ensures { IfOk result (λ menu. menu ≡ record { levels = [] ∷ []; kept = nothing_kept }) }
{
    let mut levels = Vec::new(alloc);
    levels.push(Edits::new(alloc))?;
    Ok(Menu::new(levels, Kept::nothing(alloc)))
}

fn renaming_by(
    alloc: Global,
    tokens: &[Token],
    names: &Names,
    reserved: &[u32],
    number: Option<u32>,
) -> Result<Menu, AllocError>
    requires { (n : ℕ) → number ≡ Some n → n < 475254 }
    ensures { IfOk result (λ menu. menu ≡ renaming_by number tokens.now names.now reserved.now) }
{
    match number {
        Some(number) => renaming(alloc, tokens, names, reserved, short_name(alloc, number)?),
        None => no_renaming(alloc),
    }
}

/// What pass r offers for a file's unit with these names: all tokens of an entity, other than main and the library's functions, become the
/// first text over the letters a to z, by length and then by bytes, that is no keyword and no identifier of the file. The error is want of
/// memory.
pub fn renamed(alloc: Global, file: &[u8], unit: &Unit, names: &Names) -> Result<Menu, AllocError>
    ensures { IfOk result (λ menu. menu ≡ r_offering file.now unit.now.tokens.list.items unit.now.nodes unit.now.items names.now) }
{
    let reserved = reserved_of(alloc, file, unit, true)?;
    let reserved = reserved.as_slice();
    let tokens = unit.tokens.list.as_slice();
    let number = first_free(alloc, file, tokens)?;
    renaming_by(alloc, tokens, names, reserved, number)
}
