// The declaration that is visible where a name is written.
ghost use Rattle.std.specs.Prelude.{◌≡◌, OnOk, IfOk, true, false, length, slice_index_or, slice_set, if◌then◌else◌};
ghost use Rattle.cr_scopes_bindings.specs.Stacks.{entered, found_in};
ghost use Rattle.cr_scopes_bindings.specs.Visible.{marked_by, seen_by, AreVisible};
ghost use Rattle.cr_scopes.specs.Looking.{stands_in};
ghost use Rattle.cr_scopes.specs.States.{name_in};
ghost use Rattle.cr_scopes.specs.Units.{unit_events};
ghost use Rattle.cr_scopes.specs.declared.scope.Space.TheVariants.{Ordinary};

use crate::entities::mark;
use crate::last::set_link;
use crate::scoped::Scoped;
use cr_rows::entry_at;
use cr_scopes_events::{Event, Role, events};
use cr_syntax::Unit;
use std::alloc::{AllocError, Global};

fn spelling_at(spellings: &[u32], token: u32) -> u32
    ensures { result ≡ name_in spellings.now token }
{
    entry_at(spellings, token as usize, token)
}

// Whether an ordinary identifier is declared.
fn is_declaration(role: Role) -> bool
    ensures { result ≡ stands_in Ordinary role }
{
    match role {
        Role::Object | Role::ExternObject | Role::Function | Role::Typedef => true,
        Role::Parameter | Role::Enumerator => true,
        Role::Content | Role::Alone | Role::Mentioned | Role::Used => false,
    }
}

// What is visible at a token is found where it is first named.
fn find(scoped: &Scoped, named: &[bool], visible: &mut Vec<Option<u32>>, token: u32, name: u32)
    ensures { visible.new.items ≡ (if slice_index_or named.now token false then visible.old.items else slice_set visible.old.items token (found_in scoped.now name)) }
{
    if !entry_at(named, token as usize, false) {
        set_link(visible, token as usize, scoped.find(name));
    }
}

fn follow(
    scoped: &mut Scoped,
    named: &mut Vec<bool>,
    visible: &mut Vec<Option<u32>>,
    spellings: &[u32],
    event: Event,
) -> Result<(), AllocError>
    ensures scoped { OnOk result (scoped.new ≡ entered (name_in spellings.now) event scoped.old) }
    ensures named { OnOk result (named.new.items ≡ marked_by event named.old.items) }
    ensures visible { OnOk result (visible.new.items ≡ seen_by (name_in spellings.now) event scoped.old named.old.items visible.old.items) }
{
    match event {
        Event::Opens => scoped.open(),
        Event::Closes => {
            scoped.close();
            Ok(())
        }
        Event::Name(token, role) => {
            let name = spelling_at(spellings, token);
            find(scoped, named.as_slice(), visible, token, name);
            mark(named, token as usize);
            if is_declaration(role) {
                scoped.bind(name, token)
            } else {
                Ok(())
            }
        }
        Event::Node(_) | Event::Member(_, _) => Ok(()),
    }
}

fn visible_by(
    alloc: Global,
    spellings: &[u32],
    events: &[Event],
    tokens: usize,
) -> Result<Vec<Option<u32>>, AllocError>
    ensures { IfOk result (λ column. AreVisible (name_in spellings.now) events.now tokens column.items) }
{
    let mut scoped = Scoped::new(alloc, tokens)?;
    let mut named = vec![in alloc; false; tokens]?;
    let mut visible = vec![in alloc; None; tokens]?;
    for event in events {
        follow(&mut scoped, &mut named, &mut visible, spellings, *event)?;
    }
    Ok(visible)
}

/// For each token of a unit the one that declares its name where it stands, by the numbers of the tokens' spellings.
pub(crate) fn visible(
    alloc: Global,
    unit: &Unit,
    spellings: &[u32],
) -> Result<Vec<Option<u32>>, AllocError>
    ensures { IfOk result (λ column. AreVisible (name_in spellings.now) (unit_events unit.now) (length unit.now.tokens.list.items) column.items) }
{
    let events = events(alloc, unit)?;
    visible_by(alloc, spellings, events.as_slice(), unit.tokens.list.len())
}
