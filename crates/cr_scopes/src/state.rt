ghost use Rattle.std.specs.Prelude.{length, ◌≡◌, ◌+◌, ◌-◌, ◌==◌, ◌∷◌, ◌||◌, ◌&&◌, ℕ, List, Some, None, OnOk, IfOk, nat_eq, slice_set, drop, if◌then◌else◌};
ghost use Rattle.std.specs.Map.{lookup};
ghost use Rattle.std.specs.HashMap.{get};
ghost use Rattle.cr_scopes_events.specs.declared.event.Event.{Event};
ghost use Rattle.cr_scopes.specs.declared.fault.NameFault.TheVariants.{Twice};
ghost use Rattle.std.specs.Prelude.{true};
ghost use Rattle.cr_scopes.specs.Looking.{or_else};
ghost use Rattle.cr_scopes.specs.Faults.{is_other, fault_of, fault_where};
ghost use Rattle.cr_scopes.specs.Scopes.{blank};
ghost use Rattle.cr_scopes.specs.States.{name_in, same_pair, IsState, HasLinked, HasNamed, named_fault};

use crate::fault::NameFault;
use crate::rules::{begun, fault_where, is_wrong, links};
use crate::scope::{OpenScopes, close_scope, find, note, open_scope};
use crate::table::Table;
use crate::told::{Told, declares, space_of, told_if};
use cr_scopes_events::{Event, Role};
use std::alloc::{AllocError, Global};
use std::collections::HashMap;

/// What is kept of the events so far.
#[derive(Drop)]
pub struct State {
    /// The scopes that are open.
    pub scopes: OpenScopes,
    /// How many there are, that of the file aside.
    pub depth: usize,
    /// The names with linkage, each with its first declaration.
    pub linked: Table<u32>,
    /// The first member of each name in a structure.
    pub members: HashMap<(u32, u32), u32>,
    /// What tokens stand for.
    pub told: Vec<Option<Told>>,
}

fn name_at(names: &[u32], token: u32) -> u32
    ensures { result ≡ name_in names.now token }
{
    if (token as usize) < names.len() {
        names[token as usize]
    } else {
        token
    }
}

// The first member of this name in a structure; where there is none, it is this one from then on.
#[tactic(auto, using(crate::proofs::Followed::pair_kept, crate::proofs::Followed::pair_put))]
fn first_member(
    members: &mut HashMap<(u32, u32), u32>,
    structure: u32,
    name: u32,
    token: u32,
) -> Result<Option<u32>, AllocError>
    ensures was { IfOk result (λ first. first ≡ get same_pair members.old (structure, name)) }
    ensures now { OnOk result ((q : ℕ × ℕ) → get same_pair members.new q ≡ or_else (get same_pair members.old q) (if same_pair (structure, name) q then Some token else None)) }
{
    match members.get(&(structure, name)).copied() {
        Some(first) => Ok(Some(first)),
        None => {
            members.insert((structure, name), token)?;
            Ok(None)
        }
    }
}

fn is_other(token: u32, first: Option<u32>) -> bool
    ensures { result ≡ is_other token first }
{
    match first {
        Some(first) => first != token,
        None => false,
    }
}

fn tell(told: &mut Vec<Option<Told>>, token: u32, what: Option<Told>)
    ensures { told.new.items ≡ slice_set told.old.items token what }
{
    if (token as usize) < told.len() {
        told[token as usize] = what;
    }
}

// Keeps the first declaration of a name with linkage.
#[tactic(auto, using(crate::proofs::Followed::link_none))]
fn link(linked: &mut Table<u32>, name: u32, token: u32, is_linked: bool) -> Result<(), AllocError>
    ensures { OnOk result (HasLinked is_linked name token linked.old linked.new) }
{
    match is_linked {
        true => link_first(linked, name, token),
        false => Ok(()),
    }
}

#[tactic(auto, using(crate::proofs::Followed::link_kept, crate::proofs::Followed::link_put))]
fn link_first(linked: &mut Table<u32>, name: u32, token: u32) -> Result<(), AllocError>
    ensures { OnOk result (HasLinked true name token linked.old linked.new) }
{
    match linked.said(name) {
        Some(_) => Ok(()),
        None => linked.put(name, token),
    }
}

fn opens(alloc: Global, state: &mut State) -> Result<(), AllocError>
    ensures scopes { OnOk result (state.new.scopes ≡ blank ∷ state.old.scopes) }
    ensures depth { OnOk result (state.new.depth ≡ state.old.depth + 1) }
    ensures linked { OnOk result (state.new.linked ≡ state.old.linked) }
    ensures members { OnOk result (state.new.members ≡ state.old.members) }
    ensures told { OnOk result (state.new.told ≡ state.old.told) }
{
    state.depth = state.depth.checked_add(1).ok_or(AllocError)?;
    open_scope(alloc, &mut state.scopes)
}

fn closes(state: &mut State)
    ensures scopes { state.new.scopes ≡ drop 1 state.old.scopes }
    ensures depth { state.new.depth ≡ state.old.depth - 1 }
    ensures linked { state.new.linked ≡ state.old.linked }
    ensures members { state.new.members ≡ state.old.members }
    ensures told { state.new.told ≡ state.old.told }
{
    state.depth = state.depth.saturating_sub(1);
    close_scope(&mut state.scopes);
}

#[tactic(auto, using(crate::proofs::Followed::told_count))]
fn named(
    alloc: Global,
    state: &mut State,
    name: u32,
    token: u32,
    role: Role,
) -> Result<Option<NameFault>, AllocError>
    ensures fault { IfOk result (λ fault. fault ≡ named_fault name token role state.old) }
    ensures count { OnOk result (length state.new.told.items ≡ length state.old.told.items) }
    ensures named { OnOk result (HasNamed name token role state.old state.new) }
{
    let outermost = state.depth == 0;
    let wrong = is_wrong(&state.scopes, outermost, role, name);
    let declares = declares(&state.scopes, role, name);
    let found = begun(&state.linked, name, token, role, outermost);
    note(alloc, &mut state.scopes, name, found)?;
    link(&mut state.linked, name, token, links(outermost, role))?;
    let seen = find(&state.scopes, space_of(role), name).seen;
    tell(&mut state.told, token, told_if(declares, role, seen));
    Ok(fault_where(wrong, role, token))
}

/// Follows an event, and answers its fault. The error is want of memory.
#[tactic(auto, using(crate::proofs::Followed::opened, crate::proofs::Followed::closed, crate::proofs::Followed::went_on, crate::proofs::Followed::member_noted, crate::proofs::Followed::name_noted, crate::proofs::Followed::member_fault, crate::proofs::Followed::name_fault))]
pub fn follow(
    alloc: Global,
    state: &mut State,
    names: &[u32],
    event: Event,
) -> Result<Option<NameFault>, AllocError>
    ensures fault { (past : List Event) → IfOk result (λ fault. IsState (name_in names.now) past state.old → fault ≡ fault_of (name_in names.now) past event) }
    ensures count { OnOk result (length state.new.told.items ≡ length state.old.told.items) }
    ensures state { (past : List Event) → OnOk result (IsState (name_in names.now) past state.old → IsState (name_in names.now) (event ∷ past) state.new) }
{
    match event {
        Event::Node(_) => Ok(None),
        Event::Opens => {
            opens(alloc, state)?;
            Ok(None)
        }
        Event::Closes => {
            closes(state);
            Ok(None)
        }
        Event::Member(token, structure) => {
            let name = name_at(names, token);
            let first = first_member(&mut state.members, structure, name, token)?;
            Ok(twice_where(is_other(token, first), token))
        }
        Event::Name(token, role) => {
            let fault = named(alloc, state, name_at(names, token), token, role)?;
            Ok(fault)
        }
    }
}

fn twice_where(again: bool, token: u32) -> Option<NameFault>
    ensures { result ≡ fault_where again (Twice token) }
{
    match again {
        true => Some(NameFault::Twice(token)),
        false => None,
    }
}
