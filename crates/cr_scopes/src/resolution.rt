ghost use Rattle.std.specs.Prelude.{◌≡◌, ◌<◌, ℕ, [], Some, IfOk, IfErr, length, slice_get};
ghost use Rattle.cr_syntax.specs.Words.{AreSpans};
ghost use Rattle.cr_scopes.specs.Resolved.{past_of, fault_at};
ghost use Rattle.cr_scopes.specs.States.{name_in, AreTold, IsState, IsLeast};
ghost use Rattle.cr_scopes.specs.Units.{AreUnitEntities, AreUnitNames, IsUnitFault, IsUnitFirst};

use crate::entities::entities_of;
use crate::fault::NameFault;
use crate::names::Names;
use crate::rules::lesser;
use crate::spelled::names_of;
use crate::state::{State, follow};
use crate::table::Table;
use crate::told::Told;
use cr_scopes_events::{Event, events};
use cr_syntax::Unit;
use std::alloc::{AllocError, Global};
use std::collections::{HashMap, LinkedList};

/// What the names of a unit stand for, whether one is at fault or not, and the first fault.
#[derive(Drop)]
pub struct Resolution {
    pub names: Names,
    pub fault: Option<NameFault>,
}

/// What the names of a unit stand for (C11 6.2.1 to 6.2.3). Unknown is a used ordinary identifier that no declaration in scope
/// declares. Twice is a second declaration in one scope and name space of a name without linkage, two typedefs aside, or a
/// second content of a tag, or a second member of one name. The fault at the least token is answered. Names of members that
/// are used, and labels, are no entities; whether two typedefs of one name agree is for whoever knows their types.
#[tactic(auto, using(crate::proofs::Ended::first_is, crate::proofs::Ended::all_resolved))]
pub fn resolve(alloc: Global, file: &[u8], unit: &Unit) -> Result<Names, NameFault>
    requires { AreSpans file.now unit.now.tokens.list.items }
    ensures resolved { IfOk result (λ names. AreUnitNames file.now unit.now names) }
    ensures fault { IfErr result (λ fault. IsUnitFault file.now unit.now fault) }
{
    let resolution = resolve_whole(alloc, file, unit)?;
    match resolution.fault {
        Some(fault) => Err(fault),
        None => Ok(resolution.names),
    }
}

/// The same, with what the names stand for where one is at fault too: a use that names nothing stands for nothing, and of what a scope
/// declares twice the first declaration stays. The error is want of memory.
#[tactic(auto, using(crate::proofs::Ended::unit_entities, crate::proofs::Ended::unit_first))]
pub fn resolve_whole(alloc: Global, file: &[u8], unit: &Unit) -> Result<Resolution, AllocError>
    requires { AreSpans file.now unit.now.tokens.list.items }
    ensures names { IfOk result (λ resolution. AreUnitEntities file.now unit.now resolution.names) }
    ensures fault { IfOk result (λ resolution. IsUnitFirst file.now unit.now resolution.fault) }
{
    let tokens = unit.tokens.list.as_slice();
    let names = names_of(alloc, file, tokens)?;
    let events = events(alloc, unit)?;
    let followed = follow_all(alloc, &names, &events, tokens.len())?;
    let names = entities_of(alloc, &followed.told)?;
    Ok(Resolution {
        names,
        fault: followed.fault,
    })
}

/// What is known behind all events.
#[derive(Drop)]
struct Followed {
    told: Vec<Option<Told>>,
    fault: Option<NameFault>,
}

#[tactic(auto, using(crate::proofs::Ended::ended_told, crate::proofs::Ended::ended_least))]
fn follow_all(
    alloc: Global,
    names: &Vec<u32>,
    events: &Vec<Event>,
    count: usize,
) -> Result<Followed, AllocError>
    ensures count { IfOk result (λ f. length f.told.items ≡ count) }
    ensures told { IfOk result (λ f. AreTold (name_in names.now.items) (past_of events.now.items (length events.now.items)) f.told.items) }
    ensures fault { IfOk result (λ f. IsLeast (fault_at (name_in names.now.items) events.now.items) (length events.now.items) f.fault) }
{
    let mut state = begin(alloc, count)?;
    let mut fault = None;
    for at in 0..events.len() {
        fault = lesser(
            fault,
            follow(alloc, &mut state, names.as_slice(), event_at(events, at))?,
        );
    }
    Ok(Followed {
        told: state.told,
        fault,
    })
}

fn event_at(events: &Vec<Event>, at: usize) -> Event
    requires { at < length events.now.items }
    ensures { slice_get events.now.items at ≡ Some result }
{
    events[at]
}

#[tactic(auto, using(crate::proofs::Ended::starts))]
fn begin(alloc: Global, count: usize) -> Result<State, AllocError>
    ensures count { IfOk result (λ state. length state.told.items ≡ count) }
    ensures state { IfOk result (λ state. (name : ℕ → ℕ) → IsState name [] state) }
{
    Ok(State {
        scopes: LinkedList::new(alloc),
        depth: 0,
        linked: Table::new(alloc),
        members: HashMap::new(alloc),
        told: vec![in alloc; None; count]?,
    })
}
