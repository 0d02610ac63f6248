ghost use Rattle.std.specs.Prelude.{◌≡◌, ◌++◌, OnOk, fold};
ghost use Rattle.std.specs.List.{flat_map};
ghost use Rattle.cr_scopes_events.specs.declared.naming.Storage.TheVariants.{NoWord};
ghost use Rattle.cr_scopes_events.specs.Scripts.{with_word, storage_of, role_by, event_by, named, declarator_in, declares, initialised, declaration_in, kind_at};

use crate::declarator::{Declarator, Derivation, declared_by};
use crate::event::{Event, Role, Step};
use crate::steps::{behind, first, goes_inside, happens, inside};
use cr_syntax::{Kind, Node, kind_at, parts_at};
use std::alloc::AllocError;

/// What the specifiers of a declaration say of its names.
#[derive(Clone, Copy)]
pub enum Storage {
    TypedefWord,
    ExternWord,
    NoWord,
}

/// What the names of some declarators are declared as.
#[derive(Clone, Copy)]
pub enum Naming {
    Parameters,
    /// members of the structure with the content of this node
    Members(u32),
    Declared(Storage),
}

/// What the specifiers that a declaration begins with say.
pub fn storage_of(nodes: &[Node], parts: &[u32]) -> Storage
    ensures { result ≡ storage_of nodes.now parts.now }
{
    match parts {
        [] => Storage::NoWord,
        [specifiers, ..] => match kind_at(nodes, *specifiers as usize) {
            Some(Kind::Specifiers) => with_words(nodes, parts_at(nodes, *specifiers as usize)),
            other => with_word(Storage::NoWord, other),
        },
    }
}

fn with_words(nodes: &[Node], words: &[u32]) -> Storage
    ensures { result ≡ fold (λ storage word. with_word storage (kind_at nodes.now word)) NoWord words.now }
{
    let mut storage = Storage::NoWord;
    for word in words {
        storage = with_word(storage, kind_at(nodes, *word as usize));
    }
    storage
}

fn with_word(storage: Storage, word: Option<Kind>) -> Storage
    ensures { result ≡ with_word storage word }
{
    match storage {
        Storage::TypedefWord => Storage::TypedefWord,
        storage => match word {
            Some(Kind::Typedef) => Storage::TypedefWord,
            Some(Kind::Extern) => Storage::ExternWord,
            _ => storage,
        },
    }
}

fn role_by(storage: Storage, next: Derivation) -> Role
    ensures { result ≡ role_by storage next }
{
    match storage {
        Storage::TypedefWord => Role::Typedef,
        storage => match next {
            Derivation::Function(_) => Role::Function,
            _ => match storage {
                Storage::ExternWord => Role::ExternObject,
                _ => Role::Object,
            },
        },
    }
}

fn event_by(naming: Naming, next: Derivation, name: u32) -> Event
    ensures { result ≡ event_by naming next name }
{
    match naming {
        Naming::Parameters => Event::Name(name, Role::Parameter),
        Naming::Members(structure) => Event::Member(name, structure),
        Naming::Declared(storage) => Event::Name(name, role_by(storage, next)),
    }
}

fn push_name(
    steps: &mut Vec<Step>,
    naming: Naming,
    declarator: Declarator,
) -> Result<(), AllocError>
    ensures { OnOk result (steps.new.items ≡ steps.old.items ++ named naming declarator) }
{
    match declarator.name {
        Some(name) => happens(steps, event_by(naming, declarator.next, name)),
        None => Ok(()),
    }
}

// A declarator, and its name behind it.
fn declarator_in(
    steps: &mut Vec<Step>,
    naming: Naming,
    nodes: &[Node],
    part: u32,
) -> Result<(), AllocError>
    ensures { OnOk result (steps.new.items ≡ steps.old.items ++ declarator_in naming nodes.now part) }
{
    goes_inside(steps, part)?;
    push_name(steps, naming, declared_by(nodes, part))
}

fn declarators_in(
    steps: &mut Vec<Step>,
    naming: Naming,
    nodes: &[Node],
    parts: &[u32],
) -> Result<(), AllocError>
    ensures { OnOk result (steps.new.items ≡ steps.old.items ++ flat_map (declarator_in naming nodes.now) parts.now) }
{
    for part in parts {
        declarator_in(steps, naming, nodes, *part)?;
    }
    Ok(())
}

fn declares(
    steps: &mut Vec<Step>,
    naming: Naming,
    nodes: &[Node],
    part: u32,
) -> Result<(), AllocError>
    ensures { OnOk result (steps.new.items ≡ steps.old.items ++ declares naming nodes.now part (kind_at nodes.now part)) }
{
    match kind_at(nodes, part as usize) {
        Some(Kind::InitDeclarator) => initialised(
            steps,
            naming,
            nodes,
            parts_at(nodes, part as usize),
        ),
        _ => declarator_in(steps, naming, nodes, part),
    }
}

fn initialised(
    steps: &mut Vec<Step>,
    naming: Naming,
    nodes: &[Node],
    parts: &[u32],
) -> Result<(), AllocError>
    ensures { OnOk result (steps.new.items ≡ steps.old.items ++ initialised naming nodes.now parts.now) }
{
    declarators_in(steps, naming, nodes, first(parts, 1))?;
    inside(steps, behind(parts, 1))
}

fn all_declare(
    steps: &mut Vec<Step>,
    naming: Naming,
    nodes: &[Node],
    parts: &[u32],
) -> Result<(), AllocError>
    ensures { OnOk result (steps.new.items ≡ steps.old.items ++ flat_map (λ part. declares naming nodes.now part (kind_at nodes.now part)) parts.now) }
{
    for part in parts {
        declares(steps, naming, nodes, *part)?;
    }
    Ok(())
}

/// The steps of specifiers and declarators.
pub fn declaration_in(
    steps: &mut Vec<Step>,
    naming: Naming,
    nodes: &[Node],
    parts: &[u32],
) -> Result<(), AllocError>
    ensures { OnOk result (steps.new.items ≡ steps.old.items ++ declaration_in naming nodes.now parts.now) }
{
    inside(steps, first(parts, 1))?;
    all_declare(steps, naming, nodes, behind(parts, 1))
}
