// The modes of a reduction, which flags ask for.
ghost use Rattle.std.specs.Prelude.{◌≡◌, ◌∷◌, ◌||◌, ℕ, Bool, Err, IfOk, MatchOption, Option};
ghost use Rattle.std.specs.List.{list_all};
ghost use Rattle.cr_main_words.specs.Flags.{GivesLabel, GivesModes, is_digit, is_identifier, is_journal, is_letter, is_resume, is_standing, label_count, once_if, times};
ghost use Rattle.cr_main_words.specs.Parts.{GivesFlags};
ghost use Rattle.cr_main_words.specs.Words.{Word, texts_of};
ghost use Rattle.cr_main_words.specs.declared.modes.Engine.{Engine};
ghost use Rattle.cr_main_words.specs.declared.modes.Modes.{Modes};

use crate::command::WordFault;
use crate::flags::{first_label, label_count, times};
use cr_rows::Row;
use std::alloc::Global;

/// What makes the reduction, and what it leaves of itself.
#[derive(Clone, Copy, Debug, PartialEq, Eq)]
pub enum Engine {
    /// Threads of its own for each epoch; nothing is kept.
    Plain,
    /// The same, with each accepted variant kept in a journal.
    Journal,
    /// What a journal has kept, and the reduction from there on.
    Resume,
    /// Threads that stand for the whole reduction.
    Standing,
}

/// How a reduction is made, and of what.
#[derive(Debug, Drop)]
pub struct Modes {
    pub engine: Engine,
    /// Only what means the same in any order of evaluation is lawful.
    pub any_order: bool,
    /// Only what reaches this label, and evaluates its statement's own expression whole, is lawful.
    pub reached: Option<Row<u8>>,
}

/// The modes that the flags ask for: none where one stands twice, where two engines are asked for, or where a label is no identifier.
pub fn modes_of(alloc: Global, list: &[String]) -> Result<Modes, WordFault>
    ensures modes { IfOk result (GivesModes (texts_of list.now)) }
    ensures usage { result ≡ Err WordFault.Usage → (modes : Modes) → GivesModes (texts_of list.now) modes → ⊥ }
{
    let Some((engine, any_order)) = flags_of(list) else {
        return Err(WordFault::Usage);
    };
    let reached = reached_of(alloc, list)?;
    Ok(Modes {
        engine,
        any_order,
        reached,
    })
}

// The engine that the flags ask for, and whether for any order.
fn flags_of(list: &[String]) -> Option<(Engine, bool)>
    ensures { MatchOption result ((engine : Engine) (any_order : Bool) → GivesFlags (texts_of list.now) engine any_order → ⊥)
        (λ it. GivesFlags (texts_of list.now) it.0 it.1) }
{
    let journal = stands(list, "--journal")?;
    let resume = stands(list, "--resume")?;
    let standing = stands(list, "--standing")?;
    let any_order = stands(list, "--any-order")?;
    let engine = engine_of(journal, resume, standing)?;
    Some((engine, any_order))
}

// The label that the words ask for, which they may do once.
fn reached_of(alloc: Global, list: &[String]) -> Result<Option<Row<u8>>, WordFault>
    ensures label { IfOk result (GivesLabel (texts_of list.now)) }
    ensures usage { result ≡ Err WordFault.Usage → (label : Option Word) → GivesLabel (texts_of list.now) label → ⊥ }
{
    let count = label_count(list);
    if count == 0 {
        return Ok(None);
    }
    if count == 1 {
        return label_of(alloc, list);
    }
    Err(WordFault::Usage)
}

// The one label that they ask for.
fn label_of(alloc: Global, list: &[String]) -> Result<Option<Row<u8>>, WordFault>
    requires { label_count (texts_of list.now) ≡ 1 }
    ensures label { IfOk result (GivesLabel (texts_of list.now)) }
    ensures usage { result ≡ Err WordFault.Usage → (label : Option Word) → GivesLabel (texts_of list.now) label → ⊥ }
{
    let Some(name) = first_label(list) else {
        return Err(WordFault::Usage);
    };
    if !is_identifier(name) {
        return Err(WordFault::Usage);
    }
    match name.to_vec(alloc) {
        Ok(bytes) => Ok(Some(Row::from_vec(bytes))),
        Err(_) => Err(WordFault::NoMemory),
    }
}

fn is_letter(byte: u8) -> bool
    ensures { result ≡ is_letter byte }
{
    (97 <= byte && byte <= 122) || (65 <= byte && byte <= 90) || byte == 95
}

fn is_inner(byte: u8) -> bool
    ensures { result ≡ (is_letter byte || is_digit byte) }
{
    is_letter(byte) || (48 <= byte && byte <= 57)
}

fn are_inner(bytes: &[u8]) -> bool
    ensures { result ≡ list_all (λ byte. is_letter byte || is_digit byte) bytes.now }
{
    bytes.iter().all(|byte| is_inner(*byte))
}

fn is_spelled(first: u8, more: &[u8]) -> bool
    ensures { result ≡ is_identifier (first ∷ more.now) }
{
    is_letter(first) && are_inner(more)
}

fn is_identifier(name: &[u8]) -> bool
    ensures { result ≡ is_identifier name.now }
{
    match name.split_first() {
        Some((first, more)) => is_spelled(*first, more),
        None => false,
    }
}

// Whether a flag stands, which it may do once.
fn stands(list: &[String], flag: &str) -> Option<bool>
    ensures { MatchOption result ((it : Bool) → times flag.now (texts_of list.now) ≡ once_if it → ⊥) (λ it. times flag.now (texts_of list.now) ≡ once_if it) }
{
    match times(list, flag) {
        0 => Some(false),
        1 => Some(true),
        _ => None,
    }
}

fn engine_of(journal: bool, resume: bool, standing: bool) -> Option<Engine>
    ensures { MatchOption result
        ((engine : Engine) → (journal ≡ is_journal engine) → (resume ≡ is_resume engine) → (standing ≡ is_standing engine) → ⊥)
        (λ engine. (journal ≡ is_journal engine) × (resume ≡ is_resume engine) × (standing ≡ is_standing engine)) }
{
    match (journal, resume, standing) {
        (false, false, false) => Some(Engine::Plain),
        (true, false, false) => Some(Engine::Journal),
        (false, true, false) => Some(Engine::Resume),
        (false, false, true) => Some(Engine::Standing),
        _ => None,
    }
}
