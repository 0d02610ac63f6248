// What the words ask for.
ghost use Rattle.std.specs.Prelude.{◌≡◌, ◌↔◌, Err, IfOk, IsTrue, List, MatchOption};
ghost use Rattle.cr_main_words.specs.Requests.{Asks, AsksNothing, HasReduction, IsOfFile, IsReplay, Suits};
ghost use Rattle.cr_main_words.specs.Words.{Word, texts_of};
ghost use Rattle.cr_main_words.specs.declared.modes.Modes.{Modes};
ghost use Rattle.cr_main_words.specs.declared.settings.Settings.{Settings};

use crate::command::WordFault;
use crate::flags::rest_of;
use crate::modes::{Engine, Modes, modes_of};
use crate::replay::{ReplaySettings, replay_of};
use crate::settings::{Settings, words};
use crate::source::Source;
use std::alloc::Global;

/// What the words ask for.
#[derive(Debug, Drop)]
pub enum Request {
    /// A reduction with these settings, in these modes.
    Reduction(Settings, Modes),
    /// To look whether a log leads to a file.
    Replay(ReplaySettings),
}

/// Reads the words after the program's name. `most` is the number of workers that there are.
pub fn request_of(alloc: Global, list: &[String], most: u32) -> Result<Request, WordFault>
    ensures request { IfOk result (Asks (texts_of list.now) most) }
    ensures usage { result ≡ Err WordFault.Usage → AsksNothing (texts_of list.now) most }
{
    match others_of(list) {
        Some(others) => Ok(Request::Replay(replay_of(alloc, others)?)),
        None => reduction_of(alloc, list, most),
    }
}

// The words after a first word --replay.
fn others_of(list: &[String]) -> Option<&[String]>
    ensures { MatchOption result ((others : List Word) → IsReplay (texts_of list.now) others → ⊥) (λ others. IsReplay (texts_of list.now) (texts_of others.now)) }
{
    let (first, others) = list.split_first()?;
    if first.as_str() == "--replay" {
        Some(others)
    } else {
        None
    }
}

fn reduction_of(alloc: Global, list: &[String], most: u32) -> Result<Request, WordFault>
    ensures request { IfOk result (Asks (texts_of list.now) most) }
    ensures usage { result ≡ Err WordFault.Usage → (settings : Settings) (modes : Modes) → HasReduction (texts_of list.now) most settings modes → ⊥ }
{
    let modes = modes_of(alloc, list)?;
    let Ok(rest) = rest_of(alloc, list) else {
        return Err(WordFault::NoMemory);
    };
    let settings = words(alloc, rest.as_slice(), most)?;
    if !suits(modes.engine, &settings.source) {
        return Err(WordFault::Usage);
    }
    Ok(Request::Reduction(settings, modes))
}

// Whether an engine can reduce what comes from there.
fn suits(engine: Engine, source: &Source) -> bool
    ensures { IsTrue result ↔ Suits engine source.now }
{
    match engine {
        Engine::Journal | Engine::Resume => is_named(source),
        Engine::Plain | Engine::Standing => true,
    }
}

fn is_named(source: &Source) -> bool
    ensures { IsTrue result ↔ IsOfFile source.now }
{
    match source {
        Source::Named(_) => true,
        Source::Made(_, _) => false,
    }
}
