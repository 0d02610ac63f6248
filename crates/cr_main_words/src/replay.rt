// What a replay is asked for with.
ghost use Rattle.std.specs.Prelude.{◌≡◌, ◌↔◌, [], Err, IfOk, IsTrue, String, codes};
ghost use Rattle.std.specs.Global.{Global};
ghost use Rattle.clap.specs.Walk.{texts};
ghost use Rattle.clap.specs.Words.{found_of, rows_of};
ghost use Rattle.cr_main_words.specs.Names.{IsSource};
ghost use Rattle.cr_main_words.specs.Parts.{GivesNames};
ghost use Rattle.cr_main_words.specs.Requests.{GivesReplay, HasReplay};
ghost use Rattle.cr_main_words.specs.Splitting.{place_id, values_at};
ghost use Rattle.cr_main_words.specs.Words.{texts_of};
ghost use Rattle.cr_main_words.specs.declared.replay.Names.{Names};
ghost use Rattle.cr_main_words.specs.declared.replay.ReplaySettings.{ReplaySettings};

use crate::command::{PLACE, WordFault, parse};
use crate::letters::enabled_at;
use crate::numbers::count_at;
use crate::source::{Source, source_of};
use clap::ArgMatches;
use std::alloc::Global;

/// What is replayed, and how.
#[derive(Debug, Drop)]
pub struct ReplaySettings {
    /// The most steps of a program's run, 1 to 100,000,000.
    pub steps: u64,
    /// The passes l t b u s c i p r f v o, in this order.
    pub enabled: [bool; 12],
    /// The name of the log.
    pub log: String,
    /// The name of the file to which the log is to lead.
    pub file: String,
}

/// Reads the words after `--replay`.
pub fn replay_of(alloc: Global, list: &[String]) -> Result<ReplaySettings, WordFault>
    ensures settings { IfOk result (HasReplay (texts_of list.now)) }
    ensures usage { result ≡ Err WordFault.Usage → (settings : ReplaySettings) → HasReplay (texts_of list.now) settings → ⊥ }
{
    let matches = parse(alloc, list)?;
    replay_in(alloc, &matches)
}

fn replay_in(alloc: Global, matches: &ArgMatches<'_>) -> Result<ReplaySettings, WordFault>
    ensures settings { IfOk result (GivesReplay (λ name. values_at name (rows_of (found_of matches.now))) (values_at place_id (rows_of (found_of matches.now)))) }
    ensures usage { result ≡ Err WordFault.Usage → (settings : ReplaySettings)
        → GivesReplay (λ name. values_at name (rows_of (found_of matches.now))) (values_at place_id (rows_of (found_of matches.now))) settings → ⊥ }
{
    if !has_only_replay_options(matches) {
        return Err(WordFault::Usage);
    }
    let steps = count_at(matches, "steps", 100_000_000, 1_000_000)?;
    let enabled = enabled_at(matches, "passes")?;
    let Names { log, file } = names_at(alloc, matches)?;
    Ok(ReplaySettings {
        steps: u64::from(steps),
        enabled,
        log,
        file,
    })
}

fn has_only_replay_options(matches: &ArgMatches<'_>) -> bool
    ensures { IsTrue result ↔ ((values_at (codes "workers") (rows_of (found_of matches.now)) ≡ [])
        × (values_at (codes "window") (rows_of (found_of matches.now)) ≡ [])
        × (values_at (codes "limit") (rows_of (found_of matches.now)) ≡ [])) }
{
    is_absent(matches, "workers") && is_absent(matches, "window") && is_absent(matches, "limit")
}

fn is_absent(matches: &ArgMatches<'_>, name: &str) -> bool
    ensures { IsTrue result ↔ (values_at name.now (rows_of (found_of matches.now)) ≡ []) }
{
    match matches.get_raw(name) {
        Some(values) => values.is_empty(),
        None => true,
    }
}

/// The names of the log and the file.
#[derive(Drop)]
pub struct Names {
    pub log: String,
    pub file: String,
}

fn names_at(alloc: Global, matches: &ArgMatches<'_>) -> Result<Names, WordFault>
    ensures names { IfOk result (GivesNames (values_at place_id (rows_of (found_of matches.now)))) }
    ensures usage { result ≡ Err WordFault.Usage → (names : Names) → GivesNames (values_at place_id (rows_of (found_of matches.now))) names → ⊥ }
{
    match matches.get_raw(PLACE) {
        Some(places) => names_in(alloc, places),
        None => Err(WordFault::Usage),
    }
}

fn names_in(alloc: Global, places: &[&str]) -> Result<Names, WordFault>
    ensures names { IfOk result (GivesNames (texts places.now)) }
    ensures usage { result ≡ Err WordFault.Usage → (names : Names) → GivesNames (texts places.now) names → ⊥ }
{
    if places.len() != 2 {
        return Err(WordFault::Usage);
    }
    let log = name_of(alloc, places[0])?;
    let file = name_of(alloc, places[1])?;
    Ok(Names { log, file })
}

fn name_of(alloc: Global, word: &str) -> Result<String, WordFault>
    ensures name { IfOk result (λ name. IsSource word.now (Source.Named name)) }
    ensures usage { result ≡ Err WordFault.Usage → (name : String Global) → IsSource word.now (Source.Named name) → ⊥ }
{
    match source_of(alloc, word)? {
        Source::Named(name) => Ok(name),
        Source::Made(_, _) => Err(WordFault::Usage),
    }
}
