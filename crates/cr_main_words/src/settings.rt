// The command line.
ghost use Rattle.std.specs.Prelude.{◌≡◌, Err, IfOk, List, Option, ℕ, Ok, min};
ghost use Rattle.clap.specs.Walk.{Row, texts};
ghost use Rattle.clap.specs.Words.{found_of, rows_of};
ghost use Rattle.cr_outside.specs.Test.{ReadsTest};
ghost use Rattle.cr_outside.specs.declared.test.Test.{Test};
ghost use Rattle.cr_main_words.specs.Giving.{GivesSettings, HasNone, HasSettings};
ghost use Rattle.cr_main_words.specs.Splitting.{place_id, values_at};
ghost use Rattle.cr_main_words.specs.Words.{texts_of};
ghost use Rattle.cr_main_words.specs.Parts.{GivesAsked, GivesCounts};
ghost use Rattle.cr_main_words.specs.declared.settings.Asked.{Asked};
ghost use Rattle.cr_main_words.specs.declared.settings.Counts.{Counts};
ghost use Rattle.cr_main_words.specs.declared.settings.Settings.{Settings};

use crate::command::{PLACE, WordFault, parse};
use crate::letters::enabled_at;
use crate::numbers::{count_at, number_at};
use crate::source::{Source, source_of};
use clap::ArgMatches;
use cr_outside::{Test, TestFault};
use std::alloc::Global;

/// What the words ask for.
#[derive(Debug, Drop)]
pub struct Settings {
    /// 1 to 32, and at most those that there are.
    pub workers: u32,
    /// How many positions are looked at in one go, 1 to 4,096.
    pub window: u32,
    /// The most turns.
    pub limit: Option<u64>,
    /// The most steps of a program's run, 1 to 100,000,000.
    pub steps: u64,
    /// The passes l t b u s c i p r f v o, in this order.
    pub enabled: [bool; 12],
    pub test: Test,
    pub source: Source,
}

/// The most turns that a limit may ask for.
const MOST_TURNS: u64 = 9_223_372_036_854_775_807;

/// Reads the words after the program's name. `most` is the number of workers that there are.
pub fn words(alloc: Global, list: &[String], most: u32) -> Result<Settings, WordFault>
    ensures settings { IfOk result (HasSettings (texts_of list.now) most) }
    ensures usage { result ≡ Err WordFault.Usage → HasNone (texts_of list.now) most }
{
    let matches = parse(alloc, list)?;
    settings_of(alloc, &matches, most)
}

fn settings_of(alloc: Global, matches: &ArgMatches<'_>, most: u32) -> Result<Settings, WordFault>
    ensures settings { IfOk result (GivesSettings (λ name. values_at name (rows_of (found_of matches.now))) (values_at place_id (rows_of (found_of matches.now))) most) }
    ensures usage { result ≡ Err WordFault.Usage → (settings : Settings)
        → GivesSettings (λ name. values_at name (rows_of (found_of matches.now))) (values_at place_id (rows_of (found_of matches.now))) most settings → ⊥ }
{
    let counts = counts_of(matches, most)?;
    let enabled = enabled_at(matches, "passes")?;
    let Asked { test, source } = asked_at(alloc, matches)?;
    Ok(Settings {
        workers: counts.workers,
        window: counts.window,
        limit: counts.limit,
        steps: counts.steps,
        enabled,
        test,
        source,
    })
}

/// The numbers of the settings.
#[derive(Clone, Copy)]
pub struct Counts {
    pub workers: u32,
    pub window: u32,
    pub limit: Option<u64>,
    pub steps: u64,
}

fn counts_of(matches: &ArgMatches<'_>, most: u32) -> Result<Counts, WordFault>
    ensures counts { IfOk result (GivesCounts (λ name. values_at name (rows_of (found_of matches.now))) most) }
    ensures usage { result ≡ Err WordFault.Usage → (counts : Counts)
        → GivesCounts (λ name. values_at name (rows_of (found_of matches.now))) most counts → ⊥ }
{
    let workers = count_at(matches, "workers", lesser(32, most), lesser(4, most))?;
    let window = count_at(matches, "window", 4096, 256)?;
    let limit = number_at(matches, "limit", 0, MOST_TURNS)?;
    let steps = count_at(matches, "steps", 100_000_000, 1_000_000)?;
    Ok(Counts {
        workers,
        window,
        limit,
        steps: u64::from(steps),
    })
}

fn lesser(a: u32, b: u32) -> u32
    ensures { result ≡ min a b }
{
    if a <= b { a } else { b }
}

/// The test and the file.
#[derive(Drop)]
pub struct Asked {
    pub test: Test,
    pub source: Source,
}

fn asked_at(alloc: Global, matches: &ArgMatches<'_>) -> Result<Asked, WordFault>
    ensures asked { IfOk result (GivesAsked (values_at place_id (rows_of (found_of matches.now)))) }
    ensures usage { result ≡ Err WordFault.Usage → (asked : Asked) → GivesAsked (values_at place_id (rows_of (found_of matches.now))) asked → ⊥ }
{
    match matches.get_raw(PLACE) {
        Some(places) => asked_in(alloc, places),
        None => Err(WordFault::Usage),
    }
}

fn asked_in(alloc: Global, places: &[&str]) -> Result<Asked, WordFault>
    ensures asked { IfOk result (GivesAsked (texts places.now)) }
    ensures usage { result ≡ Err WordFault.Usage → (asked : Asked) → GivesAsked (texts places.now) asked → ⊥ }
{
    if places.len() != 2 {
        return Err(WordFault::Usage);
    }
    let test = test_of(alloc, places[0])?;
    let source = source_of(alloc, places[1])?;
    Ok(Asked { test, source })
}

fn test_of(alloc: Global, word: &str) -> Result<Test, WordFault>
    ensures test { IfOk result (λ test. ReadsTest word.now (Ok test)) }
    ensures usage { result ≡ Err WordFault.Usage → (test : Test) → ReadsTest word.now (Ok test) → ⊥ }
{
    match Test::read(alloc, word) {
        Ok(test) => Ok(test),
        Err(TestFault::NoMemory) => Err(WordFault::NoMemory),
        Err(TestFault::Empty | TestFault::BadText) => Err(WordFault::Usage),
    }
}
