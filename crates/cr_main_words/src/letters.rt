// The letters of the passes.
ghost use Rattle.std.specs.Prelude.{◌≡◌, Bool, Err, IfOk, List, ◌∷◌, [], length, ◌<◌, true, ◌&&◌, map, MatchOption};
ghost use Rattle.std.specs.List.{list_all};
ghost use Rattle.clap.specs.Walk.{texts};
ghost use Rattle.clap.specs.Words.{found_of, rows_of};
ghost use Rattle.cr_main_words.specs.Letters.{IsEnabled, IsLetters, are_different, has_letter, pass_letters};
ghost use Rattle.cr_main_words.specs.Splitting.{values_at};

use crate::command::WordFault;
use clap::ArgMatches;

/// The letters of the passes, in the order in which they run.
const LETTERS: &[u8] = b"ltbusciprfvo";

/// The passes that are on without the option: all but v and o.
const PLAIN: [bool; 12] = [
    true, true, true, true, true, true, true, true, true, true, false, false,
];

/// The passes that an option of this name enables, in the order in which they run; without it all but v and o.
pub fn enabled_at(matches: &ArgMatches<'_>, name: &str) -> Result<[bool; 12], WordFault>
    ensures enabled { IfOk result (IsEnabled (values_at name.now (rows_of (found_of matches.now)))) }
    ensures usage { result ≡ Err WordFault.Usage → (enabled : List Bool) → IsEnabled (values_at name.now (rows_of (found_of matches.now))) enabled → ⊥ }
{
    match matches.get_raw(name) {
        Some(values) => enabled_in(values),
        None => Ok(PLAIN),
    }
}

fn enabled_in(values: &[&str]) -> Result<[bool; 12], WordFault>
    ensures enabled { IfOk result (IsEnabled (texts values.now)) }
    ensures usage { result ≡ Err WordFault.Usage → (enabled : List Bool) → IsEnabled (texts values.now) enabled → ⊥ }
{
    if values.is_empty() {
        return Ok(PLAIN);
    }
    if values.len() > 1 {
        return Err(WordFault::Usage);
    }
    match enabled_of(values[0].as_bytes()) {
        Some(enabled) => Ok(enabled),
        None => Err(WordFault::Usage),
    }
}

// The passes that a word of letters enables.
fn enabled_of(word: &[u8]) -> Option<[bool; 12]>
    ensures { MatchOption result ((enabled : List Bool) → IsLetters word.now enabled → ⊥) (IsLetters word.now) }
{
    if word.is_empty() || !are_known(word) || !are_different(word) {
        return None;
    }
    Some(letters_in(word))
}

// For each pass whether its letter stands in a word.
fn letters_in(word: &[u8]) -> [bool; 12]
    ensures { result ≡ map (has_letter word.now) pass_letters }
{
    [
        has(word, b'l'),
        has(word, b't'),
        has(word, b'b'),
        has(word, b'u'),
        has(word, b's'),
        has(word, b'c'),
        has(word, b'i'),
        has(word, b'p'),
        has(word, b'r'),
        has(word, b'f'),
        has(word, b'v'),
        has(word, b'o'),
    ]
}

fn are_known(word: &[u8]) -> bool
    ensures { result ≡ list_all (has_letter pass_letters) word.now }
{
    for letter in word {
        if !has(LETTERS, *letter) {
            return false;
        }
    }
    true
}

fn are_different(word: &[u8]) -> bool
    ensures { result ≡ are_different word.now }
{
    let mut rest = word;
    while !rest.is_empty() {
        if has(&rest[1..], rest[0]) {
            return false;
        }
        rest = &rest[1..];
    }
    true
}

fn has(word: &[u8], letter: u8) -> bool
    ensures { result ≡ has_letter word.now letter }
{
    word.contains(&letter)
}
