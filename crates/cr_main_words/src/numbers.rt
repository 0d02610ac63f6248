// The numbers of the command line.
ghost use Rattle.std.specs.Prelude.{◌≡◌, ◌≤◌, ◌<◌, ◌⊎◌, ◌↔◌, Err, IfOk, IsTrue, List, MatchOption, Option, ℕ};
ghost use Rattle.clap.specs.Walk.{texts};
ghost use Rattle.clap.specs.Words.{found_of, rows_of};
ghost use Rattle.cr_main_words.specs.Numbers.{IsNumber, IsNumberOr, IsOptional};
ghost use Rattle.cr_main_words.specs.Splitting.{values_at};
ghost use Rattle.cr_main_words.specs.Words.{BeginsWith};

use crate::command::WordFault;
use clap::ArgMatches;

/// A number has at most so many digits.
const MOST_DIGITS: usize = 19;

/// The number that an option of this name has for its value, where it comes once at most.
pub fn number_at(
    matches: &ArgMatches<'_>,
    name: &str,
    least: u64,
    most: u64,
) -> Result<Option<u64>, WordFault>
    ensures number { IfOk result (IsOptional least most (values_at name.now (rows_of (found_of matches.now)))) }
    ensures usage { result ≡ Err WordFault.Usage → (given : Option ℕ) → IsOptional least most (values_at name.now (rows_of (found_of matches.now))) given → ⊥ }
{
    match matches.get_raw(name) {
        Some(values) => number_in(values, least, most),
        None => Ok(None),
    }
}

/// The same from 1 on, and what stands without the option.
pub fn count_at(
    matches: &ArgMatches<'_>,
    name: &str,
    most: u32,
    without: u32,
) -> Result<u32, WordFault>
    ensures count { IfOk result (IsNumberOr without 1 most (values_at name.now (rows_of (found_of matches.now)))) }
    ensures usage { result ≡ Err WordFault.Usage → (n : ℕ) → IsNumberOr without 1 most (values_at name.now (rows_of (found_of matches.now))) n → ⊥ }
{
    match number_at(matches, name, 1, u64::from(most))? {
        Some(n) => Ok(n as u32),
        None => Ok(without),
    }
}

fn number_in(values: &[&str], least: u64, most: u64) -> Result<Option<u64>, WordFault>
    ensures number { IfOk result (IsOptional least most (texts values.now)) }
    ensures usage { result ≡ Err WordFault.Usage → (given : Option ℕ) → IsOptional least most (texts values.now) given → ⊥ }
{
    if values.is_empty() {
        return Ok(None);
    }
    if values.len() > 1 {
        return Err(WordFault::Usage);
    }
    match number_of(values[0], least, most) {
        Some(number) => Ok(Some(number)),
        None => Err(WordFault::Usage),
    }
}

/// The number that a word of digits writes, where it is within the bounds.
pub fn number_of(word: &str, least: u64, most: u64) -> Option<u64>
    ensures { MatchOption result ((n : ℕ) → IsNumber least most word.now n → ⊥) (IsNumber least most word.now) }
{
    // A plus stands for no digit, though `parse` would take it.
    if word.len() > MOST_DIGITS || begins_with(word.as_bytes(), b'+') {
        return None;
    }
    match word.parse::<u64>() {
        Ok(n) => within(n, least, most),
        Err(_) => None,
    }
}

fn within(n: u64, least: u64, most: u64) -> Option<u64>
    ensures { MatchOption result ((n < least) ⊎ (most < n)) (λ same. (same ≡ n) × (least ≤ n) × (n ≤ most)) }
{
    if n < least || n > most { None } else { Some(n) }
}

/// Whether a word begins with this byte.
fn begins_with(word: &[u8], byte: u8) -> bool
    ensures { IsTrue result ↔ BeginsWith word.now byte }
{
    !word.is_empty() && word[0] == byte
}
