// The words, split by clap into options and positional words.
ghost use Rattle.std.specs.Prelude.{◌≡◌, ◌≢◌, ◌∷◌, [], List, IfOk, Err, codes, false, map};
ghost use Rattle.clap.specs.Words.{app_of, found_of, rows_of, rule_of};
ghost use Rattle.clap.specs.Simple.{with_rule};
ghost use Rattle.clap.specs.declared.error.kind.ErrorKind.TheVariants.{OutOfMemory};
ghost use Rattle.cr_main_words.specs.Words.{Said, Tells, option_names, texts_of};
ghost use Rattle.cr_main_words.specs.Splitting.{Found, app_of_names, option_rule, place_rule};

use clap::error::ErrorKind;
use clap::{Arg, ArgAction, ArgMatches, Command};
use std::alloc::{AllocError, Global};

/// Why the words give no settings.
#[derive(Clone, Copy, Debug, PartialEq, Eq)]
pub enum WordFault {
    NoMemory,
    /// They are not of the form that the usage line shows.
    Usage,
}

/// The id of the positional words, which is the name of no option.
pub const PLACE: &str = "WORD";

fn option<'a>(alloc: Global, name: &'a str) -> Arg<'a>
    ensures rule { rule_of result ≡ option_rule name.entry.now }
    ensures local { result.global ≡ false }
{
    Arg::new(alloc, name).long(name).action(ArgAction::Append)
}

fn places<'a>(alloc: Global) -> Arg<'a>
    ensures rule { rule_of result ≡ place_rule }
    ensures local { result.global ≡ false }
{
    Arg::new(alloc, PLACE).action(ArgAction::Append)
}

fn bare<'a>(alloc: Global) -> Command<'a>
    ensures { app_of result ≡ app_of_names [] }
{
    Command::new(alloc, "creduce")
        .no_binary_name(true)
        .disable_help_flag(true)
        .disable_version_flag(true)
}

// The command with these options and any number of positional words, each of which may come again.
fn command<'a>(alloc: Global, names: &[&'a str]) -> Result<Command<'a>, AllocError>
    ensures { IfOk result (λ c. app_of c ≡ with_rule (app_of_names (map (λ n. n.now) names.now)) place_rule) }
{
    let mut command = bare(alloc);
    for name in names {
        command = command.arg(option(alloc, name))?;
    }
    command.arg(places(alloc))
}

/// Splits the words. A word that begins with `-` in no known form, or an option without a value, is `Usage`.
pub fn parse<'a>(alloc: Global, list: &'a [String]) -> Result<ArgMatches<'a>, WordFault>
    ensures found { IfOk result (λ m. Found (texts_of list.entry.now) (rows_of (found_of m))) }
    ensures usage { result ≡ Err WordFault.Usage → (said : List Said) → Tells option_names (texts_of list.entry.now) said → ⊥ }
{
    let Ok(command) = command(alloc, &["workers", "window", "limit", "steps", "passes"]) else {
        return Err(WordFault::NoMemory);
    };
    match command.try_get_matches_from(list) {
        Ok(matches) => Ok(matches),
        Err(error) => Err(fault_of_kind(error.kind())),
    }
}

fn fault_of_kind(kind: ErrorKind) -> WordFault
    ensures { result ≡ WordFault.Usage → kind ≢ OutOfMemory }
{
    if kind == ErrorKind::OutOfMemory {
        WordFault::NoMemory
    } else {
        WordFault::Usage
    }
}
