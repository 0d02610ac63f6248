// What the law rules, in words.
ghost use Rattle.cr_syntax.specs.Words.{AreSpans};
ghost use Rattle.cr_typed.specs.Typed.{IsTyped};

use crate::texts::unit_of;
use cr_check::check;
use cr_cursor::{Law, Never, Reason, Ruling};
use cr_exec_outcome::outcome;
use cr_lawful::CLaw;
use cr_meaning::{Limits, Run};
use cr_scopes::resolve;
use cr_syntax::Unit;
use cr_typed::Typed;
use cr_typed_unit::typed;
use std::alloc::{AllocError, Global};
use std::test::Fail;

// The limits of the law that a run of `creduce` has without options.
pub(crate) fn most() -> Limits {
    CLaw::with_steps(1_000_000, None).limits
}

fn law_within(limits: Limits) -> CLaw<'static> {
    CLaw {
        limits,
        last: None,
        runs: None,
    }
}

// What is ruled on a file by these limits: `lawful`, or the word, the number and the line of the reason.
pub(crate) fn ruled(alloc: Global, file: &[u8], limits: Limits) -> Result<String, AllocError> {
    ruled_by(alloc, file, &law_within(limits))
}

// What this law rules on it, in the same words.
pub(crate) fn ruled_by<L: Law>(alloc: Global, file: &[u8], law: &L) -> Result<String, AllocError> {
    match law.rule(alloc, file, &mut Never { looks: 0 }) {
        Ruling::Lawful => String::from_str(alloc, "lawful"),
        Ruling::Unlawful(reason) => reason_shown(alloc, reason),
        Ruling::Stopped => String::from_str(alloc, "stopped"),
        Ruling::NoMemory => Err(AllocError),
    }
}

fn reason_shown(alloc: Global, reason: Reason) -> Result<String, AllocError> {
    let (word, number, line) = match reason {
        Reason::Token(number, line) => ("token", number, line),
        Reason::Parse(number, line) => ("parse", number, line),
        Reason::Name(number, line) => ("name", number, line),
        Reason::Typing(number, line) => ("type", number, line),
        Reason::Undefined(number, line) => ("undefined", number, line),
        Reason::Left(number, line) => ("left", number, line),
    };
    format!(in alloc; "{word} {number} {line}")
}

// The same, and behind `lawful` the status of the run and what it prints.
pub(crate) fn shown(alloc: Global, text: &str, limits: Limits) -> Result<String, AllocError> {
    shown_by(alloc, text, limits, &law_within(limits))
}

// The same of this law.
fn shown_by<L: Law>(
    alloc: Global,
    text: &str,
    limits: Limits,
    law: &L,
) -> Result<String, AllocError> {
    let ruling = ruled_by(alloc, text.as_bytes(), law)?;
    if ruling.as_str() == "lawful" {
        end_shown(alloc, text, limits)
    } else {
        Ok(ruling)
    }
}

fn end_shown(alloc: Global, text: &str, limits: Limits) -> Result<String, AllocError> {
    match unit_of(alloc, text)? {
        Some(unit) => unit_shown(alloc, text.as_bytes(), unit, limits),
        None => String::from_str(alloc, "no unit"),
    }
}

fn unit_shown(alloc: Global, file: &[u8], unit: Unit, limits: Limits) -> Result<String, AllocError>
    requires { AreSpans file.now unit.tokens.list.items }
{
    match resolve(alloc, file, &unit) {
        Ok(names) => match check(alloc, file, &unit, &names) {
            Ok(judged) => {
                let ready = typed(alloc, file, unit, &names, judged)?;
                run_shown(alloc, &ready, limits)
            }
            Err(_) => String::from_str(alloc, "not typed"),
        },
        Err(_) => String::from_str(alloc, "not resolved"),
    }
}

fn run_shown(alloc: Global, typed: &Typed, limits: Limits) -> Result<String, AllocError>
    requires { IsTyped typed.now }
{
    match outcome(alloc, typed, limits, &mut Never { looks: 0 }) {
        Run::Ended { status, output, .. } => ended_shown(alloc, status, output.as_slice()),
        _ => String::from_str(alloc, "not ended"),
    }
}

fn ended_shown(alloc: Global, status: u8, output: &[u8]) -> Result<String, AllocError> {
    let blank = if output.is_empty() { "" } else { " " };
    let mut shown = format!(in alloc; "lawful {status}{blank}")?;
    for byte in output {
        shown.push(*byte as char)?;
    }
    Ok(shown)
}

// Notes a file that comes to something else. Both texts are as a row shows them.
pub(crate) fn try_file(
    alloc: Global,
    wrong: &mut String,
    wanted: &str,
    text: &str,
) -> Result<(), AllocError> {
    try_by(alloc, wrong, wanted, text, &law_within(most()))
}

fn try_by<L: Law>(
    alloc: Global,
    wrong: &mut String,
    wanted: &str,
    text: &str,
    law: &L,
) -> Result<(), AllocError> {
    let file = plain(alloc, text)?;
    let found = shown_by(alloc, file.as_str(), most(), law)?;
    if found == plain(alloc, wanted)? {
        Ok(())
    } else {
        write!(wrong, "\n{found}: {wanted}¦{text}")
    }
}

// The end of a test that noted what is wrong.
pub(crate) fn none_of(wrong: String) -> Result<(), Fail> {
    if wrong.is_empty() {
        Ok(())
    } else {
        Err(Fail::from(wrong))
    }
}

// Tries a table's rows: a ruling, and behind `¦` the file.
pub(crate) fn expect_all(alloc: Global, table: &str) -> Result<(), Fail> {
    expect_all_by(alloc, table, &law_within(most()))
}

// The same of this law, which has the limits of `most`.
pub(crate) fn expect_all_by<L: Law>(alloc: Global, table: &str, law: &L) -> Result<(), Fail> {
    let mut wrong = String::new(alloc);
    for row in table.lines() {
        if let Some((wanted, text)) = row.split_once('¦') {
            try_by(alloc, &mut wrong, wanted, text, law)?;
        }
    }
    none_of(wrong)
}

// The text that a row shows, its ends of lines as `\n` and its backslashes as `\\`.
pub(crate) fn plain(alloc: Global, text: &str) -> Result<String, AllocError> {
    let mut plain = String::new(alloc);
    let mut escaped = false;
    for c in text.chars() {
        if c == '\\' && !escaped {
            escaped = true;
        } else {
            plain.push(if escaped && c == 'n' { '\n' } else { c })?;
            escaped = false;
        }
    }
    Ok(plain)
}
