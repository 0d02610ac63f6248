// The texts of a reduction's end.
ghost use Rattle.std.specs.Prelude.{◌≡◌, ◌≢◌, ◌≤◌, ◌∷◌, [], ◌++◌, IfOk, OnOk, All, ◌<◌};
ghost use Rattle.std.specs.String.{string_bytes};
ghost use Rattle.cr_reduce.specs.declared.end.Why.{Why};
ghost use Rattle.cr_log.specs.Forms.{IsLog, IsLoggable};
ghost use Rattle.cr_log.specs.Texts.{accepted_line, letter_of, line_text, log_text_of, summary_text_of, why_number, why_word};
ghost use Rattle.cr_cursor.specs.Variants.{pass_count};

use cr_cursor::Cursor;
use cr_outside::NoMemory;
use cr_reduce::{Accepted, End, Why};
use std::alloc::Global;

/// The log of a reduction: a line for each accepted variant, in order, and a last line on the end. `size` is the size of
/// the end's file.
pub fn log_text(alloc: Global, end: &End, size: u64) -> Result<Vec<u8>, NoMemory>
    requires passes { All (λ one. one.at.pass < pass_count) end.now.accepted.items }
    requires ended { end.now.why ≢ Why.NoMemory }
    ensures text { IfOk result (λ text. text.items ≡ log_text_of end.now size) }

    // So `read_log` gives back what was accepted and how it ended.
    ensures log { IfOk result (λ text. IsLog text.items end.now.accepted.items (why_number end.now.why) size end.now.turns) }
{
    let mut text = String::new(alloc);
    for one in &end.accepted {
        push_accepted(&mut text, one)?;
    }
    let why = word(end.why);
    let turns = end.turns;
    write!(text, "end {why} {size} {turns}\n")?;
    Ok(text.into_bytes())
}

/// The line that sums a reduction up. `old` is the size of the file that it began with, `new` that of the end's file.
pub fn summary_text(
    alloc: Global,
    name: &str,
    old: u64,
    new: u64,
    end: &End,
) -> Result<Vec<u8>, NoMemory>
    requires ended { end.now.why ≢ Why.NoMemory }
    ensures { IfOk result (λ text. text.items ≡ summary_text_of name.now old new end.now) }
{
    let count = end.accepted.len();
    let why = word(end.why);
    let mut text = String::new(alloc);
    write!(text, "{name} size {old} to {new} ")?;
    write!(text, "accepted {count} turns {} {why}\n", end.turns)?;
    Ok(text.into_bytes())
}

fn push_accepted(text: &mut String, one: &Accepted) -> Result<(), NoMemory>
    requires { one.now.at.pass < pass_count }
    ensures text { OnOk result (string_bytes text.new ≡ string_bytes text.old ++ line_text (accepted_line one.now)) }
    ensures loggable { IsLoggable one.now }
{
    let Accepted {
        at: Cursor { pass, level, index },
        size,
        turn,
    } = *one;
    let letter = letter(pass);
    write!(text, "{letter} {level} {index} {size} {turn}\n")?;
    Ok(())
}

// The letter of a pass.
fn letter(pass: u8) -> &'static str
    requires { pass < pass_count }
    ensures { result.now ≡ letter_of pass ∷ [] }
{
    match pass {
        0 => "l",
        1 => "t",
        2 => "b",
        3 => "u",
        4 => "s",
        5 => "c",
        6 => "i",
        7 => "p",
        8 => "r",
        9 => "f",
        10 => "v",
        11 => "o",
        _ => unreachable!(),
    }
}

fn word(why: Why) -> &'static str
    requires { why ≢ Why.NoMemory }
    ensures { result.now ≡ why_word (why_number why) }
{
    match why {
        Why::Fixed => "fixed",
        Why::Limit => "limit",
        Why::Fault(_, _) => "fault",
        Why::NoMemory => unreachable!(),
    }
}
