// The worked examples of the texts, and texts that are no logs.
ghost use Rattle.std.specs.Prelude.{◌≡◌, ◌≢◌, ◌≤◌, IfOk, All};
ghost use Rattle.cr_reduce.specs.declared.end.Why.{Why};

use crate::rows::{bytes_of, expect, pair, rows};
use cr_cursor::Cursor;
use cr_log::{LogFault, log_text, read_log, summary_text};
use cr_outside::NoMemory;
use cr_reduce::{Accepted, End, Why};
use std::alloc::{AllocError, Global};
use std::process::Abort;
use std::test::Fail;

// An acceptance of a pass.
fn accepted(pass: u8, level: u8, index: u64, size: u64, turn: u64) -> Accepted
    ensures { result ≡ record { at = record { pass = pass; level = level; index = index }; size = size; turn = turn } }
{
    Accepted {
        at: Cursor { pass, level, index },
        size,
        turn,
    }
}

// An end after these acceptances, with an empty file, since the texts don't speak of it.
fn end(alloc: Global, accepted: &[Accepted], turns: u64, why: Why) -> Result<End, NoMemory>
    ensures accepted { IfOk result (λ end. end.accepted.items ≡ accepted.now) }
    ensures why { IfOk result (λ end. end.why ≡ why) }
{
    Ok(End {
        file: Vec::new(alloc),
        accepted: Vec::from_slice(alloc, accepted)?,
        turns,
        why,
    })
}

fn expect_log_text(
    rt: &impl Abort,
    alloc: Global,
    end: &End,
    size: u64,
    wanted: &str,
) -> Result<(), NoMemory>
    requires passes { All (λ one. one.at.pass ≤ 9) end.now.accepted.items }
    requires ended { end.now.why ≢ Why.NoMemory }
{
    let text = log_text(alloc, end, size)?;
    expect(rt, &text, wanted.as_bytes(), wanted);
    Ok(())
}

fn expect_summary(
    rt: &impl Abort,
    alloc: Global,
    end: &End,
    size: u64,
    wanted: &str,
) -> Result<(), NoMemory>
    requires { end.now.why ≢ Why.NoMemory }
{
    let text = summary_text(alloc, "abc.c", 102, size, end)?;
    expect(rt, &text, wanted.as_bytes(), wanted);
    Ok(())
}

// The texts of an end after the three-line file `abc.c` of size 102.
fn expect_texts(
    rt: &impl Abort,
    alloc: Global,
    ended: (&[Accepted], u64, Why),
    size: u64,
    log: &str,
    summary: &str,
) -> Result<(), NoMemory>
    requires passes { All (λ one. one.at.pass ≤ 9) ended.0.now }
    requires ended { ended.2 ≢ Why.NoMemory }
{
    let end = end(alloc, ended.0, ended.1, ended.2)?;
    expect_log_text(rt, alloc, &end, size, log)?;
    expect_summary(rt, alloc, &end, size, summary)
}

// Ends after both acceptances.
fn expect_texts_of_two(rt: &impl Abort, alloc: Global) -> Result<(), NoMemory> {
    let both = [accepted(0, 13, 1, 68, 15), accepted(0, 14, 0, 34, 16)];
    expect_texts(
        rt,
        alloc,
        (&both, 32, Why::Fixed),
        34,
        "l 13 1 68 15\nl 14 0 34 16\nend fixed 34 32\n",
        "abc.c size 102 to 34 accepted 2 turns 32 fixed\n",
    )?;
    expect_texts(
        rt,
        alloc,
        (&both, 31, Why::Limit),
        34,
        "l 13 1 68 15\nl 14 0 34 16\nend limit 34 31\n",
        "abc.c size 102 to 34 accepted 2 turns 31 limit\n",
    )
}

// Ends after the first acceptance, and before it.
fn expect_texts_of_one_and_none(rt: &impl Abort, alloc: Global) -> Result<(), NoMemory> {
    expect_texts(
        rt,
        alloc,
        (&[accepted(0, 13, 1, 68, 15)], 15, Why::Limit),
        68,
        "l 13 1 68 15\nend limit 68 15\n",
        "abc.c size 102 to 68 accepted 1 turns 15 limit\n",
    )?;
    expect_texts(
        rt,
        alloc,
        (&[], 0, Why::Limit),
        102,
        "end limit 102 0\n",
        "abc.c size 102 to 102 accepted 0 turns 0 limit\n",
    )?;
    expect_texts(
        rt,
        alloc,
        (&[], 13, Why::Fault(14, 0)),
        102,
        "end fault 102 13\n",
        "abc.c size 102 to 102 accepted 0 turns 13 fault\n",
    )
}

#[test]
fn the_three_line_file_has_its_log_and_its_summary(rt: HostRuntime) -> Result<(), NoMemory> {
    expect_texts_of_two(&rt, rt.alloc())?;
    expect_texts_of_one_and_none(&rt, rt.alloc())
}

// The log of a reduction that accepted a variant of this pass.
fn log_of(alloc: Global, pass: u8) -> Result<Vec<u8>, NoMemory>
    requires { pass ≤ 9 }
{
    let end = end(alloc, &[accepted(pass, 0, 1, 2, 3)], 4, Why::Fixed)?;
    log_text(alloc, &end, 2)
}

fn expect_letter(rt: &impl Abort, alloc: Global, pass: u8, letter: char) -> Result<(), NoMemory>
    requires { pass ≤ 9 }
{
    let log = log_of(alloc, pass)?;
    let wanted = format!(in alloc; "{letter} 0 1 2 3\nend fixed 2 4\n")?;
    expect(rt, &log, wanted.as_bytes(), &wanted);
    Ok(())
}

#[test]
fn each_pass_has_its_letter(rt: HostRuntime) -> Result<(), NoMemory> {
    for (pass, letter) in "ltbusciprf".chars().enumerate() {
        expect_letter(&rt, rt.alloc(), pass as u8, letter)?;
    }
    Ok(())
}

// A text is this log.
fn expect_log(
    rt: &impl Abort,
    alloc: Global,
    text: &[u8],
    accepted: &[Accepted],
    end: (u8, u64, u64),
) -> Result<(), LogFault> {
    assert!(rt; text.len() <= 100, "the text is too long");
    let log = read_log(alloc, text)?;
    assert!(rt; log.accepted.as_slice() == accepted, "in {text:?}");
    assert!(rt; (log.why, log.size, log.turns) == end, "in {text:?}");
    Ok(())
}

fn log_of_both(alloc: Global, both: &[Accepted]) -> Result<Vec<u8>, NoMemory>
    requires { All (λ one. one.at.pass ≤ 9) both.now }
{
    let end = end(alloc, both, 32, Why::Fixed)?;
    log_text(alloc, &end, 34)
}

#[test]
fn a_log_is_read_back(rt: HostRuntime) -> Result<(), Fail> {
    let both = [accepted(0, 13, 1, 68, 15), accepted(0, 14, 0, 34, 16)];
    let text = log_of_both(rt.alloc(), &both)?;
    Ok(expect_log(&rt, rt.alloc(), &text, &both, (0, 34, 32))?)
}

#[test]
fn these_texts_are_logs(rt: HostRuntime) -> Result<(), LogFault> {
    let alloc = rt.alloc();
    expect_log(&rt, alloc, b"end limit 5 6\n", &[], (1, 5, 6))?;
    expect_log(&rt, alloc, b"end fault 102 13\n", &[], (2, 102, 13))?;
    expect_log(
        &rt,
        alloc,
        b"f 255 18446744073709551615 0 1\nend fixed 0 18446744073709551615\n",
        &[accepted(9, 255, u64::MAX, 0, 1)],
        (0, 0, u64::MAX),
    )
}

// Texts that are no logs, and the first line that isn't in the form.
const NO_LOGS: &str = "
l 13 01 68 15␊¦1
¦1
end fixed 1 2¦1
␊end fixed 1 2␊¦1
l 13 1 68 15␊¦2
l 13 1 68 15␊l 14 0 34 16¦2
l 13 1 68 15␊end fixed 34 32␊␊¦3
end fixed 1 2␊end fixed 1 2␊¦2
l 13 1 68 15␍␊end fixed 34 32␊¦1
a 13 1 68 15␊end fixed 34 32␊¦1
l 256 1 68 15␊end fixed 34 32␊¦1
l 13 18446744073709551616 68 15␊end fixed 34 32␊¦1
l 13 +1 68 15␊end fixed 34 32␊¦1
l 13  1 68 15␊end fixed 34 32␊¦1
l 13 1 68 15 ␊end fixed 34 32␊¦1
l 13 1 68␊end fixed 34 32␊¦1
l 13 1 68 15␊end done 34 32␊¦2
l 13 1 68 15␊end fixed 34 00␊¦2
l 13 1 68 15␊end memory 34 32␊¦2
";

// The line at which a text is refused.
fn refusal(rt: &impl Abort, alloc: Global, text: &[u8]) -> Result<String, AllocError> {
    assert!(rt; text.len() <= 100, "the text is too long");
    match read_log(alloc, text) {
        Ok(_) => String::from_str(alloc, "a log"),
        Err(LogFault::Line(line)) => format!(in alloc; "{line}"),
        Err(LogFault::NoMemory) => Err(AllocError),
    }
}

fn expect_refusal(rt: &impl Abort, alloc: Global, row: &str) -> Result<(), AllocError> {
    let (text, line) = pair(row);
    let text = bytes_of(alloc, text)?;
    let found = refusal(rt, alloc, &text)?;
    expect(rt, found.as_bytes(), line.as_bytes(), row);
    Ok(())
}

#[test]
fn the_first_line_out_of_the_form_is_named(rt: HostRuntime) -> Result<(), AllocError> {
    for row in rows(NO_LOGS) {
        expect_refusal(&rt, rt.alloc(), row)?;
    }
    Ok(())
}
