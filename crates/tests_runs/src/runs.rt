// Whole runs on files, a sink and judges in memory. What is wanted was found by hand from the rules of the command line,
// of the passes and of the reduction.
use crate::outcomes::{content, one_file, status_of};
use crate::rehearsed::{Rehearsed, knowing_bench};
use crate::tables::{Case, tell};
use crate::ways::{AS_TOLD, Way, words_by};
use cr_log::{Log, read_log};
use cr_outside::{Files, Judge, MemFiles, MemSink};
use cr_pool::Bench;
use std::alloc::{AllocError, Global};
use std::process::Abort;
use std::test::Fail;
use std::thread::Threads;

/// Reductions of files with a `has:` test.
pub(crate) const REDUCTIONS: &str = "\
what three lines of main
passes l
workers 1
window 256
words has:b abc.c
name abc.c
before int main(){␊int a;␊int b;␊int c;␊}␊
status 0
output abc.c size 167 to 99 accepted 2 turns 40 fixed␊
after int main(){␊int b;␊}␊
copy int main(){␊int a;␊int b;␊int c;␊}␊
log l 14 1 133 19␊l 14 2 99 21␊end fixed 99 40␊

what three lines, by lines and tokens
passes tl
words has:main(){ abc.c
output abc.c size 167 to 65 accepted 2 turns 64 fixed␊
after int main(){␊}␊
log l 13 1 99 16␊l 14 1 65 19␊end fixed 65 64␊

what a line of twelve tokens, of which two in a row go
passes t
words has:main(){return+1 abc.c
before int main(){return+1,2;}
output abc.c size 125 to 105 accepted 1 turns 63 fixed␊
after int main(){return+1;}
copy int main(){return+1,2;}
log t 3 8 105 23␊end fixed 105 63␊

what no turn
words --limit 0 has:b abc.c
status 7
output abc.c size 167 to 167 accepted 0 turns 0 limit␊
after int main(){␊int a;␊int b;␊int c;␊}␊
log end limit 167 0␊

what nineteen turns
words has:b --limit=19 abc.c
status 7
output abc.c size 167 to 133 accepted 1 turns 19 limit␊
after int main(){␊int b;␊int c;␊}␊
log l 14 1 133 19␊end limit 133 19␊

what one turn too few
words has:b abc.c --limit 39
status 7
output abc.c size 167 to 99 accepted 2 turns 39 limit␊
log l 14 1 133 19␊l 14 2 99 21␊end limit 99 39␊

what turns enough
words --limit=40 has:b abc.c

what a name in a folder
words has:b d/abc.c
name d/abc.c
output d/abc.c size 167 to 99 accepted 2 turns 40 fixed␊

what two lines before main, which the test keeps
words has:main(){ m.c
name m.c
before int a;␊int b;␊int main(){}␊
output m.c size 132 to 64 accepted 1 turns 31 fixed␊
after int main(){}␊
copy int a;␊int b;␊int main(){}␊
log l 13 0 64 14␊end fixed 64 31␊

what two tokens on two lines, of which neither may go
words has:;int abc.c
before int main(){␊int a;␊int b;␊}␊
output abc.c size 133 to 133 accepted 0 turns 19 fixed␊
after int main(){␊int a;␊int b;␊}␊
copy int main(){␊int a;␊int b;␊}␊
log end fixed 133 19␊

what of four variants the last one runs for ever
passes s
words --steps 1000 has:while abc.c
before int main(){int i=3;while(i)i--;}
output abc.c size 190 to 190 accepted 0 turns 4 fixed␊
after same
copy same
log end fixed 190 4␊

what steps enough, the body's, those of 3 and of the loop, four of the condition, and three times three
passes s
words has:while --steps=16 abc.c
before int main(){int i=3;while(i)i--;}
output abc.c size 190 to 190 accepted 0 turns 4 fixed␊
after same
copy same
log end fixed 190 4␊

what a main by all passes
passes ltbusciprf
words has:main m.c
name m.c
before int main(void){return 0;}␊
output m.c size 109 to 63 accepted 4 turns 85 fixed␊
after int main(){}
copy same
log t 3 6 85 32␊t 4 3 73 37␊t 4 5 64 40␊f 0 0 63 48␊end fixed 63 85␊

what a program of twenty lines, by lines
words has:BLUE p.c
name p.c
before # 1 \"p.c\"␊typedef int T;␊extern int printf(const char *, ...);␊enum color { RED, GREEN = 5, BLUE };␊struct pair { T left; T right; };␊static struct pair table[2] = { { 1, 2 }, { 3, 4 } };␊static T sum(struct pair *p, int n)␊{␊  T s = 0;␊  int i;␊  for (i = 0; i < n; i++)␊    s += p[i].left * p[i].right;␊  return s;␊}␊int main(void)␊{␊  long T = BLUE;␊  printf(\"%d %ld\\n\", sum(table, 2), T);␊  return 0;␊}␊
output p.c size 1686 to 442 accepted 10 turns 103 fixed␊
after typedef int T;␊enum color { RED, GREEN = 5, BLUE };␊static T sum(struct pair *p, int n)␊{␊}␊int main(void)␊{␊}␊
copy same
log l 13 5 1362 26␊l 13 7 1131 29␊l 14 0 1121 31␊l 14 1 992 33␊l 14 3 747 36␊l 14 6 711 40␊l 14 6 672 41␊l 14 9 636 45␊l 14 2 499 70␊l 14 4 442 73␊end fixed 442 103␊
";

/// Calls that fail.
pub(crate) const FAULTS: &str = "\
what the read fails
passes l
workers 1
window 256
words has:b abc.c
name abc.c
before int main(){␊int a;␊int b;␊int c;␊}␊
failing 1
status 9
output creduce: file fault: abc.c␊
after int main(){␊int a;␊int b;␊int c;␊}␊
copy none
log none

what the copy can't be written
failing 2
output creduce: file fault: abc.c.orig␊

what the result can't be written
failing 3
copy int main(){␊int a;␊int b;␊int c;␊}␊

what the log can't be written
failing 4
output creduce: file fault: abc.c.log␊
after int main(){␊int b;␊}␊
copy int main(){␊int a;␊int b;␊int c;␊}␊

what the summary can't be put
failing none
mute 1
status 10
output ∅
after int main(){␊int b;␊}␊
copy int main(){␊int a;␊int b;␊int c;␊}␊
log l 14 1 133 19␊l 14 2 99 21␊end fixed 99 40␊

what the summary of an unfinished reduction can't be put
failing none
words --limit=0 has:b abc.c
mute 1
status 10
output ∅
copy int main(){␊int a;␊int b;␊int c;␊}␊
log end limit 167 0␊

what the copy is there though its write fails
failing 2
late yes
output creduce: file fault: abc.c.orig␊
copy int main(){␊int a;␊int b;␊int c;␊}␊

what the result is there though its write fails
failing 3
late yes
after int main(){␊int b;␊}␊
copy int main(){␊int a;␊int b;␊int c;␊}␊

what three bytes of the summary are put
failing none
mute 1
keeps 3
status 10
output abc
after int main(){␊int b;␊}␊
copy int main(){␊int a;␊int b;␊int c;␊}␊
log l 14 1 133 19␊l 14 2 99 21␊end fixed 99 40␊

what the refusal of words without a file can't be put
failing none
words has:b
mute 1
status 2
output ∅

what a refusal can't be put
failing none
words has:d abc.c
mute 1
status 6
output ∅

what neither the copy nor a line
failing 2
mute 1
output ∅
";

/// The judge awaits these calls, in this order, by the test of the path `w.sh` and under the name `abc.c`. A chunk of four lines or
/// more takes one of main's braces along, which leaves no unit to ask about, and of those of two lines only the one in the middle doesn't.
pub(crate) const JUDGED: &str = "\
what yes to two variants, asked in the order of positions under the file's own name
passes l
workers 1
window 256
words w.sh d/abc.c
name d/abc.c
before int main(){␊int a;␊int b;␊int c;␊}␊
call 1 yes int main(){␊int a;␊int b;␊int c;␊}␊
call 1 no int main(){␊int a;␊}␊
call 1 yes int main(){␊int b;␊int c;␊}␊
call 1 no int main(){␊int c;␊}␊
call 1 yes int main(){␊int b;␊}␊
call 1 no int main(){␊}␊
status 0
output d/abc.c size 167 to 99 accepted 2 turns 40 fixed␊
after int main(){␊int b;␊}␊
copy int main(){␊int a;␊int b;␊int c;␊}␊
log l 14 1 133 19␊l 14 2 99 21␊end fixed 99 40␊

what the test fails on a variant
words w.sh abc.c
name abc.c
call 1 yes int main(){␊int a;␊int b;␊int c;␊}␊
call 1 failed int main(){␊int a;␊}␊
status 8
output abc.c size 167 to 167 accepted 0 turns 15 fault␊
after int main(){␊int a;␊int b;␊int c;␊}␊
log end fault 167 15␊

what the test fails on a variant of three lines
window 1
words w.sh abc.c
name abc.c
before int a;␊int b;␊int main(){}␊
call 1 yes int a;␊int b;␊int main(){}␊
call 1 failed int main(){}␊
status 8
output abc.c size 132 to 132 accepted 0 turns 13 fault␊
after same
copy same
log end fault 132 13␊

what the test fails on its next one
window 1
words w.sh abc.c
name abc.c
before int a;␊int b;␊int main(){}␊
call 1 yes int a;␊int b;␊int main(){}␊
call 1 no int main(){}␊
call 1 failed int b;␊int main(){}␊
status 8
output abc.c size 132 to 132 accepted 0 turns 15 fault␊
after same
copy same
log end fault 132 15␊

what the test would fail at the call after the last one
window 1
words w.sh abc.c
name abc.c
before int a;␊int b;␊int main(){}␊
call 1 yes int a;␊int b;␊int main(){}␊
call 1 no int main(){}␊
call 1 yes int b;␊int main(){}␊
call 1 failed int main(){}␊
output abc.c size 132 to 98 accepted 1 turns 34 fixed␊
after int b;␊int main(){}␊
copy same
log l 14 0 98 16␊end fixed 98 34␊

what the test fails on the printed unit
passes f
words w.sh abc.c
name abc.c
before int main(){}␊
call 1 yes int main(){}␊
call 1 failed int main(){}
status 8
output abc.c size 64 to 64 accepted 0 turns 0 fault␊
after same
copy same
log end fault 64 0␊

what a file that was answered no isn't asked about again
words w.sh abc.c
name abc.c
call 1 yes int main(){␊int a;␊int b;␊int c;␊}␊
call 1 no int main(){␊int a;␊}␊
call 1 no int main(){␊int b;␊int c;␊}␊
call 1 yes int main(){␊int a;␊int c;␊}␊
call 1 no int main(){␊int c;␊}␊
output abc.c size 167 to 133 accepted 1 turns 41 fixed␊
after int main(){␊int a;␊int c;␊}␊
log l 14 2 133 20␊end fixed 133 41␊

what no to the file
words w.sh abc.c
name abc.c
call 1 no int main(){␊int a;␊int b;␊int c;␊}␊
status 6
output creduce: the test says no to abc.c␊
after int main(){␊int a;␊int b;␊int c;␊}␊
copy none
log none

what the test fails on the file
words w.sh abc.c
name abc.c
call 1 failed int main(){␊int a;␊int b;␊int c;␊}␊
status 8
output creduce: the test failed on abc.c␊
after int main(){␊int a;␊int b;␊int c;␊}␊
copy none
log none
";

/// Generated programs, of which nothing is written. The size of this one is its 185 bytes, 8 for each of its 58 tokens, and
/// their weights, which are 45 together.
pub(crate) const MADE: &str = "\
what a generated program without this text
passes l
workers 1
window 256
words has:b1 gen:7:1
name gen.c
before another file
status 6
output creduce: the test says no to gen.c␊
after same
copy none
log none

what no turn on a generated program
words --limit=0 has:main gen:7:1
status 7
output gen.c size 694 to 694 accepted 0 turns 0 limit␊
";

/// The three lines by several workers and windows, each time with the log of one.
pub(crate) const SHARED: &str = "\
what four workers and a small window
passes l
workers 4
window 8
words has:b abc.c
name abc.c
before int main(){␊int a;␊int b;␊int c;␊}␊
status 0
output abc.c size 167 to 99 accepted 2 turns 40 fixed␊
after int main(){␊int b;␊}␊
copy int main(){␊int a;␊int b;␊int c;␊}␊
log l 14 1 133 19␊l 14 2 99 21␊end fixed 99 40␊

what three workers, one position at a time
workers 3
window 1

what four workers, one position at a time
window 1

what three workers and a small window
workers 3

what four workers and all positions of a round
window 256

what three workers and all positions of a round
workers 3
window 256

what one worker and the largest window
workers 1
window 4096

what a limit within a window
workers 2
words has:b --limit=19 abc.c
status 7
output abc.c size 167 to 133 accepted 1 turns 19 limit␊
after int main(){␊int b;␊int c;␊}␊
log l 14 1 133 19␊end limit 133 19␊

what two passes by two workers
workers 2
window 256
passes tl
words has:main(){ abc.c
output abc.c size 167 to 65 accepted 2 turns 64 fixed␊
after int main(){␊}␊
log l 13 1 99 16␊l 14 1 65 19␊end fixed 65 64␊

what no to the file
words has:d abc.c
status 6
output creduce: the test says no to abc.c␊
after int main(){␊int a;␊int b;␊int c;␊}␊
copy none
log none
";

/// A judge that says yes to these files, and fails on one that lies behind the first accepted one, where it decides nothing,
/// whoever tries it.
const BEHIND: &str = "\
what a failure behind the first accepted variant
passes l
workers 1
window 16
words t abc.c
name abc.c
before int main(){␊int a;␊int b;␊int c;␊}␊
call 1 yes int main(){␊int a;␊int b;␊int c;␊}␊
call 1 yes int main(){␊int b;␊int c;␊}␊
call 1 yes int main(){␊int b;␊}␊
call 1 failed int main(){␊int a;␊int c;␊}␊
status 0
output abc.c size 167 to 99 accepted 2 turns 40 fixed␊
after int main(){␊int b;␊}␊
copy int main(){␊int a;␊int b;␊int c;␊}␊
log l 14 1 133 19␊l 14 2 99 21␊end fixed 99 40␊

what the same by four workers
call 1 yes int main(){␊int a;␊int b;␊int c;␊}␊
call 1 yes int main(){␊int b;␊int c;␊}␊
call 1 yes int main(){␊int b;␊}␊
call 1 failed int main(){␊int a;␊int c;␊}␊
workers 4

what the same, one position at a time
call 1 yes int main(){␊int a;␊int b;␊int c;␊}␊
call 1 yes int main(){␊int b;␊int c;␊}␊
call 1 yes int main(){␊int b;␊}␊
call 1 failed int main(){␊int a;␊int c;␊}␊
workers 2
window 1

what a failure before the first accepted variant
call 1 yes int main(){␊int a;␊int b;␊int c;␊}␊
call 1 failed int main(){␊int a;␊}␊
call 1 yes int main(){␊int b;␊int c;␊}␊
workers 4
window 32
status 8
output abc.c size 167 to 167 accepted 0 turns 15 fault␊
after int main(){␊int a;␊int b;␊int c;␊}␊
log end fault 167 15␊
";

/// The words of a case, asked for in this way: its options, and behind them what it tells of words.
pub(crate) fn words_of(alloc: Global, way: Way, case: &Case) -> Result<Vec<String>, AllocError> {
    let all = format!(in alloc;
        "--workers={} --window={} --passes={} {}",
        case.told("workers"),
        case.told("window"),
        case.told("passes"),
        case.told("words")
    )?;
    words_by(alloc, way, all.as_str())
}

/// The files of a case: one of its name. Where a failing write is late, it puts its file all the same.
pub(crate) fn files_of(alloc: Global, case: &Case) -> Result<MemFiles, AllocError> {
    let failing = case.numbers(alloc, "failing")?;
    let pairs = one_file(alloc, case.told("name"), case.before(alloc)?)?;
    Ok(match case.told("late") {
        "yes" => MemFiles::late(pairs, failing),
        _ => MemFiles::new(pairs, failing),
    })
}

/// The sink of a case.
pub(crate) fn sink_of(alloc: Global, case: &Case) -> Result<MemSink, AllocError> {
    let failing = case.numbers(alloc, "mute")?;
    let kept = case.told("keeps").parse().unwrap_or(0);
    Ok(MemSink::part(alloc, failing, kept))
}

// Whether a file beside the case's one, by the ending of its name, is what the case tells under this word.
fn holds<F: Files>(
    alloc: Global,
    files: &mut F,
    case: &Case,
    ending: &str,
    word: &str,
) -> Result<bool, AllocError> {
    let name = format!(in alloc; "{}{ending}", case.told("name"))?;
    match content(alloc, files, name.as_str()) {
        Some(found) => case.tells(alloc, word, &found),
        None => Ok(case.told(word) == "none"),
    }
}

/// Whether the files are those that the case tells.
pub(crate) fn files_hold<F: Files>(
    alloc: Global,
    files: &mut F,
    case: &Case,
) -> Result<bool, AllocError> {
    Ok(
        holds(alloc, files, case, "", "after")?
            && holds(alloc, files, case, ".orig", "copy")?
            && holds(alloc, files, case, ".log", "log")?,
    )
}

// Whether the case runs as it is wanted.
fn runs_so<J: Judge + Send>(
    rt: &(impl Threads + Sync),
    alloc: Global,
    case: &Case,
    bench: &mut Bench<J>,
) -> Result<bool, AllocError> {
    let words = words_of(alloc, AS_TOLD, case)?;
    let mut out = sink_of(alloc, case)?;
    let mut files = files_of(alloc, case)?;
    let status = status_of(rt, alloc, &words, &mut files, bench, &mut out);
    if u64::from(status) == case.number("status") && case.tells(alloc, "output", out.bytes())? {
        files_hold(alloc, &mut files, case)
    } else {
        Ok(false)
    }
}

fn expect_run<J: Judge + Send>(
    rt: &(impl Abort + Threads + Sync),
    alloc: Global,
    case: &Case,
    bench: &mut Bench<J>,
) -> Result<(), AllocError> {
    let so = runs_so(rt, alloc, case, bench)?;
    assert!(rt; so, "{}", case.told("what"));
    Ok(())
}

/// A bench of the case's judge and three others, who fail if they are asked at all.
pub(crate) fn rehearsed_bench(alloc: Global, case: &Case) -> Result<Bench<Rehearsed>, AllocError> {
    let first = Rehearsed::new("w.sh", "abc.c", case.calls(alloc)?);
    let mut judges = Vec::new(alloc);
    judges.push(first)?;
    judges.push(Rehearsed::silent(alloc))?;
    judges.push(Rehearsed::silent(alloc))?;
    judges.push(Rehearsed::silent(alloc))?;
    Bench::new(alloc, judges)
}

fn expect_rehearsed(
    rt: &(impl Abort + Threads + Sync),
    alloc: Global,
    case: &Case,
) -> Result<(), AllocError> {
    let mut bench = rehearsed_bench(alloc, case)?;
    expect_run(rt, alloc, case, &mut bench)
}

/// Each case of a table with its judge, who fails at any call that it doesn't await.
pub(crate) fn expect_all(
    rt: &(impl Abort + Threads + Sync),
    alloc: Global,
    table: &'static str,
) -> Result<(), AllocError> {
    for own in table.split("\n\n") {
        expect_rehearsed(rt, alloc, &Case::of(table, own))?;
    }
    Ok(())
}

#[test]
fn a_run_reduces_as_far_as_its_limit(rt: HostRuntime) -> Result<(), AllocError> {
    expect_all(&rt, rt.alloc(), REDUCTIONS)
}

#[test]
fn a_failing_call_ends_a_run_with_its_name(rt: HostRuntime) -> Result<(), AllocError> {
    expect_all(&rt, rt.alloc(), FAULTS)
}

#[test]
fn a_judge_is_asked_in_the_order_of_positions(rt: HostRuntime) -> Result<(), AllocError> {
    expect_all(&rt, rt.alloc(), JUDGED)
}

#[test]
fn a_generated_program_is_never_written(rt: HostRuntime) -> Result<(), AllocError> {
    expect_all(&rt, rt.alloc(), MADE)
}

#[test]
fn workers_and_windows_change_nothing(rt: HostRuntime) -> Result<(), AllocError> {
    expect_all(&rt, rt.alloc(), SHARED)
}

fn expect_known(
    rt: &(impl Abort + Threads + Sync),
    alloc: Global,
    case: &Case,
) -> Result<(), AllocError> {
    let mut bench = knowing_bench(alloc, case, 4)?;
    expect_run(rt, alloc, case, &mut bench)
}

#[test]
fn a_failure_behind_an_accepted_variant_decides_nothing(rt: HostRuntime) -> Result<(), AllocError> {
    for own in BEHIND.split("\n\n") {
        expect_known(&rt, rt.alloc(), &Case::of(BEHIND, own))?;
    }
    Ok(())
}

/// The log of the three lines, read back: the acceptances, how it ended, the size and the turns.
const READ_BACK: &str = "0 14 1 133 19, 0 14 2 99 21, 0 99 40";

// The log of a case's run.
fn log_of(
    rt: &(impl Threads + Sync),
    alloc: Global,
    case: &Case,
) -> Result<Option<Vec<u8>>, AllocError> {
    let words = words_of(alloc, AS_TOLD, case)?;
    let mut files = files_of(alloc, case)?;
    let mut bench = rehearsed_bench(alloc, case)?;
    let mut out = MemSink::new(alloc, Vec::new(alloc));
    status_of(rt, alloc, &words, &mut files, &mut bench, &mut out);
    Ok(content(alloc, &mut files, "abc.c.log"))
}

fn log_told(alloc: Global, log: &Log) -> Result<String, AllocError> {
    let mut told = String::new(alloc);
    tell(&mut told, log.accepted.as_slice())?;
    write!(told, "{} {} {}", log.why, log.size, log.turns)?;
    Ok(told)
}

fn expect_read_back(rt: &impl Abort, alloc: Global, text: &[u8]) -> Result<(), Fail> {
    assert!(rt; text.len() <= 100, "the text is too long");
    let log = read_log(alloc, text)?;
    let found = log_told(alloc, &log)?;
    assert!(rt;
        found.as_str() == READ_BACK,
        "the texts are read back otherwise"
    );
    Ok(())
}

#[test]
fn the_log_of_a_run_is_read_back(rt: HostRuntime) -> Result<(), Fail> {
    let alloc = rt.alloc();
    let text = log_of(&rt, alloc, &Case::first_of(REDUCTIONS))?;
    expect_read_back(&rt, alloc, text.as_deref().unwrap_or(b""))
}
