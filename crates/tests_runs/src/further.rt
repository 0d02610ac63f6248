// Whole runs by the top call that knows all that words may ask for. What is wanted was found by hand from the rules of the command line
// and of logs.
use crate::outcomes::{more_status_of, words_in};
use crate::runs::{
    FAULTS, JUDGED, MADE, REDUCTIONS, SHARED, files_hold, files_of, rehearsed_bench, sink_of,
    words_of,
};
use crate::tables::{Case, push_told};
use crate::ways::{AS_TOLD, Way, with};
use cr_outside::MemFiles;
use cr_outside_disk::MemDisk;
use std::alloc::{AllocError, Global};
use std::process::Abort;
use std::sync::Wait;
use std::thread::Threads;

/// Words in no form, though each of them has a use elsewhere: nothing is done.
const REFUSED: &str = "\
what a journal by standing workers
words --journal --standing has:b abc.c
name abc.c
before int main(){␊int a;␊int b;␊}␊
status 2
output creduce: usage: creduce [--workers N] [--window N] [--limit N] [--steps N] [--passes LETTERS] TEST FILE␊
after same
copy none
log none

what a journal that is gone on with by standing workers
words --any-order --resume if:same abc.c --standing

what a journal that is begun and gone on with
words --journal --resume has:b abc.c

what a journal twice
words --journal --any-order --journal has:b abc.c

what to go on twice
words --resume has:b --resume abc.c

what standing workers twice
words --standing if:same abc.c --standing

what any order twice
words --any-order --any-order if:same abc.c

what a journal of a generated program
words --journal has:main gen:7:1

what a journal of a generated program that is gone on with by a formula in any order
words --resume --any-order if:same gen:7:1

what a flag without words
words --journal

what a word that spells no formula behind flags
words --standing --any-order if:and(same abc.c

what a replay without a file
words --replay abc.c.log

what a replay of a generated program
words --replay abc.c.log gen:7:1

what a replay with workers
words --replay --workers=1 abc.c.log abc.c

what a replay behind another word
words --steps 7 --replay abc.c.log abc.c

what a replay in any order
words --replay --any-order abc.c.log abc.c

what a replay behind a flag
words --any-order --replay abc.c.log abc.c

what a replay by standing workers
words --replay abc.c.log abc.c --standing

what a label without a name
words --reached= has:b abc.c

what a replay with a journal
words --replay --journal abc.c.log abc.c
";

/// Files whose run may hang on no order, or is to reach a label. Nothing is written.
const ORDERED: &str = "\
what a read beside a call that writes it
words --any-order --passes l has:main abc.c
name abc.c
before int x;int f(void){x=1;return 2;}␊int main(){return x+f();}␊
status 5
output creduce: abc.c:2: left the profile: N8␊
after same
copy none
log none

what two calls
before int x;int f(void){x=1;return 2;}int g(void){return 3;}␊int main(){return f()+g();}␊

what an exit in an operand
before void exit(int);␊int h(void){exit(0);}int main(){return h()+1/0;}␊

what a label that the run doesn't come by
words --reached=A --passes l has:main abc.c
before int f(void){␊A:return 1;}int main(){return 0;}␊
output creduce: abc.c:2: left the profile: N9␊

what no label of the name
words --any-order --reached=B --passes l has:main abc.c
before int x;␊int main(){␊A:return 0;}␊
output creduce: abc.c:1: left the profile: N9␊

what an undefined operation behind such a node
before int f(void){return 1;}␊int main(){f()+f();␊return 1/0;}␊
output creduce: abc.c:3: not defined: U2␊

what a file that no test takes, whose run hangs on none
words --any-order --passes l has:no abc.c
before int x;int f(void){x=1;return 2;}␊int main(){int y=5;x=f();return y+f();}␊
status 6
output creduce: the test says no to abc.c␊
";

/// Logs that are checked. The files are there before and after as they are told.
const REPLAYS: &str = "\
what the log of a reduction
words --replay t.c.log t.c
name t.c
failing none
mute none
status 0
output t.c replay yes accepted 1␊
after int b;␊int main(){}␊
copy int a;␊int b;␊int main(){}␊
log l 14 0 98 16␊end fixed 98 34␊

what its passes and steps enough
words --replay --passes l --steps=100 t.c.log t.c

what another size
log l 14 0 97 16␊end fixed 98 34␊
status 14
output creduce: replay: line 1␊

what a byte more in the file
after int b;␊int main(){}␊␊
status 14
output creduce: replay: line 2␊

what an empty log
log ∅
status 14
output creduce: replay: line 1␊

what a pass that isn't enabled
words --replay --passes t t.c.log t.c
status 14
output creduce: replay: line 1␊

what a cursor beyond every level
log l 255 0 98 16␊end fixed 98 34␊
status 14
output creduce: replay: line 1␊

what a cursor beyond the width
log l 14 18446744073709551615 98 16␊end fixed 98 34␊
status 14
output creduce: replay: line 1␊

what the largest number as a size
log l 14 0 18446744073709551615 16␊end fixed 98 34␊
status 14
output creduce: replay: line 1␊

what the largest number as the last size
log l 14 0 98 16␊end fixed 18446744073709551615 34␊
status 14
output creduce: replay: line 2␊

what a size above the largest number
log l 14 0 98 16␊end fixed 18446744073709551616 34␊
status 14
output creduce: replay: line 2␊

what the largest numbers as turns
log l 14 0 98 18446744073709551615␊end fixed 98 18446744073709551615␊

what turns that fall
log l 14 0 98 35␊end fixed 98 34␊
status 14
output creduce: replay: line 2␊

what no copy
copy none
status 3
output creduce: no file t.c.orig␊

what no log
log none
status 3
output creduce: no file t.c.log␊

what a log of another name
words --replay other.log t.c
status 3
output creduce: no file other.log␊

what no file
after none
status 3
output creduce: no file t.c␊

what the copy can't be read
failing 1
status 9
output creduce: file fault: t.c.orig␊

what the log can't be read
failing 2
status 9
output creduce: file fault: t.c.log␊

what the file can't be read
failing 3
status 9
output creduce: file fault: t.c␊

what a copy that isn't in the subset
copy int a;␊int main(){return b;}␊
status 4
output creduce: t.c.orig:2: not in the subset: name 1␊

what a copy whose run isn't defined
copy int main(){␊1/0;}␊
status 5
output creduce: t.c.orig:2: not defined: U2␊

what the answer can't be put
mute 1
status 10
output ∅

what a refusal can't be put
log ∅
mute 1
status 14
output ∅
";

// Whether the case runs as it is wanted.
fn runs_so(
    rt: &(impl Threads + Wait + Sync),
    alloc: Global,
    case: &Case,
    words: &[String],
    files: MemFiles,
) -> Result<bool, AllocError> {
    let mut bench = rehearsed_bench(alloc, case)?;
    let mut out = sink_of(alloc, case)?;
    let mut world = MemDisk::beside(files, Vec::new(alloc));
    let status = more_status_of(rt, alloc, words, &mut world, &mut bench, &mut out);
    if u64::from(status) == case.number("status") && case.tells(alloc, "output", out.bytes())? {
        files_hold(alloc, &mut world, case)
    } else {
        Ok(false)
    }
}

/// A case comes to what it tells, also where its words are asked for in this way.
pub(crate) fn expect_by(
    rt: &(impl Abort + Threads + Wait + Sync),
    alloc: Global,
    way: Way,
    case: &Case,
) -> Result<(), AllocError> {
    let words = words_of(alloc, way, case)?;
    let files = files_of(alloc, case)?;
    let so = runs_so(rt, alloc, case, &words, files)?;
    assert!(rt; so, "{} {}", case.told("what"), way.flags);
    Ok(())
}

#[test]
fn words_without_flag_come_to_what_they_come_to_without_the_further_modes(
    rt: HostRuntime,
) -> Result<(), AllocError> {
    for table in [FAULTS, JUDGED, MADE] {
        for own in table.split("\n\n") {
            expect_by(&rt, rt.alloc(), AS_TOLD, &Case::of(table, own))?;
        }
    }
    Ok(())
}

#[test]
fn standing_workers_come_to_what_epochs_come_to(rt: HostRuntime) -> Result<(), AllocError> {
    for table in [REDUCTIONS, FAULTS, JUDGED, MADE, SHARED] {
        for own in table.split("\n\n") {
            expect_by(&rt, rt.alloc(), with("--standing"), &Case::of(table, own))?;
        }
    }
    Ok(())
}

fn expect_asked(
    rt: &(impl Abort + Threads + Wait + Sync),
    alloc: Global,
    case: &Case,
) -> Result<(), AllocError> {
    let words = words_in(alloc, case.told("words"))?;
    let files = files_of(alloc, case)?;
    let so = runs_so(rt, alloc, case, &words, files)?;
    assert!(rt; so, "{}", case.told("what"));
    Ok(())
}

#[test]
fn by_words_in_no_form_nothing_is_done(rt: HostRuntime) -> Result<(), AllocError> {
    for own in REFUSED.split("\n\n") {
        expect_asked(&rt, rt.alloc(), &Case::of(REFUSED, own))?;
    }
    Ok(())
}

#[test]
fn with_any_order_a_file_whose_run_hangs_on_one_is_refused(
    rt: HostRuntime,
) -> Result<(), AllocError> {
    for own in ORDERED.split("\n\n") {
        expect_asked(&rt, rt.alloc(), &Case::of(ORDERED, own))?;
    }
    Ok(())
}

fn replay_files(alloc: Global, case: &Case) -> Result<MemFiles, AllocError> {
    let mut pairs = Vec::new(alloc);
    push_told(alloc, &mut pairs, "t.c.orig", case.told("copy"))?;
    push_told(alloc, &mut pairs, "t.c.log", case.told("log"))?;
    push_told(alloc, &mut pairs, "t.c", case.told("after"))?;
    let failing = case.numbers(alloc, "failing")?;
    Ok(MemFiles::new(pairs, failing))
}

fn expect_replay(
    rt: &(impl Abort + Threads + Wait + Sync),
    alloc: Global,
    case: &Case,
) -> Result<(), AllocError> {
    let words = words_in(alloc, case.told("words"))?;
    let files = replay_files(alloc, case)?;
    let so = runs_so(rt, alloc, case, &words, files)?;
    assert!(rt; so, "{}", case.told("what"));
    Ok(())
}

#[test]
fn a_replay_comes_to_the_status_of_its_log_and_writes_nothing(
    rt: HostRuntime,
) -> Result<(), AllocError> {
    for own in REPLAYS.split("\n\n") {
        expect_replay(&rt, rt.alloc(), &Case::of(REPLAYS, own))?;
    }
    Ok(())
}
