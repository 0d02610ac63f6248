// Runs whose flags stand beside one another or beside a formula. What is wanted was found by hand from the rules of the command line, of the
// journal and of the order of operands.
use crate::further::expect_by;
use crate::kept;
use crate::kept::RUNS;
use crate::runs::{FAULTS, JUDGED, MADE, REDUCTIONS, SHARED};
use crate::tables::Case;
use crate::ways::{AS_TOLD, Way, with};
use std::alloc::{AllocError, Global};
use std::process::Abort;
use std::sync::Wait;
use std::thread::Threads;

/// Other engines and laws, by which no run of the tables comes to anything else.
const FLAGS: [&str; 4] = ["", "--standing", "--any-order", "--standing --any-order"];

/// A file of five lines of which one keeps the order of operands from mattering, for the sum is the same from left to right without it.
const ORDERED: &str = "\
what a line that no order allows to go
passes l
workers 2
window 8
words --any-order has:x+f abc.c
name abc.c
before int x;int f(void){x=1;return 2;}␊int main(){␊int x=0;␊return x+f();␊}␊
status 0
output abc.c size 374 to 374 accepted 0 turns 22 fixed␊
after same
copy same
log end fixed 374 22␊

what the same, where the run is to come to the same
words --any-order if:same abc.c

what that the run comes to the same, and the text
words if:and(same,has(\"x+f\")) --any-order abc.c

what a line that may go, since the order of one run alone is asked for
words has:x+f abc.c
output abc.c size 374 to 322 accepted 1 turns 41 fixed␊
after int x;int f(void){x=1;return 2;}␊int main(){␊return x+f();␊}␊
log l 14 2 322 20␊end fixed 322 41␊

what the same, where the run is to come to the same
words if:same abc.c
output abc.c size 374 to 322 accepted 1 turns 41 fixed␊
after int x;int f(void){x=1;return 2;}␊int main(){␊return x+f();␊}␊
log l 14 2 322 20␊end fixed 322 41␊

what a file whose run hangs on an order
words --any-order if:same abc.c
before int x;int f(void){x=1;return 2;}␊int main(){␊return x+f();␊}␊
status 5
output creduce: abc.c:3: left the profile: N8␊
copy none
log none
";

/// A file of five lines of which one keeps both operands of the labelled statement evaluated: without it the second one isn't.
const REACHED: &str = "\
what a line that the label doesn't allow to go
passes l
workers 2
window 8
words --reached=A has:x&&x abc.c
name abc.c
before int x;␊int main(){␊x=1;␊A:x&&x;␊}␊
status 0
output abc.c size 205 to 205 accepted 0 turns 22 fixed␊
after same
copy same
log end fixed 205 22␊

what the same in any order, where the run is to come to the same
words if:same --any-order --reached=A abc.c

what a line that may go, since no label is asked for
words has:x&&x abc.c
output abc.c size 205 to 164 accepted 1 turns 41 fixed␊
after int x;␊int main(){␊A:x&&x;␊}␊
log l 14 2 164 20␊end fixed 164 41␊

what no label of the name
words --reached=B has:x&&x abc.c
status 5
output creduce: abc.c:1: left the profile: N9␊
copy none
log none
";

/// The same file with a journal: what there is before a run, and what it comes to.
const KEPT: &str = "\
what a journal of a run in any order
name t.c
words --journal --any-order --passes l has:x+f t.c
again --resume --any-order --passes l has:x+f t.c
calls 10
before int x;int f(void){x=1;return 2;}␊int main(){␊int x=0;␊return x+f();␊}␊
copied none
journal none
status 0
output t.c size 374 to 374 accepted 0 turns 22 fixed␊
after same
copy same
log end fixed 374 22␊
then 01010040420f0000000000ffffffffffffffff76010000000000000000000000 00

what a journal of a run by a formula in any order
words --journal --any-order --passes l if:same t.c
again --resume --any-order --passes l if:same t.c

what a journal of a run by a formula
words --journal --passes l if:same t.c
again --resume --passes l if:same t.c
calls 14
output t.c size 374 to 322 accepted 1 turns 41 fixed␊
after int x;int f(void){x=1;return 2;}␊int main(){␊return x+f();␊}␊
log l 14 2 322 20␊end fixed 322 41␊
then 01010040420f0000000000ffffffffffffffff76010000000000000000000000 01000e0200000000000000420100000000000014000000000000000000000000 00

what a formula about the copy, where the file is lost
words --resume --passes l if:same t.c
again --resume --passes l if:same t.c
calls 4
before int
copied int x;int f(void){x=1;return 2;}␊int main(){␊int x=0;␊return x+f();␊}␊
copy int x;int f(void){x=1;return 2;}␊int main(){␊int x=0;␊return x+f();␊}␊
journal 01010040420f0000000000ffffffffffffffff76010000000000000000000000 01000e0200000000000000420100000000000014000000000000000000000000 00
output t.c size 374 to 322 accepted 1 turns 41 fixed␊
after int x;int f(void){x=1;return 2;}␊int main(){␊return x+f();␊}␊
log l 14 2 322 20␊end fixed 322 41␊
then 01010040420f0000000000ffffffffffffffff76010000000000000000000000 01000e0200000000000000420100000000000014000000000000000000000000 00

what a row that no order allows
words --resume --any-order --passes l has:x+f t.c
copied int x;int f(void){x=1;return 2;}␊int main(){␊int x=0;␊return x+f();␊}␊
journal 01010040420f0000000000ffffffffffffffff76010000000000000000000000 01000e0200000000000000420100000000000014000000000000000000000000 00
status 13
output creduce: journal refused: t.c.journal 1␊
log none
then 01010040420f0000000000ffffffffffffffff76010000000000000000000000 01000e0200000000000000420100000000000014000000000000000000000000 00

what a copy whose run hangs on an order
words --resume --any-order --passes l has:x+f t.c
copied int x;int f(void){x=1;return 2;}␊int main(){␊return x+f();␊}␊
copy int x;int f(void){x=1;return 2;}␊int main(){␊return x+f();␊}␊
journal 01010040420f0000000000ffffffffffffffff42010000000000000000000000 00
status 5
output creduce: t.c:3: left the profile: N8␊
log none
then 01010040420f0000000000ffffffffffffffff42010000000000000000000000 00

what a copy that the formula says no to
words --resume --any-order --passes l if:ends(3) t.c
copied int x;int f(void){x=1;return 2;}␊int main(){␊int x=0;␊return x+f();␊}␊
journal 01010040420f0000000000ffffffffffffffff76010000000000000000000000 00
status 6
output creduce: the test says no to t.c␊
log none
then 01010040420f0000000000ffffffffffffffff76010000000000000000000000 00
";

fn expect_ways(
    rt: &(impl Abort + Threads + Wait + Sync),
    alloc: Global,
    table: &'static str,
    by_formula: bool,
) -> Result<(), AllocError> {
    for flags in FLAGS {
        for own in table.split("\n\n") {
            expect_by(rt, alloc, Way { flags, by_formula }, &Case::of(table, own))?;
        }
    }
    Ok(())
}

#[test]
fn engines_and_laws_come_to_the_same_where_no_order_matters(
    rt: HostRuntime,
) -> Result<(), AllocError> {
    for table in [REDUCTIONS, FAULTS, JUDGED, MADE, SHARED] {
        expect_ways(&rt, rt.alloc(), table, false)?;
    }
    Ok(())
}

#[test]
fn a_formula_comes_to_what_the_text_in_it_comes_to(rt: HostRuntime) -> Result<(), AllocError> {
    for table in [REDUCTIONS, FAULTS, MADE, SHARED] {
        expect_ways(&rt, rt.alloc(), table, true)?;
    }
    Ok(())
}

#[test]
fn a_variant_whose_run_hangs_on_an_order_is_no_result_in_any_order(
    rt: HostRuntime,
) -> Result<(), AllocError> {
    for flags in ["", "--standing"] {
        for own in ORDERED.split("\n\n") {
            expect_by(&rt, rt.alloc(), with(flags), &Case::of(ORDERED, own))?;
        }
    }
    Ok(())
}

#[test]
fn a_variant_whose_run_leaves_out_an_operand_at_the_label_is_no_result(
    rt: HostRuntime,
) -> Result<(), AllocError> {
    for flags in ["", "--standing"] {
        for own in REACHED.split("\n\n") {
            expect_by(&rt, rt.alloc(), with(flags), &Case::of(REACHED, own))?;
        }
    }
    Ok(())
}

fn expect_kept(
    rt: &(impl Abort + Threads + Wait + Sync),
    alloc: Global,
    table: &'static str,
    way: Way,
) -> Result<(), AllocError> {
    for own in table.split("\n\n") {
        let case = Case::of(table, own);
        kept::expect(rt, alloc, way, &case)?;
        kept::expect_calls(rt, alloc, way, &case)?;
    }
    Ok(())
}

#[test]
fn a_journal_is_kept_and_gone_on_with_in_any_order_and_by_a_formula(
    rt: HostRuntime,
) -> Result<(), AllocError> {
    for flags in ["", "--any-order"] {
        for by_formula in [false, true] {
            expect_kept(&rt, rt.alloc(), RUNS, Way { flags, by_formula })?;
        }
    }
    Ok(())
}

#[test]
fn a_row_stands_by_the_law_that_the_run_asks_for(rt: HostRuntime) -> Result<(), AllocError> {
    expect_kept(&rt, rt.alloc(), KEPT, AS_TOLD)
}
