// Programs whose operands see one another, or don't.
use crate::programs::{Once, table};
use crate::rows::{expect_text, pair, rows};
use cr_meaning::Run;
use cr_order_watch::run_judged;
use std::alloc::{AllocError, Global};
use std::process::Abort;

// A program as in `programs`, and its status with the first node whose operands see one another; it has no initialiser list. By hand, with `int x, y;`,
// `int f(void){x=1;return 2;}` and `int h(void){exit(0);}`: `x+f()`; `x=f()`; `f()+f()`; `y+f()`; `f()+(x+f())`; `h()+1/0`;
// `k(5,6)` of `k(int a,int b){exit(a);}`; `int a[2]={f(),f()}`; `k(x,f())` of `k(int a,int b){return a;}`; `y=y+1`.
const ORDERS: &str = "
int;place 0;constant 1;assign|1 2;expression|3;constant 2;return|5;block|4 6;read 0;call 7;add|8 9;return|10;block|11;program 12 0¦Ended 2, 10
int;place 0;constant 1;assign|1 2;expression|3;constant 2;return|5;block|4 6;place 0;call 7;assign|8 9;expression|10;read 0;return|12;block|11 13;program 14 0¦Ended 2, none
int;place 0;constant 1;assign|1 2;expression|3;constant 2;return|5;block|4 6;call 7;call 7;add|8 9;return|10;block|11;program 12 0¦Ended 4, 10
int;place 0;constant 1;assign|1 2;expression|3;constant 2;return|5;block|4 6;int;read 8;call 7;add|9 10;return|11;block|12;program 13 0 8¦Ended 2, none
int;place 0;constant 1;assign|1 2;expression|3;constant 2;return|5;block|4 6;call 7;read 0;call 7;add|9 10;add|8 11;return|12;block|13;program 14 0¦Ended 5, 11
constant 0;exit|0;expression|1;block|2;call 3;constant 1;constant 0;divide|5 6;add|4 7;return|8;block|9;program 10¦Ended 0, 8
int;int;read 0;exit|2;expression|3;block|4;constant 5;constant 6;call 5 0 1|6 7;expression|8;block|9;program 10¦Ended 5, none
array;constant 2;return|1;block|2;call 3;call 3;initialise 0 0 1|4 5;declaration|6;constant 0;return|8;block 0|7 9;program 10¦Ended 0, 6
int;place 0;constant 1;assign|1 2;expression|3;constant 2;return|5;block|4 6;int;int;read 8;return|10;block|11;read 0;call 7;call 12 8 9|13 14;return|15;block|16;program 17 0¦Ended 0, 15
int;place 0;read 0;constant 1;add|2 3;assign|1 4;expression|5;read 0;return|7;block|6 8;program 9 0¦Ended 1, none
";

fn shown(alloc: Global, run: &Run, loose: Option<u32>) -> Result<String, AllocError> {
    match (run, loose) {
        (Run::Ended { status, .. }, Some(node)) => format!(in alloc; "Ended {status}, {node}"),
        (Run::Ended { status, .. }, None) => format!(in alloc; "Ended {status}, none"),
        _ => String::from_str(alloc, "another end"),
    }
}

fn check(rt: &impl Abort, alloc: Global, row: &str) -> Result<(), AllocError> {
    let (program, wanted) = pair(row);
    let table = table(alloc, program, 9999)?;
    let mut stop = Once {
        looks: 0,
        at: 0,
        raised: false,
    };
    let (run, loose) = run_judged(alloc, &table, &[], &mut stop);
    expect_text(rt, shown(alloc, &run, loose), wanted, row)
}

#[test]
fn the_first_node_whose_operands_see_one_another_is_found(
    rt: HostRuntime,
) -> Result<(), AllocError> {
    for row in rows(ORDERS) {
        check(&rt, rt.alloc(), row)?;
    }
    Ok(())
}
