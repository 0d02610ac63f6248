// Logs with their files. What is wanted was found by another reading of the rules.
use crate::checked::{bytes_of, line_of};
use std::alloc::{AllocError, Global};
use std::process::Abort;

/// What is put, behind it the steps and the passes, and then the copy, the log and the file.
const ROWS: &str = r#"
t.c replay yes accepted 1¦1000000¦ltbusciprf¦int a;␊int b;␊int main(){}␊¦l 14 0 98 16␊end fixed 98 34␊¦int b;␊int main(){}␊
creduce: replay: line 1¦1000000¦ltbusciprf¦int a;␊int b;␊int main(){}␊¦l 14 0 97 16␊end fixed 98 34␊¦int b;␊int main(){}␊
creduce: replay: line 2¦1000000¦ltbusciprf¦int a;␊int b;␊int main(){}␊¦l 14 0 98 16␊end fixed 98 34␊¦int b;␊int main(){}␊␊
creduce: replay: line 1¦1000000¦ltbusciprf¦int a;␊int b;␊int main(){}␊¦∅¦int b;␊int main(){}␊
t.c replay yes accepted 0¦1000000¦ltbusciprf¦int a;␊int b;␊int main(){}␊¦end fixed 132 0␊¦int a;␊int b;␊int main(){}␊
t.c replay yes accepted 0¦1000000¦ltbusciprf¦int a;␊int b;␊int main(){}␊¦end limit 132 5␊¦int a;␊int b;␊int main(){}␊
creduce: replay: line 1¦1000000¦ltbusciprf¦int a;␊int b;␊int main(){}␊¦end fixed 131 0␊¦int a;␊int b;␊int main(){}␊
creduce: replay: line 1¦1000000¦ltbusciprf¦int a;␊int b;␊int main(){}␊¦l 14 0 98 0␊end fixed 98 34␊¦int b;␊int main(){}␊
creduce: replay: line 2¦1000000¦ltbusciprf¦int a;␊int b;␊int main(){}␊¦l 14 0 98 16␊end fixed 98 15␊¦int b;␊int main(){}␊
t.c replay yes accepted 1¦1000000¦ltbusciprf¦int a;␊int b;␊int main(){}␊¦l 14 0 98 16␊end fixed 98 16␊¦int b;␊int main(){}␊
creduce: replay: line 1¦1000000¦ltbusciprf¦int a;␊int b;␊int main(){}␊¦l 14 3 98 16␊end fixed 98 34␊¦int b;␊int main(){}␊
creduce: replay: line 1¦1000000¦ltbusciprf¦int a;␊int b;␊int main(){}␊¦l 15 0 98 16␊end fixed 98 34␊¦int b;␊int main(){}␊
creduce: replay: line 1¦1000000¦ltbusciprf¦int a;␊int b;␊int main(){}␊¦l 14 2 98 16␊end fixed 98 34␊¦int a;␊int b;␊
creduce: replay: line 1¦1000000¦t¦int a;␊int b;␊int main(){}␊¦l 14 0 98 16␊end fixed 98 34␊¦int b;␊int main(){}␊
t.c replay yes accepted 1¦1000000¦tl¦int a;␊int b;␊int main(){}␊¦l 14 0 98 16␊end fixed 98 34␊¦int b;␊int main(){}␊
creduce: replay: line 1¦1000000¦ltbusciprf¦int a;␊int b;␊int main(){}␊¦l 14 00 98 16␊end fixed 98 34␊¦int b;␊int main(){}␊
creduce: replay: line 2¦1000000¦ltbusciprf¦int a;␊int b;␊int main(){}␊¦l 14 0 98 16␊end fixed 98 34¦int b;␊int main(){}␊
creduce: replay: line 3¦1000000¦ltbusciprf¦int a;␊int b;␊int main(){}␊¦l 14 0 98 16␊end fixed 98 34␊␊¦int b;␊int main(){}␊
t.c replay yes accepted 4¦1000000¦ltbusciprf¦int main(void){return 0;}␊¦t 3 6 85 32␊t 4 3 73 37␊t 4 5 64 40␊f 0 0 63 48␊end fixed 63 85␊¦int main(){}
creduce: replay: line 3¦1000000¦ltbusciprf¦int main(void){return 0;}␊¦t 3 6 85 32␊t 4 3 73 37␊t 4 5 64 37␊f 0 0 63 48␊end fixed 63 85␊¦int main(){}
creduce: replay: line 3¦1000000¦ltbusciprf¦int main(void){return 0;}␊¦t 3 6 85 32␊t 4 3 73 37␊t 4 6 64 40␊f 0 0 63 48␊end fixed 63 85␊¦int main(){}
creduce: t.c.orig:1: left the profile: N1¦4¦ltbusciprf¦int main(){1;2;3;return 0;}¦s 0 3 167 1␊end limit 167 1␊¦int main(){1;2;3;}
creduce: replay: line 1¦9¦ltbusciprf¦int main(){1;2;return 0;}¦s 0 2 0 1␊end limit 0 1␊¦int main(){1;2;}
creduce: replay: line 1¦5¦ltbusciprf¦int main(){int i=1;if(i){}}¦∅¦∅
t.c replay yes accepted 3¦1000000¦icps¦int f(int x){return x+1;}int main(){return f(2*3);}¦s 0 1 202 2␊c 0 0 180 3␊p 0 0 168 6␊end fixed 168 9␊¦int f(void){return 0;}int main(){}
creduce: replay: line 1¦1000000¦ltbusciprf¦int f(int x){return x+1;}int main(){return f(2*3);}¦t 1 20 202 46␊t 2 7 156 54␊end limit 156 60␊¦int f(int x){;}int main(){}
creduce: replay: line 2¦1000000¦icps¦enum e{A,B};struct s{int m,n;}x;␊int main(){x.m=A;␊if(x.m){return B;}else return 0;}␊¦s 0 0 432 1␊s 0 0 271 1␊end fixed 271 2␊¦enum e{A,B};struct s{int m,n;}x;␊int main(){␊}␊
creduce: replay: line 3¦1000000¦icps¦int f(int x){return x+1;}int main(){return f(2*3);}¦i 0 0 173 22␊c 2 0 155 38␊c 12 1 137 40␊end fixed 137 58␊¦int main(){return 2*3+1;}
t.c replay yes accepted 3¦1000000¦icps¦int f(int x){return x+1;}int main(){return f(2*3);}¦s 0 1 202 2␊c 0 0 180 3␊p 0 0 168 6␊end fixed 168 9␊¦int f(void){return 0;}int main(){}
creduce: replay: line 3¦1000000¦icps¦enum e{A,B};struct s{int m,n;}x;␊int main(){x.m=A;␊if(x.m){return B;}else return 0;}␊¦s 0 0 432 1␊s 0 0 271 3␊end fixed 271 2␊¦enum e{A,B};struct s{int m,n;}x;␊int main(){␊}␊
creduce: replay: line 2¦1000000¦ltbusciprf¦int a,b;int main(){return b;}␊¦t 3 1 133 35␊t 3 8 105 43␊t 4 8 97 53␊end limit 97 60␊¦int b;int main(){}␊
creduce: replay: line 1¦1000000¦ltbu¦int a,b;int main(){return b;}␊¦t 3 2 133 35␊t 3 8 106 43␊t 4 8 97 53␊end limit 97 60␊¦int b;int main(){}␊
t.c replay yes accepted 6¦1000000¦ltbusciprf¦enum e{A,B};struct s{int m,n;}x;␊int main(){x.m=A;␊if(x.m){return B;}else return 0;}␊¦t 2 24 453 113␊t 2 37 407 127␊t 3 13 386 141␊t 3 22 365 151␊t 4 1 353 164␊t 4 8 341 172␊end limit 341 200␊¦enum {A,B};struct {int m;}x;␊int main(){␊if(x.m){return B;}}␊
creduce: replay: line 3¦1000000¦ltbu¦int a,b;int main(){return b;}␊¦t 3 1 133 35␊t 3 8 106 43␊t 4 9 97 53␊u 0 0 64 61␊end fixed 64 96␊¦int main(){}␊
t.c replay yes accepted 3¦1000000¦icps¦int f(int x){return x+1;}int main(){return f(2*3);}¦i 0 0 173 22␊c 2 0 155 38␊c 2 1 137 40␊end fixed 137 59␊¦int main(){return 2*3+1;}
creduce: replay: line 1¦1000000¦icps¦enum e{A,B};struct s{int m,n;}x;␊int main(){x.m=A;␊if(x.m){return B;}else return 0;}␊¦s 0 1 432 1␊s 0 0 271 2␊end fixed 271 2␊¦enum e{A,B};struct s{int m,n;}x;␊int main(){␊}␊
t.c replay yes accepted 5¦1000000¦ltbu¦int f(int x){return x+1;}int main(){return f(2*3);}¦t 1 18 202 46␊t 2 7 156 54␊t 3 3 132 63␊t 4 5 123 78␊u 0 0 63 98␊end fixed 63 133␊¦int main(){}
creduce: replay: line 4¦1000000¦icps¦enum e{A,B};struct s{int m,n;}x;␊int main(){x.m=A;␊if(x.m){return B;}else return 0;}␊¦s 0 0 432 1␊s 0 1 396 3␊s 2 0 304 15␊end fixed 304 10␊¦enum e{A,B};struct s{int m,n;}x;␊int main(){␊return 0;}␊
creduce: replay: line 3¦1000000¦icps¦enum e{A,B};struct s{int m,n;}x;␊int main(){x.m=A;␊if(x.m){return B;}else return 0;}␊¦s 0 0 432 1␊s 0 1 396 3␊s 2 0 314 5␊end fixed 304 10␊¦enum e{A,B};struct s{int m,n;}x;␊int main(){␊return 0;}␊
creduce: replay: line 2¦1000000¦ltbu¦int a,b;int main(){return b;}␊¦t 3 1 133 35␊t 2 8 106 43␊t 4 8 97 53␊end limit 97 60␊¦int b;int main(){}␊
"#;

/// The same of logs that were forged: cursors beyond every level and every width, and numbers that are as large as they may be, and larger.
const FORGED: &str = "\
creduce: replay: line 1¦1000000¦ltbusciprf¦int a;␊int b;␊int main(){}␊¦l 255 0 98 16␊end fixed 98 34␊¦int b;␊int main(){}␊
creduce: replay: line 1¦1000000¦ltbusciprf¦int a;␊int b;␊int main(){}␊¦f 99 0 98 16␊end fixed 98 34␊¦int b;␊int main(){}␊
creduce: replay: line 1¦1000000¦ltbusciprf¦int a;␊int b;␊int main(){}␊¦l 256 0 98 16␊end fixed 98 34␊¦int b;␊int main(){}␊
creduce: replay: line 1¦1000000¦ltbusciprf¦int a;␊int b;␊int main(){}␊¦l 14 18446744073709551615 98 16␊end fixed 98 34␊¦int b;␊int main(){}␊
creduce: replay: line 1¦1000000¦ltbusciprf¦int a;␊int b;␊int main(){}␊¦l 14 0 18446744073709551615 16␊end fixed 98 34␊¦int b;␊int main(){}␊
creduce: replay: line 1¦1000000¦ltbusciprf¦int a;␊int b;␊int main(){}␊¦l 14 0 98 18446744073709551616␊end fixed 98 34␊¦int b;␊int main(){}␊
creduce: replay: line 2¦1000000¦ltbusciprf¦int a;␊int b;␊int main(){}␊¦l 14 0 98 18446744073709551615␊end fixed 98 34␊¦int b;␊int main(){}␊
t.c replay yes accepted 1¦1000000¦ltbusciprf¦int a;␊int b;␊int main(){}␊¦l 14 0 98 18446744073709551615␊end fixed 98 18446744073709551615␊¦int b;␊int main(){}␊
creduce: replay: line 2¦1000000¦ltbusciprf¦int a;␊int b;␊int main(){}␊¦l 14 0 98 16␊end fixed 18446744073709551615 34␊¦int b;␊int main(){}␊
creduce: replay: line 2¦1000000¦ltbusciprf¦int a;␊int b;␊int main(){}␊¦l 14 0 98 16␊l 14 0 98 17␊end fixed 98 34␊¦int b;␊int main(){}␊
creduce: replay: line 3¦1000000¦ltbusciprf¦int a;␊int b;␊int main(){}␊¦l 14 0 98 16␊end fixed 98 34␊l 14 0 98 16␊¦int b;␊int main(){}␊
";

// A log and its files, as a row has them: the steps, the passes, the copy, the log and the file.
fn line_in(alloc: Global, row: &str) -> Result<String, AllocError> {
    let mut cells = row.split('¦');
    let steps = cells.next().unwrap_or("").parse().unwrap_or(0u64);
    let letters = cells.next().unwrap_or("");
    let copy = bytes_of(alloc, cells.next().unwrap_or(""))?;
    let log = bytes_of(alloc, cells.next().unwrap_or(""))?;
    let file = bytes_of(alloc, cells.next().unwrap_or(""))?;
    line_of(alloc, steps, letters, &copy, &log, &file)
}

fn expect_row(rt: &impl Abort, alloc: Global, row: &str) -> Result<(), AllocError> {
    let (wanted, given) = row.split_once('¦').unwrap_or(("", ""));
    let found = line_in(alloc, given)?;
    assert!(rt; found.as_str() == wanted, "{row}: {found}");
    Ok(())
}

#[test]
fn a_log_is_taken_where_it_leads_to_the_file_and_else_its_first_line_that_fails_is_named(
    rt: HostRuntime,
) -> Result<(), AllocError> {
    for row in ROWS.trim_start().lines() {
        expect_row(&rt, rt.alloc(), row)?;
    }
    Ok(())
}

#[test]
fn a_forged_log_is_refused_at_its_line_whatever_numbers_it_has(
    rt: HostRuntime,
) -> Result<(), AllocError> {
    for row in FORGED.lines() {
        expect_row(&rt, rt.alloc(), row)?;
    }
    Ok(())
}
