// Programs whose run reaches the label A with its statement's own expression, and programs whose run doesn't. What is wanted of each was worked
// out by hand.
use crate::shown::{expect_all_by, most, ruled_by};
use cr_lawful_analysis::LastRead;
use cr_reached::ReachedLaw;
use std::alloc::{AllocError, Global};
use std::test::Fail;

// A ruling of the law of programs whose run reaches A, and the file, as in `rulings`. N9 is `left 9`, and stands on the line of the first A.
const REACHED: &str = r#"
lawful 0¦int x;int main(void){A:if(x)x=2;return x;}
left 9 2¦int x;int main(void){\nA:if(x&&x)x=2;return x;}
lawful 2¦int x=1;int main(void){A:if(x&&x)x=2;return x;}
lawful 0¦int main(void){A:;return 0;}
left 9 2¦int f(void){\nA:return 1;}int main(void){return 0;}
left 9 2¦int main(void){goto B;\nA:;B:return 0;}
lawful 0¦int x;int main(void){A:sizeof x;return 0;}
lawful 0¦int f(void){return 1;}int main(void){A:sizeof f();return 0;}
lawful 1¦int f(void){A:return 1;}int g(void){A:return 2;}int main(void){return f();}
lawful 2¦int f(void){A:return 1;}int g(void){A:return 2;}int main(void){return g();}
left 9 2¦int x;int f(void){\nA:return 1;}int g(void){\nA:return x&&x;}int main(void){return g();}
left 9 1¦\nint main(void){\nB:return 0;}
left 9 1¦\nint main(void){\nAA:return 0;}
"#;

// The statements, each with an expression of its own, or without.
const STATEMENTS: &str = r#"
left 9 2¦int x;int main(void){\nA:return x&&x;}
left 9 2¦int x;int main(void){\nA:x=x?1:2;return 0;}
left 9 2¦int x=1;int main(void){\nA:x=x||x;return 0;}
lawful 0¦int x;int main(void){A:while(x)x=x&&x;return 0;}
left 9 2¦int x;int main(void){\nA:while(x&&x);return 0;}
lawful 0¦int x;int main(void){A:do;while(x);return 0;}
left 9 2¦int x;int main(void){\nA:do break;while(x);return 0;}
lawful 0¦int x;int main(void){A:switch(x){case 1:return x&&x;}return 0;}
left 9 2¦int x;int main(void){\nA:switch(x&&x){case 1:return 2;}return 0;}
lawful 0¦int x;int main(void){A:for(;x;x=x&&x);return 0;}
lawful 0¦int x;int main(void){A:for(int i=x;i<0;i++);return 0;}
left 9 2¦int x;int main(void){\nA:for(int i=x&&x;i<0;i++);return 0;}
left 9 2¦int x;int main(void){\nA:for(;x&&x;);return 0;}
lawful 0¦int x;int main(void){A:for(;;)break;return x&&x;}
lawful 0¦int x;int main(void){A:{x&&x;}return 0;}
left 9 2¦int x;int main(void){\nA:B:x&&x;return 0;}
lawful 0¦int x;int main(void){switch(x){case 0:A:x;}return 0;}
lawful 0¦int x;int main(void){A:goto B;B:return x&&x;}
"#;

// What is evaluated at different times counts together; a function that is called is no operand; what `exit` or `abort` cuts off is evaluated, and
// what stands behind isn't; and the operands of `[]` and `*` directly below `&` are those of `&`.
const PARTS: &str = r#"
lawful 2¦int x;int main(void){A:x=x?2:1;if(x<2)goto A;return x;}
lawful 1¦int x,y=1;int main(void){A:y=x&&y;if(!x){x=1;y=1;goto A;}return y;}
lawful 1¦int f(int a){return a;}int main(void){A:return f(1);}
lawful 0¦int f(int a){return a&&a;}int main(void){A:return f(0);}
lawful 3¦void exit(int);int main(void){A:exit(3);return 0;}
left 9 2¦void exit(int);int x;int f(void){exit(0);}int main(void){\nA:f()+x;return 0;}
lawful 0¦int a[2],i;int main(void){A:&a[i];return 0;}
left 9 2¦int a[2],i;int main(void){\nA:&a[i&&i];return 0;}
lawful 0¦int x,*p=&x;int main(void){A:&*p;return 0;}
lawful 0¦struct s{int a,b[2];}s,*p=&s;int main(void){A:p->b[s.a]=(int)s.a;return 0;}
"#;

// Jumps to the label and past it (6.8.6.1), what stands in no operand, and what a `for` declares.
const JUMPS: &str = r#"
lawful 1¦int x;int main(void){goto A;x=2;A:x=x+1;return x;}
left 9 2¦int x;int main(void){goto B;\nA:x=1;B:return x;}
lawful 0¦int x;int main(void){goto B;A:B:return x;}
lawful 0¦int x;int main(void){switch(x){A:case 0:x;}return 0;}
left 9 2¦int x;int main(void){switch(x){case 0:return 0;\nA:case 1:x;}return 0;}
lawful 0¦int x;int main(void){while(x<3){if(x==1)break;\nA:x++;}return x-1;}
lawful 0 1¦int printf(const char*,...);int main(void){A:printf("%d",1);return 0;}
lawful 0¦int main(void){A:for(int a[2]={1,2},*p=a;*p<1;);return 0;}
lawful 0¦int main(void){A:for(int i;0;);return 0;}
lawful 0¦int main(void){A:for(;0;);return 0;}
left 9 2¦int x;int main(void){\nA:for(int a[2]={x,x&&x};0;);return 0;}
left 9 2¦int x;int main(void){\nA:return sizeof x&&x&&x;}
lawful 4¦int x;int main(void){A:return x+(int)sizeof(x&&x);}
"#;

// What has a reason by the other law has that one, and not N9.
const FIRST: &str = r#"
undefined 2 2¦int main(void){\nreturn 1/0;}
left 5 1¦int x=1;int main(void){return *(unsigned*)&x;}
type 42 1¦int main(void){goto C;return 0;}
"#;

// The same where the run is to hang on no order too.
const IN_ORDER: &str = r#"
left 8 2¦int f(void){return 1;}int main(void){\nA:return f()+f();}
left 8 2¦int f(void){return 1;}int main(void){\nreturn f()+f();}
left 9 2¦int f(void){return 1;}int main(void){\nA:return f()||f();}
lawful 1¦int f(void){return 1;}int main(void){A:return f();}
undefined 2 1¦int f(void){return 1;}int main(void){A:f()+f();return 1/0;}
"#;

fn law(any_order: bool) -> ReachedLaw<'static> {
    ReachedLaw {
        limits: most(),
        name: b"A",
        any_order,
        last: None,
        runs: None,
    }
}

#[test]
fn a_run_reaches_the_label_with_its_whole_expression_or_n9_stands_there(
    rt: HostRuntime,
) -> Result<(), Fail> {
    let alloc = rt.alloc();
    expect_all_by(alloc, REACHED, &law(false))?;
    expect_all_by(alloc, STATEMENTS, &law(false))?;
    expect_all_by(alloc, PARTS, &law(false))?;
    expect_all_by(alloc, JUMPS, &law(false))
}

#[test]
fn reasons_of_the_other_law_come_first(rt: HostRuntime) -> Result<(), Fail> {
    let alloc = rt.alloc();
    expect_all_by(alloc, FIRST, &law(false))?;
    expect_all_by(alloc, IN_ORDER, &law(true))
}

// The law leaves what it read of a file that is lawful, and nothing of one whose run doesn't reach the label.
#[test]
fn what_is_read_of_a_file_is_left_where_the_label_is_reached(rt: HostRuntime) -> Result<(), Fail> {
    let alloc = rt.alloc();
    let reached = "int main(void){A:return 0;}";
    let missed = "int main(void){return 0;}";
    assert!(rt;
        left(alloc, reached)? && !left(alloc, missed)?,
        "what the law leaves is another file's, or isn't left"
    );
    Ok(())
}

fn left(alloc: Global, file: &str) -> Result<bool, AllocError> {
    let last = LastRead::new();
    let law = ReachedLaw {
        limits: most(),
        name: b"A",
        any_order: false,
        last: Some(&last),
        runs: None,
    };
    ruled_by(alloc, file.as_bytes(), &law)?;
    Ok(last.take(file.as_bytes()).is_some())
}
