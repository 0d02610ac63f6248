use crate::texts::named;
use cr_scopes::{Entity, NameFault, Names};
use std::alloc::{AllocError, Global};
use std::process::Abort;
use std::test::Fail;

// A text, and its entities, each by the tokens that declare it and those that use it, a tag with a `t` before; or its fault.
const NAMES: &str = "\
int main(){return x;} => unknown 6
int x;int main(){return x;} => 1/9 4/
int f(int a){return a;} => 1/ 4/8
int f(int a){int a;} => twice 8
int f(int a,int a){} => twice 7
int f(int f){return f;} => 1/ 4/8
int f(int a);int a; => 1/ 4/ 8/
int f(int a[x],int b){return y;} => unknown 6
typedef int f;int f(int a,int a); => twice 5
int main(){{int f();}{int f();f();}} => 1/ 7,14/18
int main(){{int f();}f();} => unknown 12
int x;int main(){int x;{extern int x;x;}} => 1,14/16 4/ 9/
int main(){int x;extern int x;} => twice 10
extern int x;int x; => 2,5/
int x;static int x; => 1,5/
int main(){int x=x;} => 1/ 6/8
int main(){int x[sizeof x];} => unknown 9
int main(){for(int i=0;;)i;i;} => unknown 16
int main(){for(int i=0;;){int i;}} => 1/ 8/ 16/
int main(){if(sizeof(enum{A}))A;A;} => unknown 17
int main(){int i;typedef i;} => twice 9
int x;int main(){typedef int x;x y;} => 1/ 4/ 10/12 13/
typedef int T;typedef int T;T x; => 2,6/8 9/
typedef int T;int T; => twice 5
int C;enum{C}; => twice 5
enum{A,B,A}; => twice 6
enum{A=A}; => unknown 4
enum{A,B=A};int f(){int A=B;return A;} => 2/6 4/17 10/ 15/20
struct s{int a;}x;int main(){struct s;struct s*p;} => t1/ 7/ 10/ t15/18 20/
struct s{int a;}x;int main(){struct s*p;} => t1/15 7/ 10/ 17/
struct s*p;struct s{int a;};struct s q; => t1,6/14 3/ 15/
struct s{int a;};int main(){struct s*p;struct s{int b;}q;} => t1/14 9/ 16/ t19/ 25/
int f(struct s{int a;}*p){struct s q;return 0;} => 1/ t4/15 11/ 16/
struct s{int a;};struct s{int a;}; => twice 9
struct s{int a;};enum s{A}; => twice 9
struct p{int n;struct p*n;}; => twice 9
struct p{struct{int n;}m;int n;}; => t1/
int f(){return f(sizeof(enum{f}));} => 1/6 12/";

fn expect_line(rt: &impl Abort, alloc: Global, line: &str) -> Result<(), Fail> {
    let (text, wanted) = line.split_once(" => ").ok_or("a row")?;
    let shown = shown_of(alloc, text)?;
    assert!(rt; shown.as_str() == wanted, "{text}: {shown}");
    Ok(())
}

#[test]
fn names_stand_for_what_is_in_scope(rt: HostRuntime) -> Result<(), Fail> {
    for line in NAMES.split('\n') {
        expect_line(&rt, rt.alloc(), line)?;
    }
    Ok(())
}

fn shown_of(alloc: Global, text: &str) -> Result<String, AllocError> {
    match named(alloc, text)? {
        None => String::from_str(alloc, "no unit"),
        Some(Err(fault)) => fault_shown(alloc, fault),
        Some(Ok(names)) => entities_shown(alloc, &names),
    }
}

fn fault_shown(alloc: Global, fault: NameFault) -> Result<String, AllocError> {
    match fault {
        NameFault::NoMemory => Err(AllocError),
        NameFault::Unknown(token) => format!(in alloc; "unknown {token}"),
        NameFault::Twice(token) => format!(in alloc; "twice {token}"),
    }
}

fn entities_shown(alloc: Global, names: &Names) -> Result<String, AllocError> {
    let mut out = String::new(alloc);
    push_entities(alloc, &mut out, names.entities.as_slice())?;
    Ok(out)
}

fn push_entities(alloc: Global, out: &mut String, entities: &[Entity]) -> Result<(), AllocError> {
    for entity in entities {
        if !out.is_empty() {
            out.push_str(" ")?;
        }
        push_entity(alloc, out, entity)?;
    }
    Ok(())
}

fn push_entity(alloc: Global, out: &mut String, entity: &Entity) -> Result<(), AllocError> {
    if entity.space == 1 {
        out.push_str("t")?;
    }
    push_tokens(alloc, out, entity.declared.as_slice())?;
    out.push_str("/")?;
    push_tokens(alloc, out, entity.uses.as_slice())
}

fn push_tokens(alloc: Global, out: &mut String, tokens: &[u32]) -> Result<(), AllocError> {
    let mut comma = "";
    for token in tokens {
        out.push_str(format!(in alloc; "{comma}{token}")?.as_str())?;
        comma = ",";
    }
    Ok(())
}
