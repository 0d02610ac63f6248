ghost use Rattle.cr_syntax.specs.Words.{AreSpans};

use crate::texts::unit_of;
use cr_scopes::{Names, resolve};
use cr_scopes_bindings::{Bindings, TagBinding};
use cr_syntax::{Node, Unit};
use std::alloc::{AllocError, Global};
use std::process::Abort;
use std::test::Fail;

// A text, and what is known of its names, nodes by their first tokens. Of a token T: `T>D=F`, the declaration of its name that is visible
// there, and the first one of what it stands for; `T<D`, the declaration before that declares the same. Of the specifier S of a structure:
// `S#F/C`, the one that declares its tag first and the one with its content, and `+` where it declares the tag itself.
const DECLARATIONS: &str = "\
int x;int main(){return x;} => 9>1=1
int x;int main(){int x;{extern int x;x;}} => 9>1=9 14>9=1 14<1 16>14=1
int x;int main(){{extern int x;}return x;} => 11>1=1 11<1 15>1=1
int f(int a){return a;} => 8>4=4
int f(int a);int f(int a){return f(a);} => 8>1=1 8<1 15>8=1 17>11=11
int x;static int x; => 5>1=1 5<1
int f(int*p);int f(int a[sizeof f(0)]){return 0;} => 9>1=1 9<1 15>1=1
enum{A,B=A};int f(){int A=B;return A;} => 6>2=2 15>2=15 17>4=4 20>15=15
int *a[3];int main(){return sizeof a;} => 14>1=1
struct s*p;struct s{int a;};struct s q; => 0#0/5+ 5#0/5+ 13#0/5
struct s{int a;}x;int main(){struct s;struct s*p;} => 0#0/0+ 14#14/+ 17#14/";

fn expect_line(rt: &impl Abort, alloc: Global, line: &str) -> Result<(), Fail> {
    let (text, wanted) = line.split_once(" => ").ok_or("a row")?;
    let shown = shown_of(alloc, text)?;
    assert!(rt; shown.trim_start() == wanted, "{text}:{shown}");
    Ok(())
}

#[test]
fn names_have_their_declarations(rt: HostRuntime) -> Result<(), Fail> {
    for line in DECLARATIONS.split('\n') {
        expect_line(&rt, rt.alloc(), line)?;
    }
    Ok(())
}

fn shown_of(alloc: Global, text: &str) -> Result<String, AllocError> {
    match unit_of(alloc, text)? {
        Some(unit) => unit_shown(alloc, text, &unit),
        None => Ok(String::new(alloc)),
    }
}

fn unit_shown(alloc: Global, text: &str, unit: &Unit) -> Result<String, AllocError>
    requires { AreSpans text.now unit.now.tokens.list.items }
{
    match resolve(alloc, text.as_bytes(), unit) {
        Ok(names) => names_shown(alloc, text, unit, &names),
        Err(_) => Ok(String::new(alloc)),
    }
}

fn names_shown(alloc: Global, text: &str, unit: &Unit, names: &Names) -> Result<String, AllocError>
    requires { AreSpans text.now unit.now.tokens.list.items }
{
    let bindings = Bindings::new(alloc, text.as_bytes(), unit, names)?;
    let mut out = String::new(alloc);
    push_tokens(alloc, &mut out, unit, names, &bindings)?;
    push_tags(alloc, &mut out, unit, names, &bindings)?;
    Ok(out)
}

fn number_of(at: usize) -> Result<u32, AllocError> {
    u32::try_from(at).map_err(|_| AllocError)
}

// The first token of a node, where there is one.
fn first(nodes: &[Node], node: Option<u32>) -> Option<u32> {
    Some(nodes.get(node? as usize)?.first)
}

// A mark, and the number of a token, where there is one.
fn push_token(
    alloc: Global,
    out: &mut String,
    mark: char,
    token: Option<u32>,
) -> Result<(), AllocError> {
    out.push(mark)?;
    match token {
        Some(token) => push_number(alloc, out, token),
        None => Ok(()),
    }
}

fn push_number(alloc: Global, out: &mut String, number: u32) -> Result<(), AllocError> {
    let number = format!(in alloc; "{number}")?;
    out.push_str(number.as_str())
}

fn push_visible(
    alloc: Global,
    out: &mut String,
    token: u32,
    visible: Option<u32>,
    known: Option<u32>,
) -> Result<(), AllocError> {
    if visible.is_none() {
        return Ok(());
    }
    push_token(alloc, out, ' ', Some(token))?;
    push_token(alloc, out, '>', visible)?;
    push_token(alloc, out, '=', known)
}

fn push_earlier(
    alloc: Global,
    out: &mut String,
    token: u32,
    earlier: Option<u32>,
) -> Result<(), AllocError> {
    if earlier.is_none() {
        return Ok(());
    }
    push_token(alloc, out, ' ', Some(token))?;
    push_token(alloc, out, '<', earlier)
}

fn push_tag(
    alloc: Global,
    out: &mut String,
    node: &Node,
    nodes: &[Node],
    tag: TagBinding,
) -> Result<(), AllocError> {
    push_token(alloc, out, ' ', Some(node.first))?;
    push_token(alloc, out, '#', first(nodes, tag.first))?;
    push_token(alloc, out, '/', first(nodes, tag.content))?;
    out.push_str(if tag.declares { "+" } else { "" })
}

fn push_tokens(
    alloc: Global,
    out: &mut String,
    unit: &Unit,
    names: &Names,
    bindings: &Bindings,
) -> Result<(), AllocError> {
    let nodes = unit.nodes.as_slice();
    for (at, declares) in bindings.declaring.as_slice().iter().enumerate() {
        let token = number_of(at)?;
        let visible = first(nodes, bindings.visible_at(token));
        let known = first(nodes, bindings.first_at(names, token));
        push_visible(alloc, out, token, visible, known)?;
        if *declares {
            let earlier = first(nodes, bindings.earlier_at(token));
            push_earlier(alloc, out, token, earlier)?;
        }
    }
    Ok(())
}

fn push_tags(
    alloc: Global,
    out: &mut String,
    unit: &Unit,
    names: &Names,
    bindings: &Bindings,
) -> Result<(), AllocError> {
    let (nodes, tokens) = (unit.nodes.as_slice(), unit.tokens.list.as_slice());
    for (at, node) in nodes.iter().enumerate() {
        if let Some(tag) = bindings.tag_of(names, nodes, tokens, number_of(at)?) {
            push_tag(alloc, out, node, nodes, tag)?;
        }
    }
    Ok(())
}
