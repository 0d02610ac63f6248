use crate::texts::unit_of;
use cr_check_enclosing::{Around, Place, above, all_around, repeated};
use cr_rows::Row;
use cr_syntax::{Kind, Node};
use std::alloc::{AllocError, Global};
use std::test::Fail;
use tests_rules::{expect, pair};

// A text, the kind of one of its nodes, and what the last such node has from above: the definition, the loop, the `switch`,
// what `break` leaves and the block, by their first tokens, and what specifiers are for. By hand from C11 6.8 and 6.9.
const AROUND: &str = "\
int f(void){while(1){break;}} => break 0 6 - 6 10 block
int f(void){do switch(1){case 2:continue;}while(1);} => continue 0 6 7 7 11 block
int f(void){do switch(1){case 2:continue;}while(1);} => case 0 6 7 7 11 block
int f(void){for(;;){switch(1){default:;}break;}} => break 0 6 - 6 11 block
int f(void){switch(1){default:while(1)break;}} => break 0 13 6 13 10 block
int f(void){while(1){}}int g(void){return 0;} => return 13 - - - 18 block
extern int x; => extern - - - - - file
char a; => char - - - - - file
static int f(void){} => static 0 - - - - definition
char f(int a){} => char 0 - - - - definition
int f(register int a){} => register 0 - - - - parameter
int f(char); => char - - - - - parameter
int f(int,char); => char - - - - - parameter
int f(int,char,...); => char - - - - - parameter
int f(void){auto int a;} => auto 0 - - - 5 block
int f(void){for(register int i=0;;);} => register 0 6 - 6 5 clause
int f(void){for(;;){char a;}} => char 0 6 - 6 11 block
struct s{int a;char b;}; => char - - - - - member
int a=sizeof(char); => char - - - - - name
int a=(char)1; => char - - - - - name
int a=sizeof(char*); => char - - - - - name
int f(int a[sizeof(char)]); => char - - - - - name
int f(void){int a=sizeof(struct s{char b;});} => char 0 - - - 5 member";

#[test]
fn nodes_have_what_is_around_them(rt: HostRuntime) -> Result<(), Fail> {
    let alloc = rt.alloc();
    for row in AROUND.split('\n') {
        expect_around(alloc, row)?;
    }
    Ok(())
}

#[test]
fn parts_are_below_their_node(rt: HostRuntime) -> Result<(), Fail> {
    let alloc = rt.alloc();
    match unit_of(alloc, "int x=1+2;")? {
        Some(unit) => expect_above(alloc, unit.nodes.as_slice()),
        None => Err(Fail::from("no unit")),
    }
}

#[test]
fn marks_are_found_again(rt: HostRuntime) -> Result<(), Fail> {
    let alloc = rt.alloc();
    // two switches, with equal constants in one and in both; of the three equal ones the second stands first in the text
    let marks: [Option<(u32, i128)>; 7] = [
        Some((9, 1)),
        None,
        Some((9, -1)),
        Some((12, 1)),
        Some((9, 1)),
        None,
        Some((9, 1)),
    ];
    let nodes = nodes_at(alloc, &[30, 0, 32, 34, 20, 0, 36])?;
    let again = repeated(alloc, &marks, &nodes)?;
    let told = [true, false, false, false, false, false, true];
    let holds = again.as_slice() == told.as_slice();
    assert!(rt; holds, "the rule doesn't hold");
    Ok(())
}

// Nodes without parts, each with its first token.
fn nodes_at(alloc: Global, places: &[u32]) -> Result<Vec<Node>, AllocError> {
    let mut nodes = Vec::new(alloc);
    for place in places {
        nodes.push(Node {
            kind: Kind::Case,
            first: *place,
            last: *place,
            parts: Row::new(alloc),
        })?;
    }
    Ok(nodes)
}

fn expect_around(alloc: Global, row: &str) -> Result<(), Fail> {
    let (text, rest) = pair(row, " => ");
    let (word, told) = pair(rest, " ");
    let found = around_last(alloc, text, kind_of(word))?;
    expect(row, found.as_str(), told)
}

fn expect_above(alloc: Global, nodes: &[Node]) -> Result<(), Fail> {
    let above = above(alloc, nodes)?;
    // the type, the name, both constants, their sum, the initialised declarator and the declaration
    let told = [Some(6), Some(5), Some(4), Some(4), Some(5), Some(6), None];
    if above.as_slice() == told.as_slice() {
        Ok(())
    } else {
        Err(Fail::from("a part is below another node"))
    }
}

fn around_last(alloc: Global, text: &str, kind: Kind) -> Result<String, AllocError> {
    match unit_of(alloc, text)? {
        Some(unit) => around_last_in(alloc, unit.nodes.as_slice(), kind),
        None => String::from_str(alloc, "no unit"),
    }
}

fn around_last_in(alloc: Global, nodes: &[Node], kind: Kind) -> Result<String, AllocError> {
    let above = above(alloc, nodes)?;
    let around = all_around(alloc, nodes, &above)?;
    match last_of(nodes, &around, kind) {
        Some(found) => shown(alloc, nodes, found),
        None => String::from_str(alloc, "no node"),
    }
}

fn last_of(nodes: &[Node], around: &[Around], kind: Kind) -> Option<Around> {
    let mut last = None;
    for (node, found) in nodes.iter().zip(around.iter()) {
        if node.kind == kind {
            last = Some(*found);
        }
    }
    last
}

fn shown(alloc: Global, nodes: &[Node], around: Around) -> Result<String, AllocError> {
    let mut out = String::new(alloc);
    let named = [
        around.function,
        around.iteration,
        around.switch,
        around.breakable,
        around.block,
    ];
    for number in named {
        push_first(&mut out, nodes, number)?;
    }
    out.push_str(name_of(around.place))?;
    Ok(out)
}

// Adds the first token of a node.
fn push_first(out: &mut String, nodes: &[Node], number: Option<u32>) -> Result<(), AllocError> {
    match number.and_then(|at| nodes.get(at as usize)) {
        Some(node) => write!(out, "{} ", node.first),
        None => out.push_str("- "),
    }
}

fn name_of(place: Place) -> &'static str {
    match place {
        Place::File => "file",
        Place::Definition => "definition",
        Place::Block => "block",
        Place::Clause => "clause",
        Place::Parameter => "parameter",
        Place::Member => "member",
        Place::Name => "name",
    }
}

fn kind_of(word: &str) -> Kind {
    match word {
        "break" => Kind::Break,
        "continue" => Kind::Continue,
        "case" => Kind::Case,
        "return" => Kind::Return,
        "extern" => Kind::Extern,
        "static" => Kind::Static,
        "register" => Kind::Register,
        "auto" => Kind::Auto,
        _ => Kind::Char,
    }
}
