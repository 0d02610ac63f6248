use crate::{constant_in, row_of};
use cr_check_constants::Constant;
use cr_check_initialisers::Anchor;
use cr_check_operands::Fact;
use cr_check_types::Table;
use cr_rows::Row;
use cr_syntax::{Kind, Node};
use std::alloc::{AllocError, Global};

/// The nodes of an initialiser, with what its expressions have.
#[derive(Drop)]
pub(crate) struct Read {
    pub nodes: Vec<Node>,
    pub facts: Vec<Fact>,
    pub anchors: Vec<Anchor>,
}

/// A list whose end is still to come.
#[derive(Drop)]
struct Open {
    first: u32,
    parts: Row<u32>,
}

/// Reads an initialiser in words, behind the nodes 0 and 1; the words are its tokens, from 1 on. A number is an int constant, `"ab"` a
/// string literal, and a letter an expression by `typed`.
pub(crate) fn nodes_of(alloc: Global, table: &mut Table, text: &str) -> Result<Read, AllocError> {
    let mut read = Read {
        nodes: Vec::new(alloc),
        facts: Vec::new(alloc),
        anchors: Vec::new(alloc),
    };
    read_all(alloc, table, &mut read, text)?;
    Ok(read)
}

fn read_all(
    alloc: Global,
    table: &mut Table,
    read: &mut Read,
    text: &str,
) -> Result<(), AllocError> {
    for _ in 0..2 {
        leaf(alloc, table, read, Kind::StructContent, 0, "u")?;
    }
    read_words(alloc, table, read, text)
}

fn read_words(
    alloc: Global,
    table: &mut Table,
    read: &mut Read,
    text: &str,
) -> Result<(), AllocError> {
    let mut lists: Vec<Open> = Vec::new(alloc);
    let mut token: u32 = 0;
    for word in text.split(' ') {
        token = token.saturating_add(1);
        read_word(alloc, table, read, &mut lists, token, word)?;
    }
    Ok(())
}

fn read_word(
    alloc: Global,
    table: &mut Table,
    read: &mut Read,
    lists: &mut Vec<Open>,
    token: u32,
    word: &str,
) -> Result<(), AllocError> {
    match word {
        "{" => open_list(alloc, lists, token),
        "}" => {
            let node = closed(read, lists.pop())?;
            add_part(lists, node)
        }
        _ => {
            let node = leaf(alloc, table, read, kind_of(word), token, word)?;
            add_part(lists, node)
        }
    }
}

fn open_list(alloc: Global, lists: &mut Vec<Open>, first: u32) -> Result<(), AllocError> {
    lists.push(Open {
        first,
        parts: Row::new(alloc),
    })?;
    Ok(())
}

// Adds a node to the innermost list, if there is one.
fn add_part(lists: &mut Vec<Open>, node: u32) -> Result<(), AllocError> {
    match lists.last_mut() {
        Some(list) => list.parts.push(node),
        None => Ok(()),
    }
}

fn kind_of(word: &str) -> Kind {
    if word.starts_with("\"") {
        Kind::Text
    } else {
        Kind::Identifier
    }
}

fn closed(read: &mut Read, list: Option<Open>) -> Result<u32, AllocError> {
    match list {
        Some(list) => {
            let node = Node {
                kind: Kind::InitializerList,
                first: list.first,
                last: list.first,
                parts: list.parts,
            };
            let none = expression(0, Constant::NotConstant);
            add(read, node, none, Anchor::Moving)
        }
        None => Ok(0),
    }
}

fn leaf(
    alloc: Global,
    table: &mut Table,
    read: &mut Read,
    kind: Kind,
    token: u32,
    word: &str,
) -> Result<u32, AllocError> {
    let (words, anchor) = typed(word);
    let row = if word == "u" {
        0
    } else {
        row_of(table, words)?
    };
    let node = Node {
        kind,
        first: token,
        last: token,
        parts: Row::new(alloc),
    };
    add(read, node, expression(row, constant_in(word)), anchor)
}

fn add(read: &mut Read, node: Node, fact: Fact, anchor: Anchor) -> Result<u32, AllocError> {
    let at = read.nodes.len();
    read.nodes.push(node)?;
    read.facts.push(fact)?;
    read.anchors.push(anchor)?;
    u32::try_from(at).map_err(|_| AllocError)
}

// All are places, as arrays and literals are in a file: what the others hold is of the same type.
fn expression(row: u32, constant: Constant) -> Fact {
    Fact {
        row,
        lvalue: true,
        register: false,
        constant,
        null: false,
    }
}

// The type of an expression, and what of its address is constant: `x` is an int, `p` a pointer to int, `s` the structure of node 0; `a`
// is a static array, and `q` the address of a static int. `u` has no type.
fn typed(word: &str) -> (&'static str, Anchor) {
    match word {
        "p" => ("* int", Anchor::Moving),
        "s" => ("S0", Anchor::Moving),
        "a" => ("[2] int", Anchor::Place),
        "q" => ("* int", Anchor::Address),
        "\"\"" => ("[1] char", Anchor::Place),
        "\"ab\"" => ("[3] char", Anchor::Place),
        "\"abc\"" => ("[4] char", Anchor::Place),
        _ => ("int", Anchor::Moving),
    }
}
