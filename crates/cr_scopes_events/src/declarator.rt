ghost use Rattle.std.specs.Prelude.{◌≡◌, Some, None, slice_get};
ghost use Rattle.cr_scopes_events.specs.Declarators.{declarator_of, derived, innermost, nowhere, descent_by, descent_into, IsDescent};

use cr_syntax::{Kind, Node};

/// What an identifier's own declarator derives first from the type that it stands in (C11 6.7.6).
#[derive(Clone, Copy)]
pub enum Derivation {
    /// nothing
    Nothing,
    /// a function, by the declarator of this number
    Function(u32),
    /// a pointer or an array
    Other,
}

/// What a declarator declares.
#[derive(Clone, Copy)]
pub struct Declarator {
    /// The token of the declared identifier; None where the node is no declarator.
    pub name: Option<u32>,
    /// What is derived next to it.
    pub next: Derivation,
}

const NOWHERE: Declarator = Declarator {
    name: None,
    next: Derivation::Nothing,
};

enum Descent {
    Ends(Declarator),
    Goes(Derivation, u32),
}

/// What the declarator of a number declares.
#[tactic(auto, using(crate::proofs::Descents::plain, crate::proofs::Descents::derived_twice))]
pub fn declared_by(nodes: &[Node], at: u32) -> Declarator
    ensures { result ≡ declarator_of nodes.now at }
{
    let mut inner = at;
    let mut next = Derivation::Nothing;
    loop {
        match look_inside(nodes, inner) {
            Descent::Ends(declarator) => return outside(next, declarator),
            Descent::Goes(derivation, part) => {
                next = innermost(next, derivation);
                inner = part;
            }
        }
    }
}

fn outside(next: Derivation, declarator: Declarator) -> Declarator
    ensures { result ≡ derived next declarator }
{
    Declarator {
        next: innermost(next, declarator.next),
        ..declarator
    }
}

fn innermost(outer: Derivation, inner: Derivation) -> Derivation
    ensures { result ≡ innermost outer inner }
{
    match inner {
        Derivation::Nothing => outer,
        Derivation::Function(node) => Derivation::Function(node),
        Derivation::Other => Derivation::Other,
    }
}

// One step from a declarator towards its name.

fn look_inside(nodes: &[Node], at: u32) -> Descent
    ensures { IsDescent nodes.now at result }
{
    if (at as usize) < nodes.len() {
        step_by(&nodes[at as usize], at)
    } else {
        Descent::Ends(NOWHERE)
    }
}

fn step_by(node: &Node, at: u32) -> Descent
    ensures { result ≡ descent_by node.now.kind at node.now }
{
    match node.kind {
        Kind::NameDeclarator => Descent::Ends(Declarator {
            name: Some(node.first),
            next: Derivation::Nothing,
        }),
        Kind::GroupDeclarator => into(Derivation::Nothing, at, node.parts.as_slice()),
        Kind::PointerDeclarator => into(Derivation::Other, at, node.parts.as_slice()),
        Kind::ArrayDeclarator => into(Derivation::Other, at, node.parts.as_slice()),
        Kind::FunctionDeclarator => into(Derivation::Function(at), at, node.parts.as_slice()),
        _ => Descent::Ends(NOWHERE),
    }
}

fn into(outer: Derivation, at: u32, parts: &[u32]) -> Descent
    ensures { result ≡ descent_into outer at parts.now }
{
    match parts {
        [] => Descent::Ends(outside(outer, NOWHERE)),
        [part, ..] => if *part < at {
            Descent::Goes(outer, *part)
        } else {
            Descent::Ends(outside(outer, NOWHERE))
        },
    }
}
