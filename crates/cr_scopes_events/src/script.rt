ghost use Rattle.std.specs.Prelude.{◌≡◌, ◌+◌, ◌-◌, ◌++◌, ◌∷◌, [], OnOk, slice_get, take, drop, length, true};
ghost use Rattle.std.specs.List.{flat_map};
ghost use Rattle.cr_scopes_events.specs.declared.event.Role.TheVariants as role;
ghost use Rattle.cr_scopes_events.specs.declared.event.Event.TheVariants.{Name};
ghost use Rattle.cr_scopes_events.specs.declared.event.Step.TheVariants.{Happens};
ghost use Rattle.cr_scopes_events.specs.Scripts.{kind_at, inside, block, is_identifier, tag_event, content_tag, lone_tag, lone_specifiers, declaration, list_of, own_parameters, items_of, definition, members_of, script_by, script_of};

use crate::declarator::{Derivation, declared_by};
use crate::event::{Event, Role, Step};
use crate::naming::{Naming, declaration_in, storage_of};
use crate::steps::{behind, block, first, first_at, goes_inside, happens, inside};
use cr_syntax::{Kind, Node, kind_at, parts_at};
use cr_tokens::{Token, TokenKind};
use std::alloc::AllocError;

/// What is done at the node of a number, put behind the other steps. The error is want of memory, also where the number of
/// a token doesn't fit 32 bits.
pub fn script(
    steps: &mut Vec<Step>,
    tokens: &[Token],
    nodes: &[Node],
    at: u32,
) -> Result<(), AllocError>
    ensures { OnOk result (steps.new.items ≡ steps.old.items ++ script_of tokens.now nodes.now at) }
{
    if (at as usize) < nodes.len() {
        script_by(steps, tokens, nodes, at, &nodes[at as usize])
    } else {
        Ok(())
    }
}

fn script_by(
    steps: &mut Vec<Step>,
    tokens: &[Token],
    nodes: &[Node],
    at: u32,
    node: &Node,
) -> Result<(), AllocError>
    ensures { OnOk result (steps.new.items ≡ steps.old.items ++ script_by node.now.kind tokens.now nodes.now at node.now) }
{
    let parts = node.parts.as_slice();
    match node.kind {
        Kind::FunctionDefinition => definition(steps, nodes, parts),
        Kind::Declaration => declaration(steps, nodes, parts),
        Kind::Parameter => declaration_in(steps, Naming::Parameters, nodes, parts),
        Kind::FunctionDeclarator => function_declarator(steps, parts),
        Kind::StructContent => struct_content(steps, tokens, nodes, at, node),
        Kind::EnumContent => enum_content(steps, tokens, node),
        Kind::Enumerator => enumerator(steps, node),
        Kind::StructTag => tag(steps, Role::Mentioned, node.first),
        Kind::EnumTag => tag(steps, Role::Mentioned, node.first),
        Kind::TypedefName => happens(steps, Event::Name(node.first, Role::Used)),
        Kind::Identifier => happens(steps, Event::Name(node.first, Role::Used)),
        Kind::Call => call(steps, node),
        Kind::Compound => block(steps, parts, &[], &[]),
        Kind::If => block(steps, first(parts, 1), behind(parts, 1), &[]),
        Kind::Switch => block(steps, first(parts, 1), behind(parts, 1), &[]),
        Kind::While => block(steps, first(parts, 1), behind(parts, 1), &[]),
        Kind::Do => block(steps, &[], first(parts, 1), behind(parts, 1)),
        Kind::For => for_statement(steps, parts),
        _ => inside(steps, parts),
    }
}

fn function_declarator(steps: &mut Vec<Step>, parts: &[u32]) -> Result<(), AllocError>
    ensures { OnOk result (steps.new.items ≡ steps.old.items ++ (inside (take 1 parts.now) ++ block (drop 1 parts.now) [] [])) }
{
    inside(steps, first(parts, 1))?;
    block(steps, behind(parts, 1), &[], &[])
}

// The body of a `for` is its last part.
fn for_statement(steps: &mut Vec<Step>, parts: &[u32]) -> Result<(), AllocError>
    ensures { OnOk result (steps.new.items ≡ steps.old.items ++ block (take (length parts.now - 1) parts.now) (drop (length parts.now - 1) parts.now) []) }
{
    let clauses = parts.len().saturating_sub(1);
    block(steps, first(parts, clauses), behind(parts, clauses), &[])
}

fn call(steps: &mut Vec<Step>, node: &Node) -> Result<(), AllocError>
    ensures { OnOk result (steps.new.items ≡ steps.old.items ++ (Happens (Name node.now.first role.Used) ∷ inside node.now.parts)) }
{
    happens(steps, Event::Name(node.first, Role::Used))?;
    inside(steps, node.parts.as_slice())
}

fn enumerator(steps: &mut Vec<Step>, node: &Node) -> Result<(), AllocError>
    ensures { OnOk result (steps.new.items ≡ steps.old.items ++ (inside node.now.parts ++ Happens (Name node.now.first role.Enumerator) ∷ [])) }
{
    inside(steps, node.parts.as_slice())?;
    happens(steps, Event::Name(node.first, Role::Enumerator))
}

// The tag behind `struct` or `enum`.
fn tag(steps: &mut Vec<Step>, role: Role, word: u32) -> Result<(), AllocError>
    ensures { OnOk result (steps.new.items ≡ steps.old.items ++ tag_event role (word + 1) true) }
{
    let tag = word.checked_add(1).ok_or(AllocError)?;
    happens(steps, Event::Name(tag, role))
}

fn is_identifier(tokens: &[Token], at: usize) -> bool
    ensures { result ≡ is_identifier (slice_get tokens.now at) }
{
    if at < tokens.len() {
        match tokens[at].kind {
            TokenKind::Identifier => true,
            _ => false,
        }
    } else {
        false
    }
}

fn content_tag(steps: &mut Vec<Step>, tokens: &[Token], word: u32) -> Result<(), AllocError>
    ensures { OnOk result (steps.new.items ≡ steps.old.items ++ content_tag tokens.now word) }
{
    if is_identifier(tokens, word as usize + 1) {
        tag(steps, Role::Content, word)
    } else {
        Ok(())
    }
}

fn enum_content(steps: &mut Vec<Step>, tokens: &[Token], node: &Node) -> Result<(), AllocError>
    ensures { OnOk result (steps.new.items ≡ steps.old.items ++ (content_tag tokens.now node.now.first ++ inside node.now.parts)) }
{
    content_tag(steps, tokens, node.first)?;
    inside(steps, node.parts.as_slice())
}

fn struct_content(
    steps: &mut Vec<Step>,
    tokens: &[Token],
    nodes: &[Node],
    at: u32,
    node: &Node,
) -> Result<(), AllocError>
    ensures { OnOk result (steps.new.items ≡ steps.old.items ++ (content_tag tokens.now node.now.first ++ flat_map (members_of nodes.now at) node.now.parts)) }
{
    content_tag(steps, tokens, node.first)?;
    members(steps, nodes, at, node.parts.as_slice())
}

fn members(steps: &mut Vec<Step>, nodes: &[Node], at: u32, parts: &[u32]) -> Result<(), AllocError>
    ensures { OnOk result (steps.new.items ≡ steps.old.items ++ flat_map (members_of nodes.now at) parts.now) }
{
    for part in parts {
        declaration_in(
            steps,
            Naming::Members(at),
            nodes,
            parts_at(nodes, *part as usize),
        )?;
    }
    Ok(())
}

fn declaration(steps: &mut Vec<Step>, nodes: &[Node], parts: &[u32]) -> Result<(), AllocError>
    ensures { OnOk result (steps.new.items ≡ steps.old.items ++ declaration nodes.now parts.now) }
{
    match parts {
        [] => Ok(()),
        [part] => lone_specifiers(steps, nodes, *part),
        _ => declaration_in(
            steps,
            Naming::Declared(storage_of(nodes, parts)),
            nodes,
            parts,
        ),
    }
}

fn lone_specifiers(steps: &mut Vec<Step>, nodes: &[Node], part: u32) -> Result<(), AllocError>
    ensures { OnOk result (steps.new.items ≡ steps.old.items ++ lone_specifiers nodes.now part (kind_at nodes.now part)) }
{
    match kind_at(nodes, part as usize) {
        Some(Kind::StructTag) => lone_tag(steps, first_at(nodes, part as usize)),
        _ => goes_inside(steps, part),
    }
}

fn lone_tag(steps: &mut Vec<Step>, word: Option<u32>) -> Result<(), AllocError>
    ensures { OnOk result (steps.new.items ≡ steps.old.items ++ lone_tag word) }
{
    match word {
        Some(word) => tag(steps, Role::Alone, word),
        None => Ok(()),
    }
}

fn definition(steps: &mut Vec<Step>, nodes: &[Node], parts: &[u32]) -> Result<(), AllocError>
    ensures { OnOk result (steps.new.items ≡ steps.old.items ++ definition nodes.now parts.now) }
{
    let naming = Naming::Declared(storage_of(nodes, parts));
    declaration_in(steps, naming, nodes, first(parts, 2))?;
    happens(steps, Event::Opens)?;
    own_parameters(steps, nodes, first(behind(parts, 1), 1))?;
    bodies(steps, nodes, behind(parts, 2))?;
    happens(steps, Event::Closes)
}

fn own_parameters(steps: &mut Vec<Step>, nodes: &[Node], parts: &[u32]) -> Result<(), AllocError>
    ensures { OnOk result (steps.new.items ≡ steps.old.items ++ flat_map (own_parameters nodes.now) parts.now) }
{
    for part in parts {
        inside(steps, list_of(nodes, declared_by(nodes, *part).next))?;
    }
    Ok(())
}

// The parameters of a list.
fn list_of(nodes: &[Node], next: Derivation) -> &[u32]
    ensures { result.now ≡ list_of nodes.now next }
{
    match next {
        Derivation::Function(list) => behind(parts_at(nodes, list as usize), 1),
        _ => &[],
    }
}

fn bodies(steps: &mut Vec<Step>, nodes: &[Node], parts: &[u32]) -> Result<(), AllocError>
    ensures { OnOk result (steps.new.items ≡ steps.old.items ++ flat_map (items_of nodes.now) parts.now) }
{
    for part in parts {
        inside(steps, parts_at(nodes, *part as usize))?;
    }
    Ok(())
}
