// Pass u: what has no use.
ghost use Rattle.std.specs.Prelude.{◌≡◌, ◌++◌, ◌∷◌, [], length, drop, IfOk, OnOk};
ghost use Rattle.std.specs.HashSet.{contains};
ghost use Rattle.std.specs.List.{flat_map, list_any};
ghost use Rattle.pass_levels.specs.Gathered.{gathered};
ghost use Rattle.pass_levels.specs.Level.{level_of};
ghost use Rattle.pass_levels.specs.Nodes.{node_at};
ghost use Rattle.pass_levels.specs.Places.{gone as gone_by, with_comma as with_comma_by};
ghost use Rattle.pass_names.specs.Reach.{is_within as is_within_by};
ghost use Rattle.pass_names.specs.Members.{AreUsed, member_uses, same_member};
ghost use Rattle.pass_names.specs.Unused.{declaration_by, declarations_give, declarator_gives, declarator_in, declarators_give, enumerator_gives, is_declared_unused, is_empty, is_unused, items_give, member_change, member_gives, members_give, part_at, parts_give, row_gives, u_levels, u_offering};

use crate::members::{MemberUse, is_unused_member, member_uses, used_members};
use crate::reach::{Reach, are_own, has_no_use_outside, is_within, reach_of, uses_of};
use crate::reserved::reserved_of;
use cr_rows::Row;
use cr_scopes::Names;
use cr_scopes_events::declared_by;
use cr_syntax::{Kind, Node, Unit};
use cr_tokens::Token;
use pass_edit::{Change, Edits, Kept, Menu};
use pass_levels::{
    Counted, Level, Turns, behind_first, gone, in_turn, kind_at, list, parts_at, span_at,
    with_comma,
};
use std::alloc::{AllocError, Global};
use std::collections::HashSet;

// Each external declaration without use goes.
#[derive(Drop)]
struct ItemsGo<'a> {
    tokens: &'a [Token],
    nodes: &'a [Node],
    reach: &'a Reach<'a>,
    mains: &'a [u32],
    items: &'a [u32],
}

impl Turns for ItemsGo<'_> {
    ghost gives = { λ l at. items_give l.tokens.now l.nodes.now l.reach.now.names.now l.mains.now l.items.now at };

    fn give(&self, _alloc: Global, at: usize, edits: &mut Edits) -> Result<(), AllocError> {
        let item = part_at(self.items, at) as usize;
        if is_unused(self.reach, self.mains, self.nodes, item) {
            edits.push(&[node_gone(self.tokens, self.nodes, item)])?;
        }
        Ok(())
    }
}

fn node_gone(tokens: &[Token], nodes: &[Node], node: usize) -> Change
    ensures { result ≡ gone_by tokens.now (node_at nodes.now node).first (node_at nodes.now node).last }
{
    let (first, last) = span_at(nodes, node);
    gone(tokens, first as usize, last as usize)
}

fn part_at(parts: &[u32], at: usize) -> u32
    ensures { result ≡ part_at parts.now at }
{
    match parts.get(at) {
        Some(part) => *part,
        None => 0,
    }
}

fn is_unused(reach: &Reach, mains: &[u32], nodes: &[Node], node: usize) -> bool
    ensures { result ≡ is_unused reach.now.names.now mains.now (node_at nodes.now node) }
{
    let (first, last) = span_at(nodes, node);
    !has_within(first, last, mains) && are_own(reach, first, last)
}

fn has_within(first: u32, last: u32, tokens: &[u32]) -> bool
    ensures { result ≡ list_any (is_within_by first last) tokens.now }
{
    tokens.iter().any(|token| is_within(first, last, *token))
}

// One change, counted by a node.
fn counted(
    alloc: Global,
    nodes: &[Node],
    node: usize,
    change: Change,
) -> Result<Counted, AllocError>
    ensures { IfOk result (λ counted. counted ≡ record { first = (node_at nodes.now node).first; last = (node_at nodes.now node).last; edit = change ∷ [] }) }
{
    let (first, last) = span_at(nodes, node);
    let mut edit = Row::new(alloc);
    edit.push(change)?;
    Ok(Counted { first, last, edit })
}

fn without_comma(tokens: &[Token], nodes: &[Node], at: usize, count: usize, node: usize) -> Change
    ensures { result ≡ with_comma_by tokens.now at count (node_at nodes.now node).first (node_at nodes.now node).last }
{
    let (first, last) = span_at(nodes, node);
    with_comma(tokens, at, count, first as usize, last as usize)
}

// Each declarator without use goes, where there are others.
#[derive(Drop)]
struct DeclaratorsGo<'a> {
    tokens: &'a [Token],
    nodes: &'a [Node],
    names: &'a Names,
}

impl Level for DeclaratorsGo<'_> {
    ghost gives = { λ l k. declarators_give l.tokens.now l.nodes.now l.names.now k };

    fn give(&self, alloc: Global, node: usize, all: &mut Vec<Counted>) -> Result<(), AllocError> {
        match kind_at(self.nodes, node) {
            Kind::Declaration => {
                let row = behind_first(parts_at(self.nodes, node));
                put_row(alloc, self.tokens, self.nodes, self.names, row, all)
            }
            _ => Ok(()),
        }
    }
}

fn put_row(
    alloc: Global,
    tokens: &[Token],
    nodes: &[Node],
    names: &Names,
    row: &[u32],
    all: &mut Vec<Counted>,
) -> Result<(), AllocError>
    ensures { OnOk result (all.new.items ≡ all.old.items ++ row_gives tokens.now nodes.now names.now row.now) }
{
    if row.len() >= 2 {
        put_declarators(alloc, tokens, nodes, names, row, all)
    } else {
        Ok(())
    }
}

fn put_declarators(
    alloc: Global,
    tokens: &[Token],
    nodes: &[Node],
    names: &Names,
    row: &[u32],
    all: &mut Vec<Counted>,
) -> Result<(), AllocError>
    ensures { OnOk result (all.new.items ≡ all.old.items ++ gathered (declarator_gives tokens.now nodes.now names.now row.now) (length row.now)) }
{
    for at in 0..row.len() {
        put_declarator(alloc, tokens, nodes, names, row, at, all)?;
    }
    Ok(())
}

fn put_declarator(
    alloc: Global,
    tokens: &[Token],
    nodes: &[Node],
    names: &Names,
    row: &[u32],
    at: usize,
    all: &mut Vec<Counted>,
) -> Result<(), AllocError>
    ensures { OnOk result (all.new.items ≡ all.old.items ++ declarator_gives tokens.now nodes.now names.now row.now at) }
{
    let part = part_at(row, at);
    if is_declared_unused(nodes, names, declarator_in(nodes, part)) {
        let change = without_comma(tokens, nodes, at, row.len(), part as usize);
        all.push(counted(alloc, nodes, part as usize, change)?)?;
    }
    Ok(())
}

fn declarator_in(nodes: &[Node], part: u32) -> u32
    ensures { result ≡ declarator_in nodes.now part }
{
    match kind_at(nodes, part as usize) {
        Kind::InitDeclarator => part_at(parts_at(nodes, part as usize), 0),
        _ => part,
    }
}

fn is_declared_unused(nodes: &[Node], names: &Names, declarator: u32) -> bool
    ensures { result ≡ is_declared_unused nodes.now names.now declarator }
{
    let (first, last) = span_at(nodes, declarator as usize);
    match declared_by(nodes, declarator).name {
        Some(token) => has_no_use_outside(names, first, last, token as usize),
        None => false,
    }
}

// Each declaration without use in a block goes.
#[derive(Drop)]
struct DeclarationsGo<'a> {
    tokens: &'a [Token],
    nodes: &'a [Node],
    reach: &'a Reach<'a>,
    mains: &'a [u32],
}

impl Level for DeclarationsGo<'_> {
    ghost gives = { λ l k. declarations_give l.tokens.now l.nodes.now l.reach.now.names.now l.mains.now k };

    fn give(&self, alloc: Global, node: usize, all: &mut Vec<Counted>) -> Result<(), AllocError> {
        match kind_at(self.nodes, node) {
            Kind::Compound => {
                let parts = parts_at(self.nodes, node);
                put_declarations(
                    alloc,
                    self.tokens,
                    self.nodes,
                    self.reach,
                    self.mains,
                    parts,
                    all,
                )
            }
            _ => Ok(()),
        }
    }
}

fn put_declarations(
    alloc: Global,
    tokens: &[Token],
    nodes: &[Node],
    reach: &Reach,
    mains: &[u32],
    parts: &[u32],
    all: &mut Vec<Counted>,
) -> Result<(), AllocError>
    ensures { OnOk result (all.new.items ≡ all.old.items ++ flat_map (λ p. declaration_by (node_at nodes.now p).kind tokens.now reach.now.names.now mains.now (node_at nodes.now p)) parts.now) }
{
    for part in parts {
        put_declaration(alloc, tokens, nodes, reach, mains, *part as usize, all)?;
    }
    Ok(())
}

fn put_declaration(
    alloc: Global,
    tokens: &[Token],
    nodes: &[Node],
    reach: &Reach,
    mains: &[u32],
    part: usize,
    all: &mut Vec<Counted>,
) -> Result<(), AllocError>
    ensures { OnOk result (all.new.items ≡ all.old.items ++ declaration_by (node_at nodes.now part).kind tokens.now reach.now.names.now mains.now (node_at nodes.now part)) }
{
    match kind_at(nodes, part) {
        Kind::Declaration => if is_unused(reach, mains, nodes, part) {
            let change = node_gone(tokens, nodes, part);
            all.push(counted(alloc, nodes, part, change)?)?;
        },
        _ => {}
    }
    Ok(())
}

// Each enumerator and each member without use goes.
#[derive(Drop)]
struct PartsGo<'a, 'b> {
    file: &'a [u8],
    tokens: &'b [Token],
    nodes: &'b [Node],
    names: &'b Names,
    uses: &'b [MemberUse],
    used: &'b HashSet<(usize, &'a [u8])>,
    ghost set: { AreUsed file.now tokens.now uses.now (contains same_member used.now) },
}

impl Level for PartsGo<'_, '_> {
    ghost gives = { λ l k. parts_give l.file.now l.tokens.now l.nodes.now l.names.now l.uses.now k };

    fn give(&self, alloc: Global, node: usize, all: &mut Vec<Counted>) -> Result<(), AllocError> {
        match kind_at(self.nodes, node) {
            Kind::EnumContent => {
                let row = parts_at(self.nodes, node);
                put_enumerators(alloc, self.tokens, self.nodes, self.names, row, all)
            }
            Kind::StructContent => {
                let declarations = parts_at(self.nodes, node);
                put_all_members(
                    alloc,
                    self.file,
                    self.tokens,
                    self.nodes,
                    self.uses,
                    self.used,
                    node,
                    declarations,
                    all,
                )
            }
            _ => Ok(()),
        }
    }
}

fn put_enumerators(
    alloc: Global,
    tokens: &[Token],
    nodes: &[Node],
    names: &Names,
    row: &[u32],
    all: &mut Vec<Counted>,
) -> Result<(), AllocError>
    ensures { OnOk result (all.new.items ≡ all.old.items ++ gathered (enumerator_gives tokens.now nodes.now names.now row.now) (length row.now)) }
{
    for at in 0..row.len() {
        put_enumerator(alloc, tokens, nodes, names, row, at, all)?;
    }
    Ok(())
}

fn put_enumerator(
    alloc: Global,
    tokens: &[Token],
    nodes: &[Node],
    names: &Names,
    row: &[u32],
    at: usize,
    all: &mut Vec<Counted>,
) -> Result<(), AllocError>
    ensures { OnOk result (all.new.items ≡ all.old.items ++ enumerator_gives tokens.now nodes.now names.now row.now at) }
{
    let part = part_at(row, at) as usize;
    let (first, _) = span_at(nodes, part);
    if is_empty(uses_of(names, first as usize)) {
        let change = without_comma(tokens, nodes, at, row.len(), part);
        all.push(counted(alloc, nodes, part, change)?)?;
    }
    Ok(())
}

fn is_empty(tokens: &[u32]) -> bool
    ensures { result ≡ is_empty tokens.now }
{
    match tokens {
        [] => true,
        _ => false,
    }
}

// The members of a structure, by its declarations of members.
fn put_all_members(
    alloc: Global,
    file: &[u8],
    tokens: &[Token],
    nodes: &[Node],
    uses: &[MemberUse],
    used: &HashSet<(usize, &[u8])>,
    content: usize,
    declarations: &[u32],
    all: &mut Vec<Counted>,
) -> Result<(), AllocError>
    requires { AreUsed file.now tokens.now uses.now (contains same_member used.now) }
    ensures { OnOk result (all.new.items ≡ all.old.items ++ flat_map (λ p. members_give file.now tokens.now nodes.now uses.now content (node_at nodes.now p)) declarations.now) }
{
    for declaration in declarations {
        let whole = *declaration as usize;
        let row = behind_first(parts_at(nodes, whole));
        put_members(
            alloc, file, tokens, nodes, uses, used, content, whole, row, all,
        )?;
    }
    Ok(())
}

fn put_members(
    alloc: Global,
    file: &[u8],
    tokens: &[Token],
    nodes: &[Node],
    uses: &[MemberUse],
    used: &HashSet<(usize, &[u8])>,
    content: usize,
    whole: usize,
    row: &[u32],
    all: &mut Vec<Counted>,
) -> Result<(), AllocError>
    requires { AreUsed file.now tokens.now uses.now (contains same_member used.now) }
    ensures { OnOk result (all.new.items ≡ all.old.items ++ gathered (member_gives file.now tokens.now nodes.now uses.now content (node_at nodes.now whole) row.now) (length row.now)) }
{
    for at in 0..row.len() {
        put_member(
            alloc, file, tokens, nodes, uses, used, content, whole, row, at, all,
        )?;
    }
    Ok(())
}

fn put_member(
    alloc: Global,
    file: &[u8],
    tokens: &[Token],
    nodes: &[Node],
    uses: &[MemberUse],
    used: &HashSet<(usize, &[u8])>,
    content: usize,
    whole: usize,
    row: &[u32],
    at: usize,
    all: &mut Vec<Counted>,
) -> Result<(), AllocError>
    requires { AreUsed file.now tokens.now uses.now (contains same_member used.now) }
    ensures { OnOk result (all.new.items ≡ all.old.items ++ member_gives file.now tokens.now nodes.now uses.now content (node_at nodes.now whole) row.now at) }
{
    let part = part_at(row, at);
    let name = declared_by(nodes, part).name;
    if is_unused_member(file, tokens, uses, used, content, name) {
        let change = member_change(tokens, nodes, whole, at, row.len(), part as usize);
        all.push(counted(alloc, nodes, part as usize, change)?)?;
    }
    Ok(())
}

fn member_change(
    tokens: &[Token],
    nodes: &[Node],
    whole: usize,
    at: usize,
    count: usize,
    member: usize,
) -> Change
    ensures { result ≡ member_change tokens.now (node_at nodes.now whole) at count (node_at nodes.now member) }
{
    if count <= 1 {
        node_gone(tokens, nodes, whole)
    } else {
        without_comma(tokens, nodes, at, count, member)
    }
}

fn parts_go(
    alloc: Global,
    file: &[u8],
    tokens: &[Token],
    nodes: &[Node],
    names: &Names,
    structures: &[Option<u32>],
) -> Result<Edits, AllocError>
    ensures { IfOk result (λ edits. edits ≡ level_of (parts_give file.now tokens.now nodes.now names.now (member_uses nodes.now structures.now)) (length nodes.now)) }
{
    let uses = member_uses(alloc, nodes, structures)?;
    let used = used_members(alloc, file, tokens, uses.as_slice())?;
    list(
        alloc,
        nodes.len(),
        &PartsGo {
            file,
            tokens,
            nodes,
            names,
            uses: uses.as_slice(),
            used: &used,
        },
    )
}

fn levels(
    alloc: Global,
    file: &[u8],
    tokens: &[Token],
    nodes: &[Node],
    items: &[u32],
    reach: &Reach,
    structures: &[Option<u32>],
    mains: &[u32],
) -> Result<Menu, AllocError>
    ensures { IfOk result (λ menu. menu ≡ u_levels file.now tokens.now nodes.now items.now reach.now.names.now structures.now mains.now) }
{
    let count = nodes.len();
    let names = reach.names;
    let mut levels = Vec::new(alloc);
    let items_go = ItemsGo {
        tokens,
        nodes,
        reach,
        mains,
        items,
    };
    levels.push(in_turn(alloc, items.len(), &items_go)?)?;
    let declarators_go = DeclaratorsGo {
        tokens,
        nodes,
        names,
    };
    levels.push(list(alloc, count, &declarators_go)?)?;
    let declarations_go = DeclarationsGo {
        tokens,
        nodes,
        reach,
        mains,
    };
    levels.push(list(alloc, count, &declarations_go)?)?;
    levels.push(parts_go(alloc, file, tokens, nodes, names, structures)?)?;
    Ok(Menu::new(levels, Kept::nothing(alloc)))
}

/// What pass u offers for a file's unit with these names, whose nodes name members of these structures: at level 0 each external declaration
/// goes that declares nothing with a use outside it, and not main; at level 1 each declarator of several, whose name has no use outside it,
/// with its initialiser and its comma; at level 2 each declaration in a block as at level 0; at level 3 each enumerator and each member
/// without use with its comma, and a member alone with its whole declaration. The error is want of memory.
pub fn unused(
    alloc: Global,
    file: &[u8],
    unit: &Unit,
    names: &Names,
    structures: &[Option<u32>],
) -> Result<Menu, AllocError>
    ensures { IfOk result (λ menu. menu ≡ u_offering file.now unit.now.tokens.list.items unit.now.nodes unit.now.items names.now structures.now) }
{
    let reach = reach_of(alloc, names)?;
    let mains = reserved_of(alloc, file, unit, false)?;
    let mains = mains.as_slice();
    let tokens = unit.tokens.list.as_slice();
    let nodes = unit.nodes.as_slice();
    let items = unit.items.as_slice();
    levels(alloc, file, tokens, nodes, items, &reach, structures, mains)
}
