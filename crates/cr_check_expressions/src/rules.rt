ghost use Rattle.std.specs.Prelude.{◌≡◌, ◌<◌, ◌≤◌, ℕ, IfOk, IfSome, OnOk, length, slice_get};
ghost use Rattle.cr_syntax.specs.Words.{AreSpans};
ghost use Rattle.cr_check_types.specs.Types.{Qualified, type_at, Grows};
ghost use Rattle.cr_check_types.specs.Relations.{is_defined, is_content_if};
ghost use Rattle.cr_check_constants.specs.declared.constant.Constant.TheVariants as constant;
ghost use Rattle.cr_check_operands.specs.Values.{valued_at, valued_by, room_of, seen_at};
ghost use Rattle.cr_check_operands.specs.Rules.{int_of};
ghost use Rattle.cr_check_operands.specs.Places.{found_by};
ghost use Rattle.cr_check_expressions.specs.declared.form.Form.TheVariants as form;
ghost use Rattle.cr_check_expressions.specs.Known.{AreKnown, source_of, source_at};
ghost use Rattle.cr_check_expressions.specs.Forms.{form_of};
ghost use Rattle.cr_check_expressions.specs.Ruled.{operands_at, value, facts_at, AreFacts};
ghost use Rattle.cr_check_expressions.specs.Ruled.{literal, named_by, member_in, pointed_structure, called, converted_by, chosen, combined, computed, ruled};

use crate::call::called;
use crate::form::{Form, form_of};
use crate::known::{
    Declared, Known, declared_by, member_row, named_by, parameters_by, spelling, text_length,
    visible_at,
};
use crate::operands::{operand, part_at, value};
use cr_check_constants::{Constant, Operand, character, integer};
use cr_check_operands::{
    Branch, Fact, Value, address, assign, cast, comma, compound, conditional, dereference,
    difference, equality, fact_of, increment, integers, is_null_cast, logical, member, negated,
    object, order, pointed_member, shifted, signed, size, structure_at, subscript, sum, text,
    value_of,
};
use cr_check_types::Table;
use cr_ints::IntKind;
use cr_syntax::{Kind, Node};
use std::alloc::AllocError;

/// What an expression has, at a node, by what the nodes before it have (C11 6.5); what is no expression has no type.
pub fn rule(
    table: &mut Table,
    known: &Known,
    facts: &[Fact],
    at: u32,
    node: &Node,
) -> Result<Fact, AllocError>
    requires spans { AreSpans known.now.file.now known.now.tokens.now }
    requires known { AreKnown (length table.old) known.now }
    requires facts { AreFacts table.old facts.now }
    ensures within { IfOk result (λ f. f.row < length table.new) }
    ensures is { IfOk result (λ f. seen_at table.new f ≡ ruled (form_of node.now.kind) (facts_at table.old facts.now) (source_at table.old known.now) at node.now) }
    ensures grows { OnOk result (Grows table.old table.new) }
{
    let parts = node.parts.as_slice();
    match form_of(node.kind) {
        Form::Name => named(table, known, at),
        Form::Text => text(table, text_length(known, at) as u64),
        Form::Group => Ok(operand(table, facts, parts, 0)),
        Form::Subscript => {
            let left = value(table, facts, parts, 0);
            let right = value(table, facts, parts, 1);
            subscript(table, known.nodes, at, left, right)
        }
        Form::Member => member_at(table, known, facts, at, node),
        Form::PointerMember => pointed_member_at(table, known, facts, at, node),
        Form::Dereference => {
            let operand = value(table, facts, parts, 0);
            dereference(table, known.nodes, at, operand)
        }
        Form::Cast => cast_at(table, known, facts, parts),
        Form::Conditional => conditional_at(table, facts, parts),
        form => {
            let value = computed(table, known, facts, at, node, form);
            fact_of(table, value, false)
        }
    }
}

// An object, or the constant that an enumerator is (6.5.1).
fn named(table: &mut Table, known: &Known, at: u32) -> Result<Fact, AllocError>
    requires { AreKnown (length table.old) known.now }
    ensures within { IfOk result (λ f. f.row < length table.new) }
    ensures is { IfOk result (λ f. seen_at table.new f ≡ named_by ((source_at table.old known.now).stands at)) }
    ensures grows { OnOk result (Grows table.old table.new) }
{
    match declared_by(known, visible_at(known, at)) {
        Declared::Object(row, register) => Ok(object(table, row, register)),
        Declared::Enumerator(value) => fact_of(table, enumerated(value), false),
        Declared::Function(..) => fact_of(table, Value::Unknown, false),
        Declared::TypeName => fact_of(table, Value::Unknown, false),
        Declared::Unclear => fact_of(table, Value::Unknown, false),
    }
}

// An enumerator is an int constant (6.7.2.2p3).
fn enumerated(value: i128) -> Value
    ensures is { (look : ℕ → Qualified) → valued_by look result ≡ int_of (constant.Value value) }
    ensures room { room_of result ≡ 0 }
{
    Value::Integer(Operand {
        kind: IntKind::Int,
        constant: Constant::Value(value),
    })
}

fn member_at(
    table: &mut Table,
    known: &Known,
    facts: &[Fact],
    at: u32,
    node: &Node,
) -> Result<Fact, AllocError>
    requires known { AreKnown (length table.old) known.now }
    requires facts { AreFacts table.old facts.now }
    ensures within { IfOk result (λ f. f.row < length table.new) }
    ensures is { IfOk result (λ f. seen_at table.new f ≡ ruled form.Member (facts_at table.old facts.now) (source_at table.old known.now) at node.now) }
    ensures grows { OnOk result (Grows table.old table.new) }
{
    let whole = operand(table, facts, node.parts.as_slice(), 0);
    let found = member_in(known, at, node.last, structure_at(table, whole.row));
    member(table, whole, found)
}

fn pointed_member_at(
    table: &mut Table,
    known: &Known,
    facts: &[Fact],
    at: u32,
    node: &Node,
) -> Result<Fact, AllocError>
    requires known { AreKnown (length table.old) known.now }
    requires facts { AreFacts table.old facts.now }
    ensures within { IfOk result (λ f. f.row < length table.new) }
    ensures is { IfOk result (λ f. seen_at table.new f ≡ ruled form.PointerMember (facts_at table.old facts.now) (source_at table.old known.now) at node.now) }
    ensures grows { OnOk result (Grows table.old table.new) }
{
    let operand = value(table, facts, node.parts.as_slice(), 0);
    let found = member_in(known, at, node.last, pointed_structure(table, operand));
    pointed_member(table, operand, found)
}

/// The structure that a pointer points to, in which a member is looked for.
pub(crate) fn pointed_structure(table: &Table, operand: Value) -> Option<u32>
    requires { room_of operand ≤ length table.now }
    ensures { result ≡ pointed_structure (valued_at table.now operand) }
{
    match operand {
        Value::Pointer(to) => structure_at(table, to),
        Value::Integer(_) => None,
        Value::Structure(_) => None,
        Value::Array(_) => None,
        Value::Void => None,
        Value::Unknown => None,
    }
}

/// The row of the member that a token names of a structure, which has to be complete at the node.
pub(crate) fn member_in(known: &Known, at: u32, token: u32, structure: Option<u32>) -> Option<u32>
    ensures is { (look : ℕ → Qualified) → found_by look result ≡ member_in (source_of look known.now) at token structure }
    ensures within { (count : ℕ) → AreKnown count known.now → IfSome result (λ row. row < count) }
{
    match structure {
        Some(structure) => if is_defined(known.nodes, at, structure) {
            member_row(known, structure, token)
        } else {
            None
        },
        None => None,
    }
}

// The node is the content of a structure, and stands before the given one.
fn is_defined(nodes: &[Node], at: u32, structure: u32) -> bool
    ensures { result ≡ is_defined nodes.now at structure }
{
    structure < at && is_content(nodes, structure as usize)
}

fn is_content(nodes: &[Node], at: usize) -> bool
    ensures { result ≡ is_content_if (slice_get nodes.now at) }
{
    at < nodes.len() && nodes[at].kind == Kind::StructContent
}

fn cast_at(
    table: &mut Table,
    known: &Known,
    facts: &[Fact],
    parts: &[u32],
) -> Result<Fact, AllocError>
    requires known { AreKnown (length table.old) known.now }
    requires facts { AreFacts table.old facts.now }
    ensures within { IfOk result (λ f. f.row < length table.new) }
    ensures is { IfOk result (λ f. seen_at table.new f ≡ converted_by (source_at table.old known.now) (facts_at table.old facts.now) parts.now) }
    ensures grows { OnOk result (Grows table.old table.new) }
{
    let row = named_by(known, part_at(parts, 0));
    let operand = value(table, facts, parts, 1);
    let null = is_null_cast(table, row, operand);
    let value = cast(table, row, operand);
    fact_of(table, value, null)
}

fn conditional_at(table: &mut Table, facts: &[Fact], parts: &[u32]) -> Result<Fact, AllocError>
    requires { AreFacts table.old facts.now }
    ensures within { IfOk result (λ f. f.row < length table.new) }
    ensures is { IfOk result (λ f. seen_at table.new f ≡ chosen (operands_at table.old facts.now parts.now)) }
    ensures grows { OnOk result (Grows table.old table.new) }
{
    let condition = value(table, facts, parts, 0);
    let left = branch(table, facts, parts, 1);
    let right = branch(table, facts, parts, 2);
    let value = conditional(table, condition, left, right)?;
    fact_of(table, value, false)
}

fn branch(table: &Table, facts: &[Fact], parts: &[u32], k: usize) -> Branch
    requires { AreFacts table.now facts.now }
    ensures within { room_of result.value ≤ length table.now }
    ensures value { valued_at table.now result.value ≡ value (facts_at table.now facts.now) parts.now k }
    ensures null { result.null ≡ (operands_at table.now facts.now parts.now k).null }
{
    let fact = operand(table, facts, parts, k);
    Branch {
        value: value_of(table, fact),
        null: fact.null,
    }
}

// The value of a constant, of a call, and of one operand.
fn computed(table: &Table, known: &Known, facts: &[Fact], at: u32, node: &Node, form: Form) -> Value
    requires spans { AreSpans known.now.file.now known.now.tokens.now }
    requires known { AreKnown (length table.now) known.now }
    requires facts { AreFacts table.now facts.now }
    ensures is { valued_at table.now result ≡ computed form (facts_at table.now facts.now) (source_at table.now known.now) at node.now }
    ensures within { room_of result ≤ length table.now }
{
    let parts = node.parts.as_slice();
    let place = operand(table, facts, parts, 0);
    match form {
        Form::Integer => literal(integer(spelling(known, node.first))),
        Form::Character => literal(character(spelling(known, node.first))),
        Form::Call => called_at(table, known, facts, at, parts),
        Form::StepBehind => increment(table, known.nodes, at, known.fixed, place),
        Form::StepBefore => increment(table, known.nodes, at, known.fixed, place),
        Form::Address => address(table, place),
        Form::Signed(operator) => signed(operator, value_of(table, place)),
        Form::Negated => negated(value_of(table, place)),
        Form::SizeofExpression => size(table, known.nodes, at, known.layouts, place.row),
        Form::SizeofType => {
            let row = named_by(known, part_at(parts, 0));
            size(table, known.nodes, at, known.layouts, row)
        }
        form => combined(table, known, facts, at, parts, form),
    }
}

fn literal(operand: Option<Operand>) -> Value
    ensures is { (look : ℕ → Qualified) → valued_by look result ≡ literal operand }
    ensures room { room_of result ≡ 0 }
{
    match operand {
        Some(operand) => Value::Integer(operand),
        None => Value::Unknown,
    }
}

fn called_at(table: &Table, known: &Known, facts: &[Fact], at: u32, parts: &[u32]) -> Value
    requires known { AreKnown (length table.now) known.now }
    requires facts { AreFacts table.now facts.now }
    ensures is { valued_at table.now result ≡ called ((source_at table.now known.now).stands at) (operands_at table.now facts.now parts.now) (length parts.now) }
    ensures within { room_of result ≤ length table.now }
{
    let node = visible_at(known, at);
    called(
        table,
        declared_by(known, node),
        parameters_by(known, node),
        facts,
        parts,
    )
}

// The value of two operands.
fn combined(
    table: &Table,
    known: &Known,
    facts: &[Fact],
    at: u32,
    parts: &[u32],
    form: Form,
) -> Value
    requires known { AreKnown (length table.now) known.now }
    requires facts { AreFacts table.now facts.now }
    ensures is { valued_at table.now result ≡ combined form (facts_at table.now facts.now) (source_at table.now known.now) at parts.now }
    ensures within { room_of result ≤ length table.now }
{
    let place = operand(table, facts, parts, 0);
    let left = value_of(table, place);
    let right = value(table, facts, parts, 1);
    let nodes = known.nodes;
    match form {
        Form::Integers(operator) => integers(operator, left, right),
        Form::Sum => sum(table, nodes, at, left, right),
        Form::Difference => difference(table, nodes, at, left, right),
        Form::Shifted(operator) => shifted(operator, left, right),
        Form::Order(operator) => order(table, operator, left, right),
        Form::Equality(operator) => equality(table, operator, left, right),
        Form::Logical(operator) => logical(operator, left, right),
        Form::Assign => assign(table, nodes, at, known.fixed, place, right),
        Form::Compound(moves) => { compound(table, nodes, at, known.fixed, moves, place, right) }
        Form::Comma => comma(left, right),
        _ => Value::Unknown,
    }
}
