ghost use Rattle.std.specs.Prelude.{◌≡◌, ◌<◌, ◌-◌, ◌&&◌, ℕ, List, IfSome, length, not, slice_get};
ghost use Rattle.std.specs.Option.{is_some};
ghost use Rattle.cr_check_types.specs.Types.{Qualified, type_at};
ghost use Rattle.cr_check_operands.specs.Values.{seen_at};
ghost use Rattle.cr_check_expressions.specs.Known.{AreKnown, source_at, meaning_by, meaning_at};
ghost use Rattle.cr_check_expressions.specs.Forms.{form_of};
ghost use Rattle.cr_check_expressions.specs.Ruled.{operands_at, facts_at, AreFacts};
ghost use Rattle.cr_check_expressions.specs.Breaks.{fault, lacks_one, lacks_two, first_in, between, names_no_value, first_of, faults_in, combined_faults};
ghost use Rattle.cr_check_expressions.specs.Breaks.{passing_faults, call_faults};

use crate::call::{is_miscalled, mispasses};
use crate::form::{Form, form_of, row_of_integers};
use crate::known::{Declared, Known, declared_by, named_by, parameters_by, visible_at};
use crate::least::{Break, break_if, lesser};
use crate::operands::{is_type, is_typed, operand, part_at, value};
use crate::rules::{member_in, pointed_structure};
use cr_check_operands::{Fact, structure_at};
use cr_check_types::Table;
use cr_syntax::{Node, first_token_at};

/// The first row of the table of constraints that an expression breaks, by what it has itself and what the nodes before it have. A
/// row is judged only where what it speaks of has types.
pub fn expression_break(
    table: &Table,
    known: &Known,
    facts: &[Fact],
    at: u32,
    node: &Node,
    own: Fact,
) -> Option<Break>
    requires known { AreKnown (length table.now) known.now }
    requires facts { AreFacts table.now facts.now }
    requires own { own.row < length table.now }
    ensures { result ≡ first_of (faults_in (form_of node.now.kind) (seen_at table.now own) (facts_at table.now facts.now) (source_at table.now known.now) at node.now) }
{
    let parts = node.parts.as_slice();
    let first = operand(table, facts, parts, 0);
    let lacks = lacks_one(table, own, first);
    match form_of(node.kind) {
        Form::Name => {
            let declared = declared_by(known, visible_at(known, at));
            break_if(16, node.first, names_no_value(declared))
        }
        Form::Call => call_fault(table, known, facts, at, node.first, parts),
        Form::Member => {
            let found = member_in(known, at, node.last, structure_at(table, first.row));
            member_fault(20, node, is_typed(table, first), found)
        }
        Form::PointerMember => {
            let structure = pointed_structure(table, value(table, facts, parts, 0));
            let found = member_in(known, at, node.last, structure);
            member_fault(21, node, is_typed(table, first), found)
        }
        Form::StepBehind => break_if(22, node.last, lacks),
        Form::StepBefore => break_if(22, node.first, lacks),
        Form::Address => break_if(23, node.first, lacks),
        Form::Dereference => break_if(24, node.first, lacks),
        Form::Signed(_) => break_if(25, node.first, lacks),
        Form::Negated => break_if(25, node.first, lacks),
        Form::SizeofExpression => break_if(26, node.first, lacks),
        Form::SizeofType => {
            let row = named_by(known, part_at(parts, 0));
            break_if(26, node.first, is_type(table, row) && !is_typed(table, own))
        }
        Form::Cast => {
            let row = named_by(known, part_at(parts, 0));
            let operand = operand(table, facts, parts, 1);
            break_if(
                27,
                node.first,
                is_type(table, row) && lacks_one(table, own, operand),
            )
        }
        form => combined_fault(table, known, facts, parts, own, form),
    }
}

// Of the operators of two or three operands.
fn combined_fault(
    table: &Table,
    known: &Known,
    facts: &[Fact],
    parts: &[u32],
    own: Fact,
    form: Form,
) -> Option<Break>
    requires facts { AreFacts table.now facts.now }
    requires own { own.row < length table.now }
    ensures { result ≡ first_of (combined_faults form (seen_at table.now own) (facts_at table.now facts.now) known.now.nodes.now parts.now) }
{
    let first = operand(table, facts, parts, 0);
    let second = operand(table, facts, parts, 1);
    let token = between(known.nodes, parts);
    let lacks = lacks_two(table, own, first, second);
    match form {
        Form::Subscript => break_if(19, token, lacks),
        Form::Integers(operator) => break_if(row_of_integers(operator), token, lacks),
        Form::Sum => break_if(29, token, lacks),
        Form::Difference => break_if(30, token, lacks),
        Form::Shifted(_) => break_if(31, token, lacks),
        Form::Order(_) => break_if(32, token, lacks),
        Form::Equality(_) => break_if(33, token, lacks),
        Form::Logical(_) => break_if(35, token, lacks),
        Form::Conditional => {
            let third = operand(table, facts, parts, 2);
            let lacks = is_typed(table, first) && lacks_two(table, own, second, third);
            break_if(36, token, lacks)
        }
        Form::Assign => break_if(37, token, lacks),
        Form::Compound(_) => break_if(37, token, lacks),
        _ => None,
    }
}

fn lacks_one(table: &Table, own: Fact, operand: Fact) -> bool
    requires own { own.row < length table.now }
    requires operand { operand.row < length table.now }
    ensures { result ≡ lacks_one (seen_at table.now own) (seen_at table.now operand) }
{
    is_typed(table, operand) && !is_typed(table, own)
}

fn lacks_two(table: &Table, own: Fact, left: Fact, right: Fact) -> bool
    requires own { own.row < length table.now }
    requires left { left.row < length table.now }
    requires right { right.row < length table.now }
    ensures { result ≡ lacks_two (seen_at table.now own) (seen_at table.now left) (seen_at table.now right) }
{
    is_typed(table, left) && lacks_one(table, own, right)
}

// The token before the second part, which is an operator between two.
fn between(nodes: &[Node], parts: &[u32]) -> u32
    ensures { result ≡ between nodes.now parts.now }
{
    first_of_part(nodes, part_at(parts, 1)).saturating_sub(1)
}

fn first_of_part(nodes: &[Node], part: Option<u32>) -> u32
    ensures { result ≡ first_in nodes.now part }
{
    match part {
        Some(part) => first_token_at(nodes, part as usize),
        None => 0,
    }
}

fn member_fault(row: u8, node: &Node, typed: bool, found: Option<u32>) -> Option<Break>
    ensures { result ≡ fault row (node.now.last - 1) (typed && not (is_some found)) }
{
    break_if(row, node.last.saturating_sub(1), typed && found.is_none())
}

fn names_no_value(declared: Declared) -> bool
    ensures { (look : ℕ → Qualified) (rows : List ℕ) → result ≡ names_no_value (meaning_by look rows declared) }
{
    match declared {
        Declared::Object(..) => false,
        Declared::Enumerator(_) => false,
        Declared::Function(..) => true,
        Declared::TypeName => true,
        Declared::Unclear => false,
    }
}

fn call_fault(
    table: &Table,
    known: &Known,
    facts: &[Fact],
    at: u32,
    first: u32,
    parts: &[u32],
) -> Option<Break>
    requires known { AreKnown (length table.now) known.now }
    requires facts { AreFacts table.now facts.now }
    ensures { result ≡ first_of (call_faults known.now.nodes.now ((source_at table.now known.now).stands at) (operands_at table.now facts.now parts.now) first parts.now) }
{
    let declaring = visible_at(known, at);
    let declared = declared_by(known, declaring);
    let parameters = parameters_by(known, declaring);
    called_fault(
        table,
        known.nodes,
        facts,
        declared,
        parameters,
        first,
        parts,
    )
}

#[tactic(auto, unfolding(crate::specs::Breaks::call_faults))]
fn called_fault(
    table: &Table,
    nodes: &[Node],
    facts: &[Fact],
    declared: Declared,
    parameters: &[u32],
    first: u32,
    parts: &[u32],
) -> Option<Break>
    requires parameters { (k : ℕ) → IfSome (slice_get parameters.now k) (λ row. row < length table.now) }
    requires facts { AreFacts table.now facts.now }
    ensures { result ≡ first_of (call_faults nodes.now (meaning_at table.now parameters.now declared) (operands_at table.now facts.now parts.now) first parts.now) }
{
    let miscalled = is_miscalled(declared, parameters, parts.len());
    let arguments = argument_faults(table, nodes, facts, declared, parameters, parts);
    lesser(break_if(17, first, miscalled), arguments)
}

// The first fault of the arguments.
fn argument_faults(
    table: &Table,
    nodes: &[Node],
    facts: &[Fact],
    declared: Declared,
    parameters: &[u32],
    parts: &[u32],
) -> Option<Break>
    requires parameters { (k : ℕ) → IfSome (slice_get parameters.now k) (λ row. row < length table.now) }
    requires facts { AreFacts table.now facts.now }
    ensures { result ≡ first_of (passing_faults nodes.now (meaning_at table.now parameters.now declared) (operands_at table.now facts.now parts.now) parts.now) }
{
    let mut first = None;
    for k in 0..parts.len() {
        let argument = operand(table, facts, parts, k);
        let broken = mispasses(table, declared, parameters, k, argument);
        first = lesser(
            break_if(18, first_of_part(nodes, part_at(parts, k)), broken),
            first,
        );
    }
    first
}
