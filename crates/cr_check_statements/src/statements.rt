ghost use Rattle.std.specs.Prelude.{◌≡◌, ◌<◌, ◌≤◌, ◌||◌, ℕ, length, slice_get};
ghost use Rattle.cr_syntax_nodes.specs.Loops.{clauses_of};
ghost use Rattle.cr_check_types.specs.Types.{Qualified, type_at};
ghost use Rattle.cr_check_constants.specs.declared.constant.Constant.TheVariants.{NotConstant};
ghost use Rattle.cr_check_operands.specs.Values.{room_of, seen_at, value_in, valued_at, valued_by};
ghost use Rattle.cr_check_expressions.specs.Ruled.{seen_in, facts_at, AreFacts};
ghost use Rattle.cr_check_expressions.specs.Breaks.{fault, first_of};
ghost use Rattle.cr_check_statements.specs.Setting.{scene_of, AreResults};
ghost use Rattle.cr_check_statements.specs.Statements.{is_no_scalar, is_no_integer, has_value, is_constant, is_no_constant, is_valueless, gives_badly, returns_badly, faults_in};

use crate::setting::{Setting, around_at, label_of, repeats, result_row};
use cr_check_constants::Constant;
use cr_check_expressions::{Break, NO_FACT, break_if, is_typed, operand, part_at};
use cr_check_operands::{
    Fact, Value, is_assignable, is_integer, is_scalar, value_in_row, value_of,
};
use cr_check_types::Table;
use cr_syntax::{Kind, Node};
use cr_syntax_nodes::loop_clauses;

/// The first row of the table of constraints that a statement breaks, by what its expressions have and what stands around it. A row
/// is checked only where what it speaks of has types.
pub fn statement_break(table: &Table, setting: &Setting, at: u32, node: &Node) -> Option<Break>
    requires facts { AreFacts table.now setting.now.facts.now }
    requires results { AreResults (length table.now) setting.now }
    ensures { result ≡ first_of (faults_in node.now.kind (scene_of table.now setting.now) at node.now) }
{
    let parts = node.parts.as_slice();
    let around = around_at(setting, at);
    match node.kind {
        Kind::If | Kind::While => {
            let control = operand(table, setting.facts, parts, 0);
            break_if(38, node.first, is_no_scalar(table, control))
        }
        Kind::Do => {
            let control = operand(table, setting.facts, parts, 1);
            break_if(38, node.first, is_no_scalar(table, control))
        }
        Kind::For => for_fault(table, setting, node),
        Kind::Switch => {
            let control = operand(table, setting.facts, parts, 0);
            break_if(38, node.first, is_no_integer(table, control))
        }
        Kind::Case => {
            let label = operand(table, setting.facts, parts, 0);
            let wrong = is_no_constant(table, label);
            break_if(38, node.first, either(wrong, repeats(setting, at)))
        }
        Kind::Default => break_if(38, node.first, repeats(setting, at)),
        Kind::Break => break_if(38, node.first, around.breakable.is_none()),
        Kind::Continue => break_if(38, node.first, around.iteration.is_none()),
        Kind::Return => {
            let row = result_row(setting, around.function);
            break_if(
                39,
                node.first,
                returns_badly(table, row, setting.facts, parts),
            )
        }
        Kind::Goto => {
            let lost = label_of(setting, at).is_none();
            break_if(42, node.last.saturating_sub(1), lost)
        }
        Kind::Label => break_if(43, node.first, repeats(setting, at)),
        _ => None,
    }
}

fn either(one: bool, other: bool) -> bool
    ensures { result ≡ (one || other) }
{
    one || other
}

// The controlling expression of a `for` may be left out (6.8.5.3p2).
fn for_fault(table: &Table, setting: &Setting, node: &Node) -> Option<Break>
    requires { AreFacts table.now setting.now.facts.now }
    ensures { result ≡ fault 38 node.now.first (is_no_scalar (seen_in (facts_at table.now setting.now.facts.now) (clauses_of setting.now.nodes.now node.now).test)) }
{
    let test = loop_clauses(setting.nodes, node).test;
    let control = fact_of_part(table, setting.facts, test);
    break_if(38, node.first, is_no_scalar(table, control))
}

fn fact_of_part(table: &Table, facts: &[Fact], part: Option<u32>) -> Fact
    requires { AreFacts table.now facts.now }
    ensures within { result.row < length table.now }
    ensures is { seen_at table.now result ≡ seen_in (facts_at table.now facts.now) part }
{
    match part {
        Some(part) => operand(table, facts, &[part], 0),
        None => operand(table, facts, &[], 0),
    }
}

fn is_no_scalar(table: &Table, fact: Fact) -> bool
    requires { fact.row < length table.now }
    ensures { result ≡ is_no_scalar (seen_at table.now fact) }
{
    is_typed(table, fact) && !is_scalar(value_of(table, fact))
}

fn is_no_integer(table: &Table, fact: Fact) -> bool
    requires { fact.row < length table.now }
    ensures { result ≡ is_no_integer (seen_at table.now fact) }
{
    is_typed(table, fact) && !is_integer(value_of(table, fact))
}

fn is_no_constant(table: &Table, fact: Fact) -> bool
    requires { fact.row < length table.now }
    ensures { result ≡ is_no_constant (seen_at table.now fact) }
{
    is_typed(table, fact) && !is_constant(value_of(table, fact))
}

// An integer constant expression with a value.
fn is_constant(value: Value) -> bool
    ensures { (look : ℕ → Qualified) → result ≡ is_constant (valued_by look value) }
{
    match value {
        Value::Integer(operand) => has_value(operand.constant),
        Value::Pointer(_) => false,
        Value::Structure(_) => false,
        Value::Array(_) => false,
        Value::Void => false,
        Value::Unknown => false,
    }
}

fn has_value(constant: Constant) -> bool
    ensures { result ≡ has_value constant }
{
    match constant {
        Constant::Value(_) => true,
        Constant::Undefined => false,
        Constant::NotConstant => false,
    }
}

// By the row of what the function gives.
fn returns_badly(table: &Table, row: u32, facts: &[Fact], parts: &[u32]) -> bool
    requires row { row < length table.now }
    requires facts { AreFacts table.now facts.now }
    ensures { result ≡ returns_badly (type_at table.now row) (facts_at table.now facts.now) (slice_get parts.now 0) }
{
    let given = Fact { row, ..NO_FACT };
    match part_at(parts, 0) {
        None => is_typed(table, given) && !is_void(given_value(table, row)),
        Some(_) => gives_badly(table, row, operand(table, facts, parts, 0)),
    }
}

fn gives_badly(table: &Table, row: u32, operand: Fact) -> bool
    requires row { row < length table.now }
    requires operand { operand.row < length table.now }
    ensures { result ≡ gives_badly (type_at table.now row) (seen_at table.now operand) }
{
    let given = Fact { row, ..NO_FACT };
    is_typed(table, given)
        && is_typed(table, operand)
        && !is_assignable(table, given_value(table, row), value_of(table, operand))
}

// What a function of the row's type gives.
fn given_value(table: &Table, row: u32) -> Value
    requires { row < length table.now }
    ensures is { valued_at table.now result ≡ value_in (type_at table.now row) NotConstant }
    ensures within { room_of result ≤ length table.now }
{
    value_in_row(table, row, Constant::NotConstant)
}

fn is_void(value: Value) -> bool
    ensures { (look : ℕ → Qualified) → result ≡ is_valueless (valued_by look value) }
{
    match value {
        Value::Void => true,
        Value::Integer(_) => false,
        Value::Pointer(_) => false,
        Value::Structure(_) => false,
        Value::Array(_) => false,
        Value::Unknown => false,
    }
}
