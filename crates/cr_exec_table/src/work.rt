ghost use Rattle.std.specs.Prelude.{◌≡◌, None, ℕ, slice_index_or};
ghost use Rattle.cr_ints.specs.Conversions.{promote_of};
ghost use Rattle.cr_check_types.specs.Types.{type_at, type_of, Qualified};
ghost use Rattle.cr_meaning_operations.specs.Shapes.{value_type, kind_in, is_pointer};
ghost use Rattle.cr_meaning_operations.specs.Operations.{common_kind, left_type, right_type, change_of, either_element, left_row, chosen_row, value_or};
ghost use Rattle.cr_exec_table.specs.Roles.{duty_work, reach_work, leaf_work, update_work, both_kinds, own_kind, sum_change, one_change, difference_work, comparison_work, member_work, pointer_member_work, constant_work};

use crate::nodes::Nodes;
use crate::role::{Duty, Leaf, Reach};
use cr_check_types::Shape;
use cr_exec_shapes::Types;
use cr_ints::{IntKind, common, promote};
use cr_meaning::{Change, Operator, Relation, Work};
use cr_memory::Element;
use cr_rows::entry_at;
use cr_syntax::CType;

/// The work of an operator or a statement whose parts are all operands.
#[tactic(auto, unfolding(crate::specs::Roles::duty_work))]
pub(crate) fn duty_work(types: &Types, node: u32, duty: Duty) -> Work
    ensures { result ≡ duty_work types.now node duty }
{
    match duty {
        Duty::Comma => Work::Comma,
        Duty::Assign => Work::Assign(types.form(left_row(types, node))),
        Duty::Conditional => Work::Conditional(types.form(types.row(node))),
        Duty::LogicalOr => Work::LogicalOr,
        Duty::LogicalAnd => Work::LogicalAnd,
        Duty::Integers(op) => Work::Binary(both_kinds(types, node, op)),
        Duty::Shift(op) => Work::Binary(own_kind(types, node, op)),
        Duty::Sum => Work::Binary(sum(types, node, Operator::Add, false)),
        Duty::Difference => difference(types, node),
        Duty::Comparison(relation) => comparison(types, node, relation),
        Duty::UpdatedIntegers(op) => update(types, node, both_kinds(types, node, op), false),
        Duty::UpdatedShift(op) => update(types, node, own_kind(types, node, op), false),
        Duty::UpdatedSum(op, back) => update(types, node, sum(types, node, op, back), false),
        Duty::Increment(op, back, post) => update(types, node, one(types, node, op, back), post),
        Duty::Unary(sign) => Work::Unary(sign, promoted(types, node)),
        Duty::Not => Work::Not,
        Duty::Expression => Work::Expression,
        Duty::If => Work::If,
        Duty::While => Work::While,
        Duty::Do => Work::Do,
        Duty::Return => Work::Return(types.form(types.named_row(node))),
    }
}

// The row of the left operand's type.
fn left_row(types: &Types, node: u32) -> u32
    ensures { result ≡ left_row types.now node }
{
    types.row(types.part(node, 0))
}

fn kind_in(shape: Shape) -> IntKind
    ensures { (look : ℕ → Qualified) → kind_in (type_of look shape) ≡ result }
{
    match shape.of {
        CType::Int(kind) => kind,
        _ => IntKind::Int,
    }
}

fn value_kind(types: &Types, node: u32) -> IntKind
    ensures { result ≡ kind_in (value_type types.now node) }
{
    kind_in(types.value(node))
}

fn common_kind(types: &Types, node: u32) -> IntKind
    ensures { result ≡ common_kind (left_type types.now node) (right_type types.now node) }
{
    common(
        value_kind(types, types.part(node, 0)),
        value_kind(types, types.part(node, 1)),
    )
}

pub(crate) fn promoted(types: &Types, node: u32) -> IntKind
    ensures { result ≡ promote_of (kind_in (left_type types.now node)) }
{
    promote(value_kind(types, types.part(node, 0)))
}

fn both_kinds(types: &Types, node: u32, op: Operator) -> Change
    ensures { result ≡ both_kinds types.now node op }
{
    Change::Arithmetic(op, common_kind(types, node))
}

// The operands of a shift are promoted, each by itself (C11 6.5.7p3).
fn own_kind(types: &Types, node: u32, op: Operator) -> Change
    ensures { result ≡ own_kind types.now node op }
{
    Change::Arithmetic(op, promoted(types, node))
}

fn sum(types: &Types, node: u32, op: Operator, back: bool) -> Change
    ensures { result ≡ sum_change types.now node op back }
{
    let left = types.value(types.part(node, 0));
    let right = types.value(types.part(node, 1));
    change(types, op, back, common_kind(types, node), left, right)
}

// `++E` is `E += 1` (6.5.3.1p2).
fn one(types: &Types, node: u32, op: Operator, back: bool) -> Change
    ensures { result ≡ one_change types.now node op back }
{
    let part = types.part(node, 0);
    let kind = common(value_kind(types, part), IntKind::Int);
    let one = Shape::plain(CType::Int(IntKind::Int));
    change(types, op, back, kind, types.value(part), one)
}

// A pointer beside an integer moves (6.5.6p8).
fn change(
    types: &Types,
    op: Operator,
    back: bool,
    kind: IntKind,
    left: Shape,
    right: Shape,
) -> Change
    ensures { result ≡ change_of types.now op back kind (type_of (type_at types.now.shapes) left) (type_of (type_at types.now.shapes) right) }
{
    match (left.of, right.of) {
        (CType::Pointer(below), _) | (_, CType::Pointer(below)) => {
            Change::Move(back, types.element(below))
        }
        _ => Change::Arithmetic(op, kind),
    }
}

fn is_pointer(types: &Types, node: u32) -> bool
    ensures { result ≡ is_pointer (value_type types.now node) }
{
    matches!(types.value(node).of, CType::Pointer(_))
}

fn difference(types: &Types, node: u32) -> Work
    ensures { result ≡ difference_work types.now node }
{
    let left = types.part(node, 0);
    if is_pointer(types, left) && is_pointer(types, types.part(node, 1)) {
        Work::Distance(types.pointed_element(left))
    } else {
        Work::Binary(sum(types, node, Operator::Subtract, true))
    }
}

fn comparison(types: &Types, node: u32, relation: Relation) -> Work
    ensures { result ≡ comparison_work types.now node relation }
{
    if is_pointer(types, types.part(node, 0)) || is_pointer(types, types.part(node, 1)) {
        Work::ComparePointers(relation)
    } else {
        Work::Compare(relation, common_kind(types, node))
    }
}

fn update(types: &Types, node: u32, change: Change, post: bool) -> Work
    ensures { result ≡ update_work types.now node change post }
{
    let row = left_row(types, node);
    Work::Update(change, types.form(row), types.is_volatile(row), post)
}

/// The work of a node that may give a place.
#[tactic(auto, unfolding(crate::specs::Roles::reach_work))]
pub(crate) fn reach_work(types: &Types, node: u32, reach: Reach) -> Work
    ensures { result ≡ reach_work types.now node reach }
{
    match reach {
        Reach::Dereference => Work::Dereference(types.pointed_element(types.part(node, 0))),
        Reach::Subscript => Work::Subscript(either_element(types, node)),
        Reach::Member => member(types, node, types.row(types.part(node, 0))),
        Reach::PointerMember => pointer_member(types, node, types.pointed(types.part(node, 0))),
        Reach::Group => Work::Pass,
    }
}

/// The element that `[]` reaches: what either operand points to (6.5.2.1p2).
pub(crate) fn either_element(types: &Types, node: u32) -> Element
    ensures { result ≡ either_element types.now (left_type types.now node) (right_type types.now node) }
{
    match types.value(types.part(node, 0)).of {
        CType::Pointer(below) => types.element(below),
        _ => types.pointed_element(types.part(node, 1)),
    }
}

// The row of the member that `.` or `->` names, of a structure by its row.
fn chosen_row(types: &Types, node: u32, row: u32) -> u32
    ensures { result ≡ chosen_row types.now node (type_at types.now.shapes row) }
{
    let members = types.members(row);
    let index = chosen(types, node);
    if index < members.len() {
        members[index]
    } else {
        0
    }
}

fn chosen(types: &Types, node: u32) -> usize
    ensures { result ≡ slice_index_or types.now.chosen node 0 }
{
    entry_at(types.typed().chosen.as_slice(), node as usize, 0)
}

fn member(types: &Types, node: u32, row: u32) -> Work
    ensures { result ≡ member_work types.now node (type_at types.now.shapes row) }
{
    let member = chosen_row(types, node, row);
    let offset = types.offset(row, chosen(types, node));
    Work::Member(
        types.cells(row),
        offset,
        types.element(member),
        types.form(member),
    )
}

fn pointer_member(types: &Types, node: u32, row: u32) -> Work
    ensures { result ≡ pointer_member_work types.now node (type_at types.now.shapes row) }
{
    let member = chosen_row(types, node, row);
    let offset = types.offset(row, chosen(types, node));
    Work::PointerMember(types.element(row), offset, types.element(member))
}

/// The work of a node without operands.
#[tactic(auto, unfolding(crate::specs::Roles::leaf_work))]
pub(crate) fn leaf_work(nodes: &Nodes, node: u32, leaf: Leaf) -> Work
    ensures { result ≡ leaf_work nodes.now node leaf }
{
    let types = nodes.types();
    match leaf {
        Leaf::Constant => constant(types, node),
        Leaf::Goto => Work::Goto(nodes.entity(node)),
        Leaf::Break => Work::Break,
        Leaf::Continue => Work::Continue,
        Leaf::Name => Work::Declare(node),
        Leaf::Declarator => Work::Declare(nodes.name(node)),
        Leaf::Nothing => Work::Declaration,
    }
}

fn constant(types: &Types, node: u32) -> Work
    ensures { result ≡ constant_work types.now node (value_or (slice_index_or types.now.constants node None)) }
{
    constant_of(types, node, value_or(constant_at(types, node)))
}

/// A constant of an expression's type.
pub(crate) fn constant_of(types: &Types, node: u32, value: i128) -> Work
    ensures { result ≡ constant_work types.now node value }
{
    Work::Constant(kind_in(types.shape(types.row(node))), value)
}

/// The value of a constant expression; None where there is none.
pub(crate) fn constant_at(types: &Types, node: u32) -> Option<i128>
    ensures { result ≡ slice_index_or types.now.constants node None }
{
    entry_at(types.typed().constants.as_slice(), node as usize, None)
}

pub(crate) fn value_or(value: Option<i128>) -> i128
    ensures { result ≡ value_or value }
{
    match value {
        None => 0,
        Some(value) => value,
    }
}
