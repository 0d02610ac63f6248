ghost use Rattle.std.specs.Prelude.{◌≡◌, ℕ, true, List, length, slice_get, [], ◌∷◌};
ghost use Rattle.cr_meaning.specs.World.{Answer};
ghost use Rattle.cr_meaning.specs.Values.{is_null, truth_of};
ghost use Rattle.cr_meaning.specs.Turns.{operand, choose, answer_truth, and_next, or_next, conditional_next, body_next, next_of};
ghost use Rattle.cr_eval_join.specs.Parts.{ArePartsOf};
ghost use Rattle.cr_eval_join.specs.Turns.{way_of, is_expression, AreAnswers, manner_of, turned, called_body, body_of};

use crate::part::Part;
use crate::way::Next;
use cr_meaning::{Callee, Op, Value, Work};
use cr_memory::Pointer;

fn is_null(at: Pointer) -> bool
    ensures { result ≡ is_null at }
{
    match at {
        Pointer::Null => true,
        Pointer::At { .. } => false,
    }
}

/// Whether a scalar compares unequal to 0 (6.5.13p3, 6.5.14p3, 6.5.15p4), if there is a value. A pointer isn't looked up.
pub fn truth_of(value: &Value) -> Option<bool>
    ensures { result ≡ truth_of value.now }
{
    match value {
        Value::Number(_, number) => Some(*number != 0),
        Value::Pointer(at) => Some(!is_null(*at)),
        Value::Nothing | Value::Place(_) | Value::Cells(_) => None,
    }
}

/// The truth of the one operand that was evaluated.
fn first_truth(done: &[Part]) -> Option<bool>
    ensures { (answer : Answer) → ArePartsOf done.now (answer ∷ []) → answer_truth answer ≡ result }
{
    match done.first() {
        Some(part) => truth_of(&part.value),
        None => None,
    }
}

#[inline]
fn operand(parts: &[u32], place: usize) -> Next
    ensures { operand (slice_get parts.now place) ≡ way_of result }
{
    match parts.get(place) {
        Some(node) => Next::Operand(*node),
        None => Next::Ready,
    }
}

fn choose(truth: Option<bool>, one: Next, other: Next) -> Next
    ensures { choose truth (way_of one) (way_of other) ≡ way_of result }
{
    match truth {
        Some(true) => one,
        Some(false) => other,
        None => Next::Ready,
    }
}

fn and_next(parts: &[u32], count: usize, truth: Option<bool>) -> Next
    ensures { (answers : List Answer) → AreAnswers answers count truth → and_next parts.now answers ≡ way_of result }
{
    if count == 1 {
        return choose(truth, operand(parts, 1), Next::Ready);
    }
    operand(parts, count)
}

fn or_next(parts: &[u32], count: usize, truth: Option<bool>) -> Next
    ensures { (answers : List Answer) → AreAnswers answers count truth → or_next parts.now answers ≡ way_of result }
{
    if count == 1 {
        return choose(truth, Next::Ready, operand(parts, 1));
    }
    operand(parts, count)
}

fn conditional_next(parts: &[u32], count: usize, truth: Option<bool>) -> Next
    ensures { (answers : List Answer) → AreAnswers answers count truth → conditional_next parts.now answers ≡ way_of result }
{
    if count == 0 {
        return operand(parts, 0);
    }
    if count == 1 {
        return choose(truth, operand(parts, 1), operand(parts, 2));
    }
    Next::Ready
}

/// After the arguments the body of a function of the program (6.5.2.2p10).
fn body_next(parts: &[u32], body: u32, count: usize) -> Next
    ensures { (answers : List Answer) → length answers ≡ count → body_next parts.now body answers ≡ way_of result }
{
    if count == parts.len() {
        return Next::Call(body);
    }
    operand(parts, count)
}

/// How the operands of an expression come, calls of the program's functions aside.
#[derive(Clone, Copy)]
enum Manner {
    And,
    Or,
    Choice,
    InTurn,
}

fn manner_of(work: &Work) -> Manner
    ensures { result ≡ manner_of work.now }
{
    match work {
        Work::LogicalAnd => Manner::And,
        Work::LogicalOr => Manner::Or,
        Work::Conditional(_) => Manner::Choice,
        _ => Manner::InTurn,
    }
}

fn turned(manner: Manner, parts: &[u32], count: usize, truth: Option<bool>) -> Next
    ensures { (answers : List Answer) → AreAnswers answers count truth → turned manner parts.now answers ≡ way_of result }
{
    match manner {
        Manner::And => and_next(parts, count, truth),
        Manner::Or => or_next(parts, count, truth),
        Manner::Choice => conditional_next(parts, count, truth),
        Manner::InTurn => operand(parts, count),
    }
}

fn called_body(callee: &Callee) -> Option<u32>
    ensures { result ≡ called_body callee.now }
{
    match callee {
        Callee::Function(_, body, _) => Some(*body),
        _ => None,
    }
}

/// The body of the program's function that a node calls.
fn body_of(work: &Work) -> Option<u32>
    ensures { result ≡ body_of work.now }
{
    match work {
        Work::Call(callee) => called_body(callee),
        _ => None,
    }
}

/// Which operand of an expression's node is evaluated next, by how many are, and by whether the only one that is compares unequal to 0.
pub fn ahead(op: &Op, count: usize, truth: Option<bool>) -> Next
    ensures { (answers : List Answer) → AreAnswers answers count truth → is_expression op.now.work ≡ true → next_of op.now answers ≡ way_of result }
{
    let parts = op.parts.as_slice();
    match body_of(&op.work) {
        Some(body) => body_next(parts, body, count),
        None => turned(manner_of(&op.work), parts, count, truth),
    }
}

/// Which operand of an expression's node is evaluated next, from the results so far, or that its own work comes. Operands are evaluated
/// from left to right, only those that C evaluates: `&&`, `||` and `?:` go by their first operand (6.5.13p4, 6.5.14p4, 6.5.15p4); one
/// without a value leaves its case to the node's work. Of a statement's or declaration's node nothing is said.
pub fn next(op: &Op, done: &[Part]) -> Next
    ensures { (answers : List Answer) → ArePartsOf done.now answers → is_expression op.now.work ≡ true → next_of op.now answers ≡ way_of result }
{
    ahead(op, done.len(), first_truth(done))
}
