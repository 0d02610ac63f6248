// Expressions (C11 6.5).
#![tactic(auto, using(crate::proofs::Turning::known_is, crate::proofs::Turning::last_is))]

ghost use Rattle.std.specs.Prelude.{◌≡◌, true, List};
ghost use Rattle.std.specs.List.{AllZip};
ghost use Rattle.cr_eval_join.specs.Turns.{is_expression};
ghost use Rattle.cr_meaning.specs.World.{Answer};
ghost use Rattle.cr_meaning.specs.Turns.{next_of};
ghost use Rattle.cr_exec_slices.specs.Shown.{way_of};
ghost use Rattle.cr_exec_turns.specs.Held.{shows};
ghost use Rattle.cr_exec_turns.specs.Kept.{first_truth, turned};

use crate::held::Held;
use crate::ways::truth_in;
use cr_eval_join::{Next, ahead};
use cr_exec_slices::Way;
use cr_meaning::{Op, Work};

/// Whether the node is an expression, no statement, no declaration and not the whole program.
#[inline]
pub fn is_expression(work: &Work) -> bool
    ensures { result ≡ is_expression work.now }
{
    match work {
        Work::Expression
        | Work::If
        | Work::While
        | Work::Do
        | Work::For(_, _, _, _, _)
        | Work::Switch(_, _, _, _, _, _)
        | Work::Block(_, _)
        | Work::Labelled
        | Work::Break
        | Work::Continue
        | Work::Goto(_)
        | Work::Return(_)
        | Work::Declaration
        | Work::Declare(_)
        | Work::Initialise(_, _)
        | Work::Program(_, _, _, _) => false,
        _ => true,
    }
}

/// The truth of the first operand's value.
#[inline]
fn first_truth(done: &[Held]) -> Option<bool>
    ensures { result ≡ first_truth done.now }
{
    match done {
        [first, ..] => truth_in(first),
        [] => None,
    }
}

#[inline]
fn turned(next: Next) -> Way
    ensures { result ≡ turned next }
{
    match next {
        Next::Operand(node) => Way::Operand(node),
        Next::Call(body) => Way::Enter(body),
        Next::Ready => Way::Ready,
    }
}

/// The way on of an expression's node.
#[inline]
pub(crate) fn expression_way(op: &Op, done: &[Held]) -> Way
    ensures { is_expression op.now.work ≡ true → (answers : List Answer) → AllZip shows done.now answers → next_of op.now answers ≡ way_of answers result }
{
    turned(ahead(op, done.len(), first_truth(done)))
}
