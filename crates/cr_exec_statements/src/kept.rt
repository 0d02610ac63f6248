// Answers as they are kept.
ghost use Rattle.std.specs.Prelude.{◌≡◌, List};
ghost use Rattle.std.specs.List.{AllZip};
ghost use Rattle.cr_meaning.specs.World.{Answer};
ghost use Rattle.cr_meaning.specs.Nodes.{last_in};
ghost use Rattle.cr_exec_turns.specs.Held.{shows};
ghost use Rattle.cr_exec_world.specs.Worlds.{halt_of};
ghost use Rattle.cr_exec_statements.specs.Kept.{passing};

use cr_exec_slices::Halted;
use cr_exec_stack::Stack;
use cr_exec_turns::Held;
use cr_memory::Trap;

/// A case at a node.
pub(crate) fn halted(trap: Trap, node: u32) -> Halted
    ensures { result ≡ halt_of trap node }
{
    match trap {
        Trap::Undefined(number) => Halted::Undefined(number, node),
        Trap::Left(number) => Halted::Left(number, node),
        Trap::NoMemory => Halted::NoMemory,
    }
}

/// The next statement follows on work that gives no answer.
#[inline]
pub(crate) fn passing(done: Result<(), Halted>) -> Result<Held, Halted>
    ensures { result ≡ passing done }
{
    match done {
        Ok(()) => Ok(Held::Next),
        Err(halted) => Err(halted),
    }
}

/// The last answer of the node at work; without any the next statement follows.
#[inline]
pub(crate) fn last(stack: &mut Stack<Held>) -> Held
    ensures shown { (answers : List Answer) → AllZip shows stack.old.top.done answers → shows result (last_in answers) }
    ensures below { stack.new.below ≡ stack.old.below }
{
    match stack.pop() {
        Some(held) => held,
        None => Held::Next,
    }
}
