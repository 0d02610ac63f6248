// A case at a node as the end of a run.
#![tactic(auto, using(crate::proofs::Parting::unsaid, crate::proofs::Parting::no_memory, crate::proofs::Parting::none_join))]

ghost use Rattle.std.specs.Prelude.{◌≡◌};
ghost use Rattle.cr_exec_world.specs.Worlds.{halt_of};
ghost use Rattle.cr_exec_expressions.specs.Halts.{halting};

use cr_exec_slices::Halted;
use cr_memory::Trap;

fn halted(trap: Trap, node: u32) -> Halted
    ensures { result ≡ halt_of trap node }
{
    match trap {
        Trap::Undefined(number) => Halted::Undefined(number, node),
        Trap::Left(number) => Halted::Left(number, node),
        Trap::NoMemory => Halted::NoMemory,
    }
}

/// Work that is done, or a case at the node.
#[inline]
pub(crate) fn halting(node: u32, done: Result<(), Trap>) -> Result<(), Halted>
    ensures { result ≡ halting node done }
{
    match done {
        Ok(()) => Ok(()),
        Err(trap) => Err(halted(trap, node)),
    }
}
