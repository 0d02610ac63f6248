// What sees the nodes of a run.
ghost use Rattle.std.specs.Prelude.{◌≡◌, List, [], ◌∷◌, ◌++◌, OnOk};
ghost use Rattle.cr_eval_join.specs.Parts.{IsFootOf};
ghost use Rattle.cr_eval.specs.Table.{program_of};
ghost use Rattle.cr_exec_world.specs.Worlds.{world_of};
ghost use Rattle.cr_meaning.specs.Events.{Event};
ghost use Rattle.cr_meaning.specs.Nodes.{events_of};
ghost use Rattle.cr_meaning.specs.World.{Program as SpecProgram, Answer};
ghost use Rattle.cr_meaning_seen.specs.Marks.{Mark, began, left};
ghost use Rattle.cr_exec_turns.specs.Held.{shows};

use crate::running::Running;
use cr_exec_slices::{Halted, Nodes, Way};
use cr_exec_stack::Stack;
use cr_exec_turns::Held;
use cr_footprint::{Foot, NoMemory};
use std::alloc::Global;

/// Sees where nodes begin and end in a run, those of a called function's body within its call.
pub trait Watch {
    /// What the watch knows of the nodes that have begun and ended so far in the run of a program, in turn.
    ghost knows: { Self → SpecProgram → List Mark → Type 0 };

    /// A node is reached.
    fn begin(&mut self, node: u32) -> Result<(), NoMemory>
        ensures { (p : SpecProgram) (marks : List Mark) → knows self.old p marks → OnOk result (knows self.new p (marks ++ began node ∷ [])) };

    /// A node has come to its answer, with what its evaluation read and wrote: nothing, where it is no expression. A node that `exit` or
    /// `abort` cuts off has no end.
    fn end(&mut self, node: u32, foot: &Foot) -> Result<(), NoMemory>
        ensures { (p : SpecProgram) (marks : List Mark) (events : List Event) → knows self.old p marks → IsFootOf foot.now events
            → OnOk result (knows self.new p (marks ++ left node events ∷ [])) };
}

/// Sees nothing.
#[derive(Drop)]
pub(crate) struct Unseen;

impl Watch for Unseen {
    ghost knows = { λ unseen p marks. Unit {0} };

    #[inline]
    fn begin(&mut self, _node: u32) -> Result<(), NoMemory> {
        Ok(())
    }

    #[inline]
    fn end(&mut self, _node: u32, _foot: &Foot) -> Result<(), NoMemory> {
        Ok(())
    }
}

/// A program that runs, and what sees its nodes.
#[derive(Drop)]
pub(crate) struct Watched<'a, W: Watch> {
    pub(crate) running: Running<'a>,
    pub(crate) watch: W,
}

/// The watch sees a node's end with the footprint of its answer.
#[inline]
fn end<W: Watch>(alloc: Global, watch: &mut W, node: u32, held: &Held) -> Result<(), NoMemory>
    ensures { (p : SpecProgram) (marks : List Mark) (answer : Answer) → W.knows watch.old p marks → shows held.now answer
        → OnOk result (W.knows watch.new p (marks ++ left node (events_of answer) ∷ [])) }
{
    match held {
        Held::Part(part) => watch.end(node, &part.foot),
        _ => {
            let nothing = Foot::none(alloc);
            watch.end(node, &nothing)
        }
    }
}

impl<'a, W: Watch> Nodes for Watched<'a, W> {
    type Held = Held;

    ghost program = { λ watched. program_of watched.running.table.now };

    ghost world = { λ watched. world_of watched.running.world };

    ghost shows = { shows };

    ghost has_seen = { λ watched marks. W.knows watched.watch (program_of watched.running.table.now) marks };

    #[inline]
    fn steps(&self) -> u64 {
        self.running.steps()
    }

    #[inline]
    fn reach(&mut self, node: u32) -> Result<(), Halted> {
        let Ok(()) = self.watch.begin(node) else {
            return Err(Halted::NoMemory);
        };
        self.running.reach(node)
    }

    #[inline]
    fn next(&self, node: u32, done: &[Held]) -> Way {
        self.running.next(node, done)
    }

    fn before(&mut self, node: u32, done: &[Held]) -> Result<(), Halted> {
        self.running.before(node, done)
    }

    #[inline]
    fn join(&mut self, stack: &mut Stack<Held>) -> Result<(), Halted> {
        let node = stack.node();
        self.running.join(stack)?;
        let Some(held) = stack.done().first() else {
            return Err(Halted::NoMemory);
        };
        match end(self.running.alloc, &mut self.watch, node, held) {
            Ok(()) => Ok(()),
            Err(_) => Err(Halted::NoMemory),
        }
    }

    fn passed(&self) -> Held {
        self.running.passed()
    }

    fn absent(&self) -> Held {
        self.running.absent()
    }
}
