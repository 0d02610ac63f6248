// The objects of names.
#![tactic(auto, using(crate::proofs::Working::worked, crate::proofs::Working::unsaid, crate::proofs::Working::left, crate::proofs::Working::undefined))]

ghost use Rattle.std.specs.Prelude.{◌≡◌, [], ◌∷◌, MatchOption, OnOk, IfOk, IfErr};
ghost use Rattle.cr_meaning.specs.World.{object_for, bound, mark};
ghost use Rattle.cr_exec_world.specs.Names.{binding_of};

use cr_memory::Trap;
use std::alloc::Global;
use std::marker::Model;

/// An object that was entered for a node, or the beginning of a block or a call.
#[derive(Clone, Copy)]
pub enum Binding {
    /// The node, and the number of the object.
    Bound(u32, u32),
    Mark,
}

/// A binding, and what its node had before.
#[derive(Clone, Copy)]
pub(crate) enum Entry {
    Bound {
        node: u32,
        object: u32,
        before: Option<u32>,
    },
    Mark,
}

/// The bindings, of which the last one counts for a node: looked up in one step.
#[derive(Drop)]
pub struct Names {
    latest: Vec<Option<u32>>,
    entries: Vec<Entry>,
}

impl Model for Names {
    ghost use Rattle.std.specs.Prelude.{List, map, reverse};
    ghost use Rattle.cr_meaning.specs.World.{Binding as SpecBinding};

    ghost Value = { List SpecBinding };

    ghost use Rattle.cr_exec_world.specs.Names.{entry_of, IsFollowed};

    ghost view = { λ names. map entry_of (reverse names.entries.items) };

    ghost invariant = { λ names. IsFollowed names.latest.items (reverse names.entries.items) };
}

impl Names {
    /// No binding yet, of any of so many nodes. The error is want of memory.
    pub fn new(alloc: Global, nodes: usize) -> Result<Names, Trap>
        ensures none { IfOk result (λ names. names ≡ []) }
        ensures causes { IfErr result (λ trap. trap ≡ Trap.NoMemory) }
    {
        match vec![in alloc; None; nodes] {
            Ok(latest) => Ok(Names {
                latest,
                entries: Vec::new(alloc),
            }),
            Err(_) => Err(Trap::NoMemory),
        }
    }

    /// The object that was entered last for a node.
    #[inline]
    pub fn find(&self, node: u32) -> Option<u32>
        ensures { object_for self.now node ≡ result }
    {
        let place = node as usize;
        if place < self.latest.len() {
            self.latest[place]
        } else {
            None
        }
    }

    /// An object is entered for a node. The error is want of memory, or a node that no program has.
    pub fn bind(&mut self, node: u32, object: u32) -> Result<(), Trap>
        ensures bound { OnOk result (self.new ≡ bound node object ∷ self.old) }
        ensures causes { IfErr result (λ trap. trap ≡ Trap.NoMemory) }
    {
        let place = node as usize;
        if place >= self.latest.len() {
            return Err(Trap::NoMemory);
        }
        let before = self.latest[place];
        let Ok(()) = self.entries.push(Entry::Bound {
            node,
            object,
            before,
        })
        else {
            return Err(Trap::NoMemory);
        };
        self.latest[place] = Some(object);
        Ok(())
    }

    /// A block or a call begins. The error is want of memory.
    pub fn mark(&mut self) -> Result<(), Trap>
        ensures marked { OnOk result (self.new ≡ mark ∷ self.old) }
        ensures causes { IfErr result (λ trap. trap ≡ Trap.NoMemory) }
    {
        match self.entries.push(Entry::Mark) {
            Ok(()) => Ok(()),
            Err(_) => Err(Trap::NoMemory),
        }
    }

    /// Takes out the last binding, if there is one.
    pub fn pop(&mut self) -> Option<Binding>
        ensures { MatchOption result ((self.old ≡ []) × (self.new ≡ [])) (λ binding. self.old ≡ binding_of binding ∷ self.new) }
    {
        match self.entries.pop() {
            Some(
                Entry::Bound {
                    node,
                    object,
                    before,
                },
            ) => {
                self.latest[node as usize] = before;
                Some(Binding::Bound(node, object))
            }
            Some(Entry::Mark) => Some(Binding::Mark),
            None => None,
        }
    }
}
