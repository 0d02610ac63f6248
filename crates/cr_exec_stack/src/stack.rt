// The stack of nodes.
ghost use Rattle.std.specs.Prelude.{◌≡◌, false, [], ◌∷◌, ◌++◌, take, option_to_list, IfNone, OnErr, OnOk, MatchBool};

use std::alloc::{AllocError, Global};
use std::marker::Model;

/// A node that waits, and where its answers begin in the list of all.
#[derive(Clone, Copy)]
pub(crate) struct Frame {
    node: u32,
    mark: usize,
}

/// The node at work, and below it those that wait for an answer, each with the answers of its parts so far. There is always one.
#[derive(Drop)]
pub struct Stack<T> {
    node: u32,
    mark: usize,
    frames: Vec<Frame>,
    answers: Vec<T>,
}

impl<T> Model for Stack<T> {
    ghost use Rattle.cr_exec_stack.specs.Waiting.{Waiting, waiting_code};

    ghost Value = { Waiting T };

    ghost coded = { waiting_code T.code };

    ghost use Rattle.cr_exec_stack.specs.Marks.{waiting_of, AreMarked};

    ghost view = { λ s. waiting_of s.node s.mark s.frames.items s.answers.items };

    ghost invariant = { λ s. AreMarked s.mark s.frames.items s.answers.items };
}

impl<T> Stack<T> {
    /// One node at work, none of whose parts has answered.
    pub fn new(alloc: Global, node: u32) -> Self
        ensures { result ≡ record { top = record { node = node; done = [] }; below = [] } }
    {
        Stack {
            node,
            mark: 0,
            frames: Vec::new(alloc),
            answers: Vec::new(alloc),
        }
    }

    /// The node at work.
    #[inline]
    pub fn node(&self) -> u32
        ensures { result ≡ self.now.top.node }
    {
        self.node
    }

    /// The answers of its parts so far.
    #[inline]
    pub fn done(&self) -> &[T]
        ensures { result.now ≡ self.now.top.done }
    {
        &self.answers[self.mark..]
    }

    /// Takes out the last of them, if there is one.
    #[inline]
    pub fn pop(&mut self) -> Option<T>
        ensures last { self.old.top.done ≡ self.new.top.done ++ option_to_list result }
        ensures none { IfNone result (self.old.top.done ≡ []) }
        ensures node { self.new.top.node ≡ self.old.top.node }
        ensures below { self.new.below ≡ self.old.below }
    {
        if self.answers.len() == self.mark {
            return None;
        }
        self.answers.pop()
    }
}

impl<T: Drop> Stack<T> {
    ghost use Rattle.cr_exec_stack.specs.Waiting.{handed};

    /// Another node is at work, and the one so far waits for its answer. The error is want of memory.
    #[inline]
    pub fn begin(&mut self, node: u32) -> Result<(), AllocError>
        ensures { OnOk result (self.new ≡ record { top = record { node = node; done = [] }; below = self.old.top ∷ self.old.below }) }
    {
        self.frames.push(Frame {
            node: self.node,
            mark: self.mark,
        })?;
        self.node = node;
        self.mark = self.answers.len();
        Ok(())
    }

    /// A part of the node at work has answered. The error is want of memory, and then nothing is changed.
    #[inline]
    pub fn give(&mut self, answer: T) -> Result<(), AllocError>
        ensures given { OnOk result (self.new ≡ record {
          top = record { node = self.old.top.node; done = self.old.top.done ++ answer ∷ [] };
          below = self.old.below;
        }) }
        ensures failed { OnErr result (self.new ≡ self.old) }
    {
        self.answers.push(answer)?;
        Ok(())
    }

    /// Only the first answers of the node at work stay, as many as said.
    #[inline]
    pub fn keep(&mut self, count: usize)
        ensures { self.new ≡ record {
          top = record { node = self.old.top.node; done = take count self.old.top.done };
          below = self.old.below;
        } }
    {
        if count < self.answers.len() - self.mark {
            self.answers.truncate(self.mark + count);
        }
    }

    /// The node at work is left, and the one that waits for it is at work again, with the answers of both, which stay where they are.
    /// False where none waits, and then nothing is changed.
    #[inline]
    pub fn hand_up(&mut self) -> bool
        ensures up { MatchBool result (handed self.old.top.done self.old.below ≡ self.new.top ∷ self.new.below) (self.old.below ≡ []) }
        ensures last { result ≡ false → self.new ≡ self.old }
    {
        match self.frames.pop() {
            Some(frame) => {
                self.node = frame.node;
                self.mark = frame.mark;
                true
            }
            None => false,
        }
    }
}
