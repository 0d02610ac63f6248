// A list of edits.
ghost use Rattle.std.specs.Prelude.{◌≡◌, ◌≤◌, [], ◌∷◌, ◌++◌, length, slice_index_or, OnOk, OnErr};

use crate::Change;
use std::alloc::{AllocError, Global};
use std::marker::Model;

// Where an edit's changes stand in the list of all changes.
#[derive(Clone, Copy, Drop)]
pub struct Span {
    from: usize,
    to: usize,
}

/// Edits in order, each a list of changes. There are at most 1,048,576 of them, as many as a file has bytes. Clauses see the list of their
/// lists.
#[derive(Drop)]
pub struct Edits {
    spans: Vec<Span>,
    changes: Vec<Change>,
}

/// A level has no more edits than this.
const MOST: usize = 1_048_576;

impl Model for Edits {
    ghost use Rattle.std.specs.Prelude.{List, ◌≤◌, length, map, All};
    ghost use Rattle.pass_edit.specs.declared.change.Change.{Change as SpecChange};
    ghost use Rattle.pass_edit.specs.Menu.{cut, LiesIn};

    ghost Value = { List (List SpecChange) };

    ghost view = { λ e. map (cut e.changes.items) e.spans.items };

    ghost invariant = { λ e. (length e.spans.items ≤ 1048576) × All (LiesIn (length e.changes.items)) e.spans.items };
}

impl Edits {
    /// No edit yet. It takes no memory until one is pushed.
    pub fn new(alloc: Global) -> Edits
        ensures { result ≡ [] }
    {
        Edits {
            spans: Vec::new(alloc),
            changes: Vec::new(alloc),
        }
    }

    /// How many edits there are.
    pub fn len(&self) -> usize
        ensures count { result ≡ length self.now }
        ensures few { result ≤ 1048576 }
    {
        self.spans.len()
    }

    /// The edit of this number, or none of its changes where there is no such edit.
    pub fn get(&self, at: usize) -> &[Change]
        ensures { result.now ≡ slice_index_or self.now at [] }
    {
        match self.spans.get(at) {
            Some(span) => &self.changes[span.from..span.to],
            None => &[],
        }
    }

    /// Puts an edit at the end. The error is want of memory, which is answered too where there are 1,048,576 edits.
    pub fn push(&mut self, edit: &[Change]) -> Result<(), AllocError>
        ensures ok { OnOk result (self.new ≡ self.old ++ edit.now ∷ []) }
        ensures err { OnErr result (self.new ≡ self.old) }
    {
        if self.spans.len() >= MOST {
            return Err(AllocError);
        }
        self.spans.reserve(1)?;
        let from = self.changes.len();
        self.changes.extend_from_slice(edit)?;
        let to = self.changes.len();
        self.spans.push(Span { from, to })?;
        Ok(())
    }
}
