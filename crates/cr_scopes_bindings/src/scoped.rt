// The declarations in the scopes that are open.
ghost use Rattle.std.specs.Prelude.{◌≡◌, ◌∷◌, [], ℕ, None, slice_index_or, MatchOption, OnOk, IfOk};
ghost use Rattle.cr_scopes_bindings.specs.Stacks.{found_in, outside};

use std::alloc::{AllocError, Global};
use std::marker::Model;

/// A declaration of a name at a token, or the beginning of a scope.
#[derive(Clone, Copy)]
pub enum Binding {
    Bound(u32, u32),
    Mark,
}

/// A binding, and what its name had before.
#[derive(Clone, Copy)]
pub(crate) enum Entry {
    Bound {
        name: u32,
        token: u32,
        before: Option<u32>,
    },
    Mark,
}

/// The bindings, of which the last one counts for a name: looked up in one step.
#[derive(Drop)]
pub(crate) struct Scoped {
    latest: Vec<Option<u32>>,
    entries: Vec<Entry>,
}

impl Model for Scoped {
    ghost use Rattle.std.specs.Prelude.{List, map, reverse};
    ghost use Rattle.cr_scopes_bindings.specs.declared.scoped.Binding.{Binding as SpecBinding};

    ghost Value = { List SpecBinding };

    ghost use Rattle.cr_scopes_bindings.specs.Entries.{entry_of, IsFollowed};

    ghost view = { λ scoped. map entry_of (reverse scoped.entries.items) };

    ghost invariant = { λ scoped. IsFollowed scoped.latest.items (reverse scoped.entries.items) };
}

impl Scoped {
    /// No binding yet, of any of so many names.
    pub(crate) fn new(alloc: Global, names: usize) -> Result<Scoped, AllocError>
        ensures { IfOk result (λ scoped. scoped ≡ []) }
    {
        Ok(Scoped {
            latest: vec![in alloc; None; names]?,
            entries: Vec::new(alloc),
        })
    }

    /// The latest declaration of a name.
    pub(crate) fn find(&self, name: u32) -> Option<u32>
        ensures { found_in self.now name ≡ result }
    {
        let place = name as usize;
        if place < self.latest.len() {
            self.latest[place]
        } else {
            None
        }
    }

    /// A name is declared at a token. The error is want of memory, or a name that no token has.
    pub(crate) fn bind(&mut self, name: u32, token: u32) -> Result<(), AllocError>
        ensures { OnOk result (self.new ≡ Binding.Bound name token ∷ self.old) }
    {
        let place = name as usize;
        if place >= self.latest.len() {
            return Err(AllocError);
        }
        let before = self.latest[place];
        self.entries.push(Entry::Bound {
            name,
            token,
            before,
        })?;
        self.latest[place] = Some(token);
        Ok(())
    }

    /// A scope begins.
    pub(crate) fn open(&mut self) -> Result<(), AllocError>
        ensures { OnOk result (self.new ≡ Binding.Mark ∷ self.old) }
    {
        self.entries.push(Entry::Mark)?;
        Ok(())
    }

    fn pop(&mut self) -> Option<Binding>
        ensures { MatchOption result ((self.old ≡ []) × (self.new ≡ [])) (λ binding. self.old ≡ binding ∷ self.new) }
    {
        match self.entries.pop() {
            Some(
                Entry::Bound {
                    name,
                    token,
                    before,
                },
            ) => {
                self.latest[name as usize] = before;
                Some(Binding::Bound(name, token))
            }
            Some(Entry::Mark) => Some(Binding::Mark),
            None => None,
        }
    }

    /// The innermost scope ends.
    pub(crate) fn close(&mut self)
        ensures { self.new ≡ outside self.old }
    {
        while let Some(Binding::Bound(_, _)) = self.pop() {}
    }
}
