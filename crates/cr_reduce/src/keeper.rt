// Who is told of each acceptance.
ghost use Rattle.std.specs.Prelude.{◌≡◌, ◌++◌, ◌∷◌, [], List, length, OnOk};
ghost use Rattle.cr_reduce.specs.Keeping.{Front};
ghost use Rattle.cr_reduce.specs.declared.end.Accepted.{Accepted as Row};

use crate::end::Accepted;
use cr_outside::NoMemory;
use std::alloc::Global;

/// Keeps each acceptance of a reduction before it goes on.
pub trait Keeper {
    /// What a keeper holds on to.
    type Held;

    /// No call changes it.
    ghost held: { Self → Self.Held };

    /// It has kept these rows, and can keep another.
    ghost keeps: { Self → List Row → Type 0 };

    /// From the one to the other, what it had kept was a front of these rows.
    ghost kept_on: { Self → Self → List Row → Type 0 };

    /// No time has passed.
    ghost at_once: { (k : Self) (rows : List Row) → keeps k rows → kept_on k k rows };

    /// One time after another, with more rows.
    ghost then: { (a b c : Self) (some all : List Row) → Front some all → kept_on a b some → kept_on b c all → kept_on a c all };

    /// Keeps one row more.
    fn keep(&mut self, alloc: Global, row: Accepted, count: u64) -> Result<(), NoMemory>
        requires { (rows : List Row) × (length rows ≡ count) × keeps self.old rows }
        ensures keeps { OnOk result ((rows : List Row) → length rows ≡ count → keeps self.old rows → keeps self.new (rows ++ row ∷ [])) }
        ensures kept_on { (rows : List Row) → length rows ≡ count → keeps self.old rows → kept_on self.old self.new (rows ++ row ∷ []) }
        ensures held { held self.new ≡ held self.old };
}

/// The keeper that keeps nothing.
#[derive(Clone, Copy, Debug, PartialEq, Eq)]
pub struct NoKeeper;

impl Keeper for NoKeeper {
    type Held = ();

    ghost held = { λ _. tt };

    ghost keeps = { λ _ _. Unit {0} };

    ghost kept_on = { λ _ _ _. Unit {0} };

    ghost at_once = { λ _ _ _. tt };

    ghost then = { λ _ _ _ _ _ _ _ _. tt };

    fn keep(&mut self, _alloc: Global, _row: Accepted, _count: u64) -> Result<(), NoMemory> {
        Ok(())
    }
}
