// What goes between the caller and its workers.
ghost use Rattle.std.specs.Prelude.{ℕ, List, None};
ghost use Rattle.cr_outside.specs.Question.{Says};
ghost use Rattle.cr_pool.specs.declared.verdict.Verdict.{Verdict};
ghost use Rattle.cr_standing_workers.specs.declared.orders.Trial.{Trial};

use std::alloc::Global;
use std::marker::Brand;
use std::sync::Arc;

/// A file with its size and its index, shared between threads.
#[derive(Drop)]
pub struct Shared<T> {
    pub bytes: Vec<u8>,
    pub size: u64,
    pub prep: T,
}

/// A run of positions of a file that are to be tried in their order, up to the first that is asked about. Each order has a ticket of its own.
#[derive(Drop)]
pub struct Place<T> {
    pub ticket: u64,
    pub from: u64,
    /// The position behind the last one.
    pub to: u64,
    pub file: Arc<Shared<T>, Global>,
}

#[derive(Drop)]
pub enum Order<T> {
    Try(Place<T>),
    Stop,
}

/// What a worker says of a position.
#[derive(Clone, Copy, Debug, Drop, PartialEq, Eq)]
pub enum Trial {
    No,
    Yes,
    /// It wasn't decided.
    Skipped,
    /// It is smaller and lawful, and its test runs.
    Asked,
}

/// What a worker says of a position of its order. Those before it are rejected.
#[derive(Drop)]
pub struct Reply<T> {
    pub place: Place<T>,
    pub at: u64,
    pub trial: Trial,
    /// Whether the question was asked.
    pub asked: bool,
}

/// What the orders and replies of one reduction are about. Each reduction picks it.
pub trait Subject<T> {
    /// What the judges say at their key.
    ghost told: { Says };

    /// The orders that may be given: of the index of a file, the file, its size and a position.
    ghost orders: { T → List ℕ → ℕ → ℕ → Type 0 };

    /// The replies that may be given: of a file, a position and what is said of it.
    ghost replies: { List ℕ → ℕ → Trial → Type 0 };

    /// The verdicts that may be remembered: of a file.
    ghost verdicts: { List ℕ → Verdict → Type 0 };
}

impl<T> Subject<T> for Brand {
    ghost told = { λ test name file. None };

    ghost orders = { λ prep file size position. ⊥ };

    ghost replies = { λ file position trial. ⊥ };

    ghost verdicts = { λ file verdict. ⊥ };
}
