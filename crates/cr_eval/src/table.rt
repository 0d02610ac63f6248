#![tactic(auto, using(crate::proofs::Answering::answers, crate::proofs::Answering::then_answers, crate::proofs::Answering::ends_answer, crate::proofs::Answering::written))]

use cr_meaning::{Limits, Op};
use cr_memory::{Cell, Guard, Scalar};
use cr_rows::Row;
use cr_sequence::Times;
use std::alloc::{AllocError, Global};

/// What the nodes of a program do, and what this needs of its types and objects; made once for a program.
#[derive(Drop)]
pub struct Table {
    /// The operation of each node, and behind them that of the whole program.
    pub ops: Row<Op>,
    /// For each node that declares an object or is a literal the kinds and guards of the object's cells.
    pub shapes: Row<Times<(Scalar, Guard)>>,
    /// For each string literal its bytes with the closing zero (C11 6.4.5p6).
    pub literals: Row<Option<Row<Cell>>>,
    /// For each row of the table of types the kinds of its cells.
    pub kinds: Row<Times<Scalar>>,
    pub limits: Limits,
}

impl Table {
    ghost use Rattle.std.specs.Prelude.{◌≡◌, IfOk, IfSome, length};
    ghost use Rattle.cr_eval.specs.Table.{program_of};

    /// The kinds of the cells of a row of the table of types, if they are spelled out: those of what is no array.
    #[inline]
    pub fn kinds_of(&self, row: u32) -> Option<&[Scalar]>
        ensures { IfSome result (λ kinds. kinds.now ≡ (program_of self.now).kinds row) }
    {
        match self.kinds.as_slice().get(row as usize) {
            Some(kinds) => kinds.as_slice(),
            None => Some(&[]),
        }
    }

    /// The same, spelled out.
    pub fn spelled_kinds(&self, alloc: Global, row: u32) -> Result<Vec<Scalar>, AllocError>
        ensures { IfOk result (λ kinds. kinds.items ≡ (program_of self.now).kinds row) }
    {
        match self.kinds.as_slice().get(row as usize) {
            Some(kinds) => kinds.spelled(alloc),
            None => Ok(Vec::new(alloc)),
        }
    }

    /// How many cells a row of the table of types has.
    #[inline]
    pub fn cells_of(&self, row: u32) -> usize
        ensures { result ≡ length ((program_of self.now).kinds row) }
    {
        match self.kinds.as_slice().get(row as usize) {
            Some(kinds) => kinds.len(),
            None => 0,
        }
    }

    /// How many cells the object has that a node declares.
    #[inline]
    pub fn cells_for(&self, node: u32) -> usize
        ensures { result ≡ length ((program_of self.now).shape node) }
    {
        match self.shapes.as_slice().get(node as usize) {
            Some(shape) => shape.len(),
            None => 0,
        }
    }
}
