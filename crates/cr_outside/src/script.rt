// A table of files with their answers.
ghost use Rattle.std.specs.Prelude.{◌≡◌};
ghost use Rattle.cr_outside.specs.Scripts.{answer_of, table_of};

use crate::Answer;
use std::marker::Model;

/// What a scripted judge answers: by the first row with the file, else the other answer.
#[derive(Debug, Drop)]
pub struct Script {
    rows: Vec<(Vec<u8>, Answer)>,
    other: Answer,
}

impl Model for Script {
    ghost use Rattle.cr_outside.specs.Scripts.{Table, table_of};

    ghost Value = { Table };

    ghost view = { λ s. table_of s.rows.items s.other };
}

impl Script {
    /// A table of these rows, and the answer about every other file.
    pub fn new(rows: Vec<(Vec<u8>, Answer)>, other: Answer) -> Script
        ensures { result ≡ table_of rows.items other }
    {
        Script { rows, other }
    }

    /// The answer of the first row with this file, else the other one.
    pub fn answer(&self, file: &[u8]) -> Answer
        ensures { result ≡ answer_of self.now file.now }
    {
        for (known, answer) in &self.rows {
            if known.as_slice() == file {
                return *answer;
            }
        }
        self.other
    }
}
