// The user's test.
ghost use Rattle.std.specs.Prelude.{◌≡◌, ◌++◌, ℕ, List};
ghost use Rattle.cr_outside.specs.Test.{ReadsTest, asks_test, has_prefix, tells_test};

use crate::{Answer, Has, Judge, Question};
use std::alloc::Global;
use thiserror::Error;

/// What makes a file interesting: that it contains a text, or that a program says so.
#[derive(Debug, Drop)]
pub enum Test {
    Has(Has),
    /// The path of a program, which the judge runs.
    Program(String),
}

/// Why a word is no test.
#[derive(Clone, Copy, Debug, PartialEq, Eq, Drop, Error)]
pub enum TestFault {
    #[error("no memory is left")]
    NoMemory,
    #[error("the word is empty")]
    Empty,
    #[error("the text after `has:` has no token, or is no text of C")]
    BadText,
}

impl Test {
    /// Reads a word: `has:` and a text, or the path of a program.
    pub fn read(alloc: Global, word: &str) -> Result<Test, TestFault>
        ensures { ReadsTest word.now result }
    {
        match word.as_bytes().strip_prefix(b"has:") {
            Some(text) => match Has::new(alloc, text) {
                Ok(has) => Ok(Test::Has(has)),
                Err(fault) => Err(fault),
            },
            None => read_program(alloc, word),
        }
    }
}

fn read_program(alloc: Global, word: &str) -> Result<Test, TestFault>
    requires { (rest : List ℕ) → word.now ≡ has_prefix ++ rest → ⊥ }
    ensures { ReadsTest word.now result }
{
    if word.is_empty() {
        return Err(TestFault::Empty);
    }
    match String::from_str(alloc, word) {
        Ok(path) => Ok(Test::Program(path)),
        Err(_) => Err(TestFault::NoMemory),
    }
}

impl Question for Test {
    ghost use Rattle.cr_outside.specs.Test.{one_test_answer};

    ghost tells = { tells_test };

    ghost asks = { asks_test };

    ghost one_answer = { one_test_answer };

    fn uses_judge(&self) -> bool {
        match self {
            Test::Has(_) => false,
            Test::Program(_) => true,
        }
    }

    fn ask<J: Judge>(&self, alloc: Global, judge: &mut J, name: &str, file: &[u8]) -> Answer {
        match self {
            Test::Has(has) => has.ask(alloc, judge, name, file),
            Test::Program(path) => judge.ask(alloc, path.as_str(), name, file),
        }
    }
}
