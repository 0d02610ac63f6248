// Texts that are spelled anew: forms with holes.
ghost use Rattle.std.specs.Prelude.{◌≡◌, [], slice_index_or};
ghost use Rattle.pass_edit.specs.Forms.{nothing_kept};

use cr_rows::Row;
use cr_tokens::Token;
use std::alloc::Global;

/// A punctuator that a form puts.
#[derive(Clone, Copy, PartialEq, Eq, Drop)]
pub enum Sign {
    OpenParenthesis,
    CloseParenthesis,
    OpenBrace,
    CloseBrace,
    Equals,
    Semicolon,
}

/// The tokens of the file from one number to before another.
#[derive(Clone, Copy, PartialEq, Eq, Drop)]
pub struct Run {
    pub from: u32,
    pub to: u32,
}

/// A part of a form.
#[derive(Clone, Copy, PartialEq, Eq, Drop)]
pub enum Bit {
    Tokens(Run),
    Put(Sign),
    /// The run of this number among those that fill the form.
    Hole(u32),
}

/// What the texts of a pass's edits name beside the bytes of the file: bytes; the file's tokens; forms, each a list of bits; and lists of runs
/// that fill them.
#[derive(Drop)]
pub struct Kept {
    pub bytes: Row<u8>,
    pub tokens: Row<Token>,
    pub forms: Row<Row<Bit>>,
    pub runs: Row<Row<Run>>,
}

impl Kept {
    /// Nothing is kept. It takes no memory.
    pub fn nothing(alloc: Global) -> Kept
        ensures { result ≡ nothing_kept }
    {
        Kept {
            bytes: Row::new(alloc),
            tokens: Row::new(alloc),
            forms: Row::new(alloc),
            runs: Row::new(alloc),
        }
    }

    // The form of a number, or none of its bits where there is no such form.
    pub(crate) fn form(&self, at: u32) -> &[Bit]
        ensures { result.now ≡ slice_index_or self.now.forms at [] }
    {
        match self.forms.as_slice().get(at as usize) {
            Some(form) => form.as_slice(),
            None => &[],
        }
    }

    // The runs of a number, or none of them.
    pub(crate) fn runs(&self, at: u32) -> &[Run]
        ensures { result.now ≡ slice_index_or self.now.runs at [] }
    {
        match self.runs.as_slice().get(at as usize) {
            Some(runs) => runs.as_slice(),
            None => &[],
        }
    }
}
