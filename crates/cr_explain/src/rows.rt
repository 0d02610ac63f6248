// A number and its row.
ghost use Rattle.std.specs.Prelude.{◌≡◌, ◌≤◌, IsSome};
ghost use Rattle.cr_explain.specs.Last.{last_of};

use crate::tables::{
    FORMS, LEFT, NAMES, PARSES, TOKENS, TYPES_TO_16, TYPES_TO_32, TYPES_TO_43, UNDEFINED,
};

/// Of what a number is.
#[derive(Clone, Copy, Debug, PartialEq, Eq)]
pub enum Kind {
    Token,
    Parse,
    Name,
    /// K1 to K43.
    Type,
    /// U1 to U16.
    Undefined,
    /// N1 to N9.
    Left,
}

/// What stands beside a number.
#[derive(Clone, Copy, Debug, PartialEq, Eq)]
pub struct Row {
    /// What is wrong, or what has to be so.
    pub what: &'static str,
    /// At which token, where that isn't said of all numbers of the kind.
    pub at: &'static str,
    /// The sections of C11; "own" where it is a choice of the subset.
    pub section: &'static str,
    /// An example at fault, and one that isn't; nothing where none is short.
    pub broken: &'static str,
    pub kept: &'static str,
}

/// The row of a number: each number that the law gives has one.
pub fn row_of(kind: Kind, number: u8) -> Option<Row>
    ensures { 1 ≤ number → number ≤ last_of kind → IsSome result }
{
    match kind {
        Kind::Token => token_row(number),
        Kind::Parse => parse_row(number),
        Kind::Name => name_row(number),
        Kind::Type => constraint_row(number),
        Kind::Undefined => undefined_row(number),
        Kind::Left => left_row(number),
    }
}

fn token_row(number: u8) -> Option<Row>
    ensures { 1 ≤ number → number ≤ 5 → IsSome result }
{
    TOKENS.get(usize::from(number).checked_sub(1)?).copied()
}

fn parse_row(number: u8) -> Option<Row>
    ensures { 1 ≤ number → number ≤ 4 → IsSome result }
{
    PARSES.get(usize::from(number).checked_sub(1)?).copied()
}

fn name_row(number: u8) -> Option<Row>
    ensures { 1 ≤ number → number ≤ 2 → IsSome result }
{
    NAMES.get(usize::from(number).checked_sub(1)?).copied()
}

// Its rows stand in three tables.
fn constraint_row(number: u8) -> Option<Row>
    ensures { 1 ≤ number → number ≤ 43 → IsSome result }
{
    match number {
        0..=16 => constraint_row_to_16(number),
        17..=32 => constraint_row_to_32(number - 16),
        _ => constraint_row_to_43(number - 32),
    }
}

fn constraint_row_to_16(number: u8) -> Option<Row>
    ensures { 1 ≤ number → number ≤ 16 → IsSome result }
{
    TYPES_TO_16
        .get(usize::from(number).checked_sub(1)?)
        .copied()
}

fn constraint_row_to_32(number: u8) -> Option<Row>
    ensures { 1 ≤ number → number ≤ 16 → IsSome result }
{
    TYPES_TO_32
        .get(usize::from(number).checked_sub(1)?)
        .copied()
}

fn constraint_row_to_43(number: u8) -> Option<Row>
    ensures { 1 ≤ number → number ≤ 11 → IsSome result }
{
    TYPES_TO_43
        .get(usize::from(number).checked_sub(1)?)
        .copied()
}

fn undefined_row(number: u8) -> Option<Row>
    ensures { 1 ≤ number → number ≤ 16 → IsSome result }
{
    UNDEFINED.get(usize::from(number).checked_sub(1)?).copied()
}

fn left_row(number: u8) -> Option<Row>
    ensures { 1 ≤ number → number ≤ 9 → IsSome result }
{
    LEFT.get(usize::from(number).checked_sub(1)?).copied()
}

/// The row of one of the nine forms of parse 4.
pub fn form(number: u8) -> Option<Row>
    ensures { 1 ≤ number → number ≤ 9 → IsSome result }
{
    FORMS.get(usize::from(number).checked_sub(1)?).copied()
}
