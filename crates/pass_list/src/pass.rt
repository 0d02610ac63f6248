// The passes by their numbers.
ghost use Rattle.std.specs.Prelude.{◌≡◌};
ghost use Rattle.pass_list.specs.Passes.{pass_by};

/// A pass.
#[derive(Clone, Copy, PartialEq, Eq)]
pub enum Pass {
    /// l, chunks of lines.
    Lines,
    /// t, runs of tokens.
    Runs,
    /// b, brackets.
    Brackets,
    /// u, what has no use.
    Unused,
    /// s, statements.
    Statements,
    /// c, expressions.
    Expressions,
    /// i, calls that are spelled out.
    Inlined,
    /// p, parameters.
    Parameters,
    /// r, new names.
    Renamed,
    /// f, the printed unit.
    Printed,
    /// v, values that pass through a variable.
    Values,
    /// o, what `printf` prints.
    Output,
    /// No pass.
    NotThere,
}

/// The pass of a number: the twelve passes l t b u s c i p r f v o have the numbers from 0 on.
pub fn pass_by(number: usize) -> Pass
    ensures { result ≡ pass_by number }
{
    match number {
        0 => Pass::Lines,
        1 => Pass::Runs,
        2 => Pass::Brackets,
        3 => Pass::Unused,
        4 => Pass::Statements,
        5 => Pass::Expressions,
        6 => Pass::Inlined,
        7 => Pass::Parameters,
        8 => Pass::Renamed,
        9 => Pass::Printed,
        10 => Pass::Values,
        11 => Pass::Output,
        _ => Pass::NotThere,
    }
}
