ghost use Rattle.std.specs.Prelude.{◌≡◌, None, false, slice_index_or};
ghost use Rattle.cr_check_enclosing.specs.Around.{outermost};
ghost use Rattle.cr_check_statements.specs.Setting.{result_row};

use cr_check_enclosing::{Around, OUTERMOST};
use cr_check_operands::Fact;
use cr_rows::entry_at;
use cr_syntax::Node;

/// What the statements of a unit are checked by. Each column has one entry a node, and what is not there is as nothing known.
#[derive(Clone, Copy)]
pub struct Setting<'a> {
    pub nodes: &'a [Node],
    /// What each expression has.
    pub facts: &'a [Fact],
    /// What each node has from above.
    pub around: &'a [Around],
    /// For each function definition the row of what it gives.
    pub results: &'a [u32],
    /// Whether a `case`, a `default` or a label repeats an earlier one, of its `switch` or of its function.
    pub again: &'a [bool],
    /// For each `goto` the label that it may name: one on an item of a compound statement that holds it.
    pub labels: &'a [Option<u32>],
}

/// What a node has from above.
pub(crate) fn around_at(setting: &Setting, at: u32) -> Around
    ensures { result ≡ slice_index_or setting.now.around.now at outermost }
{
    entry_at(setting.around, at as usize, OUTERMOST)
}

/// The row of what a function gives, by its definition.
pub(crate) fn result_row(setting: &Setting, function: Option<u32>) -> u32
    ensures { result ≡ result_row setting.now.results.now function }
{
    match function {
        Some(node) => entry_at(setting.results, node as usize, 0),
        None => 0,
    }
}

/// Whether a node repeats an earlier one.
pub(crate) fn repeats(setting: &Setting, at: u32) -> bool
    ensures { result ≡ slice_index_or setting.now.again.now at false }
{
    entry_at(setting.again, at as usize, false)
}

/// The label that a `goto` may name.
pub(crate) fn label_of(setting: &Setting, at: u32) -> Option<u32>
    ensures { result ≡ slice_index_or setting.now.labels.now at None }
{
    entry_at(setting.labels, at as usize, None)
}
