ghost use Rattle.std.specs.Prelude.{◌≡◌, slice_index_or};
ghost use Rattle.cr_check_enclosing.specs.Around.{outermost};

use cr_check_enclosing::{Around, OUTERMOST};
use cr_check_operands::Fact;
use cr_rows::entry_at;
use cr_syntax::Node;

/// What the labels of a unit are judged by. What a column doesn't have is as nothing known.
#[derive(Clone, Copy)]
pub struct Labelled<'a> {
    pub nodes: &'a [Node],
    /// What each expression has.
    pub facts: &'a [Fact],
    /// What each node has from above.
    pub around: &'a [Around],
    /// For each token the number of its spelling; one that isn't there has its own.
    pub names: &'a [u32],
}

/// What a node has from above.
pub(crate) fn around_at(labelled: &Labelled, at: usize) -> Around
    ensures { result ≡ slice_index_or labelled.now.around.now at outermost }
{
    entry_at(labelled.around, at, OUTERMOST)
}

/// The number of a token's spelling.
pub(crate) fn name_at(labelled: &Labelled, token: u32) -> u32
    ensures { result ≡ slice_index_or labelled.now.names.now token token }
{
    entry_at(labelled.names, token as usize, token)
}
