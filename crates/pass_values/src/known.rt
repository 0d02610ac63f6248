// What is known of a unit whose values move.
use crate::declarators::Plain;
use cr_scopes::Names;
use cr_syntax::Node;
use cr_tokens::Token;

/// A unit with its names, its declarators without initialiser, and the names on the left of `=`, each by its token.
#[derive(Clone, Copy)]
pub struct Known<'a> {
    pub tokens: &'a [Token],
    pub nodes: &'a [Node],
    pub names: &'a Names,
    pub plains: &'a [Plain],
    pub lefts: &'a [u32],
}
