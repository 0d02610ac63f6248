//! What a reader expects of the tree of a file's unit. The program calls none of these functions.
ghost use Rattle.cr_meaning_references.specs.Trees.Laws as laws;

/// A tree has the shape that the grammar gives it: its declarations have their parts in order.
pub fn trees_are_shaped()
    ensures { laws.TreesAreShaped }
{}

/// What stands around a node is what the node above it gives its parts.
pub fn trees_are_surrounded()
    ensures { laws.TreesAreSurrounded }
{}

/// What its names and tags find is declared, and its constants have values.
pub fn trees_are_sighted()
    ensures { laws.TreesAreSighted }
{}
