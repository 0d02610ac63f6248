//! What ties the work of an expression's node to the meaning of nodes. The program doesn't call this function.
ghost use Rattle.cr_eval_join.specs.Laws.{ExpressionsAreJoined};

/// What the meaning does at a node of an expression that is no call is what the calls of this crate answer.
pub fn expressions_are_joined()
    ensures { ExpressionsAreJoined }
{}
