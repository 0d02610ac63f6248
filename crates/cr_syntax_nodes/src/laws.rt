ghost use Rattle.cr_syntax_nodes.specs.Loops.{LoopsHaveClauses};
ghost use Rattle.cr_syntax_nodes.specs.Declarators.{DeclaratorsHaveNames};
ghost use Rattle.cr_syntax_nodes.specs.Laid.{NodesAreLaid};
ghost use Rattle.cr_syntax_nodes.specs.Order.{OwnNodesStandBefore, NodesEndInOrder};
ghost use Rattle.cr_syntax_nodes.specs.Nodes.{NodesAreMade, PartsRise, PartsAreCounted, NodesHaveNames};

/// A law: each node of a unit is made by the alternative of its kind.
pub fn nodes_are_made()
    ensures { NodesAreMade }
{}

/// A law: the parts and the tokens of each node stand as the right side of its kind says. It tells the clauses of a `for`, a tag from a
/// brace, and of which kinds each part may be.
pub fn nodes_are_laid()
    ensures { NodesAreLaid }
{}

/// A law: the parts of each node stand in its span, one behind the other.
pub fn parts_rise()
    ensures { PartsRise }
{}

/// A law: each node has as many parts as the alternative of its kind has.
pub fn parts_are_counted()
    ensures { PartsAreCounted }
{}

/// A law: the token with a node's own name, where its kind has one, is an identifier.
pub fn nodes_have_names()
    ensures { NodesHaveNames }
{}

/// A law: of nodes that are listed in order, those below a node stand directly before it.
pub fn own_nodes_stand_before()
    ensures { OwnNodesStandBefore }
{}

/// A law: the nodes of a unit that are listed in order stand in the order in which they end, and their spans nest.
pub fn nodes_end_in_order()
    ensures { NodesEndInOrder }
{}

/// A law: a declarator with a name declares an identifier in its span.
pub fn declarators_have_names()
    ensures { DeclaratorsHaveNames }
{}

/// A law: `loop_clauses` gives the clauses of each `for`, with the tokens that end them, and its last part is its body.
pub fn loops_have_clauses()
    ensures { LoopsHaveClauses }
{}
