//! What a reader expects of a typed unit's run. The program calls none of these functions.
ghost use Rattle.cr_meaning_typing.specs.Whole.Statements.{NodesAreGood};
ghost use Rattle.cr_meaning_typing.specs.Whole.Whole.{UnitsHaveOutcomes};

/// Of all nodes of a unit that a run may reach, in one table.
pub fn nodes_are_good()
    ensures { NodesAreGood }
{}

/// The run of a unit comes to a status, or to a numbered case at a node, and never to operands that no program has.
pub fn units_have_outcomes()
    ensures { UnitsHaveOutcomes }
{}
