// Laws of the passes over a tree.
ghost use Rattle.pass_widths.specs.Laws.{ExpressionsAreFew, InlinedAreFew, NodesAreFew, OutputIsFew, ParametersAreFew, PrintedAreFew, RenamedAreFew, StatementsAreFew, UnusedAreFew, ValuesAreFew};

/// A law: no level of pass s has more edits than the file has tokens.
pub fn statements_are_few()
    ensures { StatementsAreFew }
{}

/// A law: nor has one of pass c.
pub fn expressions_are_few()
    ensures { ExpressionsAreFew }
{}

/// A law: nor has one of pass u.
pub fn unused_are_few()
    ensures { UnusedAreFew }
{}

/// A law: nor has one of pass i.
pub fn inlined_are_few()
    ensures { InlinedAreFew }
{}

/// A law: nor has one of pass p.
pub fn parameters_are_few()
    ensures { ParametersAreFew }
{}

/// A law: nor has one of pass r.
pub fn renamed_are_few()
    ensures { RenamedAreFew }
{}

/// A law: nor has one of pass f, where a unit is read.
pub fn printed_are_few()
    ensures { PrintedAreFew }
{}

/// A law: nor has one of pass v.
pub fn values_are_few()
    ensures { ValuesAreFew }
{}

/// A law: nor has one of pass o.
pub fn output_is_few()
    ensures { OutputIsFew }
{}

/// A law: a unit has at most twice as many nodes as tokens.
pub fn nodes_are_few()
    ensures { NodesAreFew }
{}
