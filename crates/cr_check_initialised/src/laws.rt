ghost use Rattle.cr_check_initialised.specs.Laws.{OneFilling};

/// A law: a node names one type, and has one plan.
pub fn one_filling()
    ensures { OneFilling }
{}
