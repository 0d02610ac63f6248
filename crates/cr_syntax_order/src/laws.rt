// A law of listed nodes: the contract of a function that does nothing.
ghost use Rattle.cr_syntax_order.specs.Laws.{HasOneListing};

/// A tree has one list of nodes that is in order.
pub fn one_listing()
    ensures { HasOneListing }
{}
