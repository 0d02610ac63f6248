// Laws of what is read of a file: each is the contract of a function that does nothing.
ghost use Rattle.cr_lawful_analysis.specs.Laws.{IsReadOnce};

/// A file is read in one way at most: it has one list of tokens, one tree, and one list of its nodes that is in order.
pub fn read_once()
    ensures { IsReadOnce }
{}
