//! What always holds of the definitions: each law is the clause of a function that does nothing.
ghost use Rattle.cr_tokens.specs.Laws.{HasOneTokenList, HasOneFault, HasListOrFault};

/// A file has one list of tokens at most.
pub fn one_token_list()
    ensures { HasOneTokenList }
{}

/// A file has a list of tokens or a fault, and never both.
pub fn list_or_fault()
    ensures { HasListOrFault }
{}

/// A file has one first fault at most.
pub fn one_fault()
    ensures { HasOneFault }
{}
