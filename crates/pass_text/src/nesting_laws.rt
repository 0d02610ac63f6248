// Laws of the nesting: each is the contract of a function that does nothing.
ghost use Rattle.pass_text.specs.NestingLaws.{HasFewPairs, HasOneNesting};

/// Signs nest in one way at most.
pub fn one_nesting()
    ensures { HasOneNesting }
{}

/// There are no more pairs than signs.
pub fn few_pairs()
    ensures { HasFewPairs }
{}
