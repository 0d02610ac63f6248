//! What a reader expects of the definitions of a file's unit. The program doesn't call these functions.
ghost use Rattle.cr_meaning_objects.specs.Closed.Laws as laws;

/// What a definition declares takes no arguments behind its parameters.
pub fn definitions_take_no_more()
    ensures { laws.DefinitionsTakeNoMore }
{}

/// Nor does a call of what a definition defines.
pub fn calls_take_no_more()
    ensures { laws.CallsTakeNoMore }
{}
