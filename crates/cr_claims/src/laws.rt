ghost use Rattle.cr_claims.specs.Laws.{EachStepIsAnEvent, WordsAndPassesAreACore};

/// Wherever the rule of the words holds, they are, with the lists of all passes, a sound state of the core. It holds at every moment.
pub fn words_and_passes_are_a_core()
    ensures { WordsAndPassesAreACore }
{}

/// A claim, a look, a hit and a leave of a pass are events of the core on its own list, allowed there as the words stand.
pub fn each_step_is_an_event()
    ensures { EachStepIsAnEvent }
{}
