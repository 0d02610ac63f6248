//! What a reader expects of runs that are seen. The program calls none of these functions.
ghost use Rattle.cr_meaning_seen.specs.Laws.{SightsAreRuns, RunsAreSeen, SightsAreOne, NotesAreMarks};

/// What is seen is a run.
pub fn sights_are_runs()
    ensures { SightsAreRuns }
{}

/// Each run can be seen.
pub fn runs_are_seen()
    ensures { RunsAreSeen }
{}

/// From one world a program has one reply and one forest at most.
pub fn sights_are_one()
    ensures { SightsAreOne }
{}

/// A run that notes where nodes begin and end has noted the marks of a seen run.
pub fn notes_are_marks()
    ensures { NotesAreMarks }
{}
