//! What a reader expects of the rest of a run. The program calls none of these functions.
ghost use Rattle.cr_exec_slices.specs.Laws.{OneRest, RestIsRun, RunIsRest};

/// A state has one rest at most.
pub fn one_rest()
    ensures { OneRest }
{}

/// Where nothing waits the rest of a run is the run.
pub fn rest_is_run()
    ensures { RestIsRun }
{}

/// A run is the rest of its start.
pub fn run_is_rest()
    ensures { RunIsRest }
{}
