//! What a reader expects of evaluation. The program calls none of these functions.
ghost use Rattle.cr_meaning_soundness.specs.Laws.{EvaluationKeepsSorts, ProgramsGiveStatuses, ProgramsHaveOutcomes, OlderValuesFit, StartIsWellFormed, BlocksAreEntered, BlocksAreLeft};

/// The answer of a typed node fits its sort, and leaves a world that is well formed.
pub fn evaluation_keeps_sorts()
    ensures { EvaluationKeepsSorts }
{}

/// What a typed program answers is a status.
pub fn programs_give_statuses()
    ensures { ProgramsGiveStatuses }
{}

/// Whatever the run of a typed program comes to, whose nodes have the operands and objects that they need, is an outcome.
pub fn programs_have_outcomes()
    ensures { ProgramsHaveOutcomes }
{}

/// A value that fitted its sort does so while the objects continue.
pub fn older_values_fit()
    ensures { OlderValuesFit }
{}

/// The world at the start of a run is well formed.
pub fn start_is_well_formed()
    ensures { StartIsWellFormed }
{}

/// Where the objects of a block are entered the world is well formed, and all that was there continues.
pub fn blocks_are_entered()
    ensures { BlocksAreEntered }
{}

/// A block that ends leaves a well-formed world, and all that was there before it continues.
pub fn blocks_are_left()
    ensures { BlocksAreLeft }
{}
