//! What a reader expects of evaluations without side effects. The program calls none of these functions.
ghost use Rattle.cr_meaning_frames.specs.Laws.{EvaluationsRestOnTheirReads};

/// An evaluation without write, touch and call rests on the cells that it reads and on the objects that live.
pub fn evaluations_rest_on_their_reads()
    ensures { EvaluationsRestOnTheirReads }
{}
