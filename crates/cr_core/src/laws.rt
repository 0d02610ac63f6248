ghost use Rattle.cr_core.specs.Laws.{ANewEntryIsLast, ARunHasOneEnd, CountsAreEntries, EachEntryHasOneMark, EachListIsInOrder, FewAreTried, MarksMoveNothing, OrderedCommit, TheBoundFollows, TheLeastHitIsFirst};

/// A position is counted under a mark exactly where an entry of some worker's list has that position and that mark.
pub fn counts_are_entries()
    ensures { CountsAreEntries }
{}

/// In a sound state positions of each list rise, and each entry but the last is settled and below the length.
pub fn each_list_is_in_order()
    ensures { EachListIsInOrder }
{}

/// After every list of events the state is sound, and where it is finished, the least hit is the first position in order that wasn't
/// rejected.
pub fn ordered_commit()
    ensures { OrderedCommit }
{}

/// An entry has one mark, so a position stands in lists as often as it stands there with any mark.
pub fn each_entry_has_one_mark()
    ensures { EachEntryHasOneMark }
{}

/// In a finished sound state, however it came about, the least hit is the first position in order that wasn't rejected.
pub fn the_least_hit_is_first()
    ensures { TheLeastHitIsFirst }
{}

/// The events of a list, from a state on, end in one state.
pub fn a_run_has_one_end()
    ensures { ARunHasOneEnd }
{}

/// In a sound state at most as many positions below the length are claimed as there are, each once.
pub fn few_are_tried()
    ensures { FewAreTried }
{}

/// The bound on `next` follows from the facts of soundness before it.
pub fn the_bound_follows()
    ensures { TheBoundFollows }
{}

/// A new entry is the last one of its list.
pub fn a_new_entry_is_last()
    ensures { ANewEntryIsLast }
{}

/// Where the last entry gets a mark, it keeps its position.
pub fn marks_move_nothing()
    ensures { MarksMoveNothing }
{}
