//! What a reader of C11 5.1.2.3 and 6.5 expects of the meaning. The program calls none of these functions.
ghost use Rattle.cr_meaning.specs.Laws.{OneMeaning, FollowedIsMeant, FormatsAreRead, ConflictsAreMeetings, SequencedNeverConflict, OwnConflictsAreOpen, ConflictHasCell, ReadsNeverConflict, QuietNodesRead, NothingHasNoSets, OwnReadIsAdded, OwnTouchIsAdded, OwnWriteIsAdded, OperandsBesideAreUnited, SequencedOperandIsSettled, ArgumentIsSettled};

/// A program has one meaning at most.
pub fn one_meaning()
    ensures { OneMeaning }
{}

/// A run that was followed to its end is the meaning.
pub fn followed_is_meant()
    ensures { FollowedIsMeant }
{}

/// The pieces that `printf` reads in a format are those of the library's definition.
pub fn formats_are_read()
    ensures { FormatsAreRead }
{}

/// Events of two operands conflict exactly on the cells on which their footprints meet.
pub fn conflicts_are_meetings()
    ensures { ConflictsAreMeetings }
{}

/// What a sequence point separates never conflicts.
pub fn sequenced_never_conflict()
    ensures { SequencedNeverConflict }
{}

/// A node's own event conflicts with its operands exactly where a write on its cell is open.
pub fn own_conflicts_are_open()
    ensures { OwnConflictsAreOpen }
{}

/// A conflict is on some cell, so there is a least one.
pub fn conflict_has_cell()
    ensures { ConflictHasCell }
{}

/// Where no event is a side effect there is no conflict.
pub fn reads_never_conflict()
    ensures { ReadsNeverConflict }
{}

/// A node without assignment, `++`, `--`, call and read of a volatile object in it gives reads alone.
pub fn quiet_nodes_read()
    ensures { QuietNodesRead }
{}

/// Without events the footprint is empty.
pub fn nothing_has_no_sets()
    ensures { NothingHasNoSets }
{}

/// An own read is one more read of the footprint.
pub fn own_read_is_added()
    ensures { OwnReadIsAdded }
{}

/// An own touch is one more touch.
pub fn own_touch_is_added()
    ensures { OwnTouchIsAdded }
{}

/// An own write is one more open write.
pub fn own_write_is_added()
    ensures { OwnWriteIsAdded }
{}

/// The events of two unsequenced operands are those of both footprints.
pub fn operands_beside_are_united()
    ensures { OperandsBesideAreUnited }
{}

/// The events of a sequenced operand and the next one are the footprint of both, one after the other.
pub fn sequenced_operand_is_settled()
    ensures { SequencedOperandIsSettled }
{}

/// No write of an argument is open for what its call stands in.
pub fn argument_is_settled()
    ensures { ArgumentIsSettled }
{}
