//! What a reader expects of the runs of a unit in any order. The program calls none of these functions.
ghost use Rattle.cr_meaning_declarations.specs.Units.Laws.{DeclaratorsStandInBlocks, UnitsRunAlike};

/// No declarator of a unit stands in an operand, nor in a function's body but under the block that enters its object.
pub fn declarators_stand_in_blocks()
    ensures { DeclaratorsStandInBlocks }
{}

/// A well-typed unit whose order is fixed comes to one end within limits, in whatever order its operands are evaluated.
pub fn units_run_alike()
    ensures { UnitsRunAlike }
{}
