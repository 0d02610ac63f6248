//! What a reader expects of the operations of typed units. The program calls none of these functions.
ghost use Rattle.cr_meaning_typing.specs.Typed.Columns.{IntegersAreGood, SumsAreGood};
ghost use Rattle.cr_meaning_typing.specs.Typed.Placed.{NamesAreGood, StatementsStand};
ghost use Rattle.cr_meaning_typing.specs.Typed.Whole.{UnitsAreTyped, ColumnsAreJudged, OpsAreThere};
ghost use Rattle.cr_meaning_typing.specs.Typed.Given.{SignsAreGood, AssignmentsAreGood, KindsAreSame};
ghost use Rattle.cr_meaning_typing.specs.Typed.Laws.{ExpressionsAreTyped};

/// An expression of each form that breaks no constraint has a value, where its operands have and what it reads is there.
pub fn expressions_are_typed()
    ensures { ExpressionsAreTyped }
{}

/// Of multiplicative and bitwise operators (K28, K34): they give the sort of their type.
pub fn integers_are_good()
    ensures { IntegersAreGood }
{}

/// Of sums (K29), of integers and of pointers.
pub fn sums_are_good()
    ensures { SumsAreGood }
{}

/// Of names of objects, as values and as places.
pub fn names_are_good()
    ensures { NamesAreGood }
{}

/// What the parts of a statement may come to, by where they stand.
pub fn statements_stand()
    ensures { StatementsStand }
{}

/// Each expression of a unit that breaks nothing has a value.
pub fn units_are_typed()
    ensures { UnitsAreTyped }
{}

/// Each node has its operation in the program, and behind them the program has its own.
pub fn ops_are_there()
    ensures { OpsAreThere }
{}

/// The types of a typed unit's expressions are those that were found when it was checked.
pub fn columns_are_judged()
    ensures { ColumnsAreJudged }
{}

/// Of unary `+`, `-` and `~` (K25).
pub fn signs_are_good()
    ensures { SignsAreGood }
{}

/// The kinds of a structure's cells don't depend on qualifiers.
pub fn kinds_are_same()
    ensures { KindsAreSame }
{}

/// Of assignments (K37), of scalars and of structures.
pub fn assignments_are_good()
    ensures { AssignmentsAreGood }
{}
