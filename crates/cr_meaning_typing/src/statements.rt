//! What a reader expects of the operations of statements. The program calls none of these functions.
ghost use Rattle.cr_meaning_typing.specs.Statements.Statements.{BranchesAreGood, SwitchesAreGood, LoopsAreGood, ForsAreGood, LabelsAreGood, JumpsAreGood};
ghost use Rattle.cr_meaning_typing.specs.Statements.Statements.{GotosAreGood, ReturnsAreGood, BlocksAreGood, ExpressionStatementsAreGood};
ghost use Rattle.cr_meaning_typing.specs.Statements.Statements.{DeclarationsAreGood, DeclaratorsAreGood};

/// Of `if` (K38), with `else` and without.
pub fn branches_are_good()
    ensures { BranchesAreGood }
{}

/// Of `switch` (K38).
pub fn switches_are_good()
    ensures { SwitchesAreGood }
{}

/// Of `while` and `do` (K38).
pub fn loops_are_good()
    ensures { LoopsAreGood }
{}

/// Of `for` (K38).
pub fn fors_are_good()
    ensures { ForsAreGood }
{}

/// Of labels, `case` and `default`.
pub fn labels_are_good()
    ensures { LabelsAreGood }
{}

/// Of `break` and `continue` (K38).
pub fn jumps_are_good()
    ensures { JumpsAreGood }
{}

/// Of `goto` (K42).
pub fn gotos_are_good()
    ensures { GotosAreGood }
{}

/// Of `return` (K39).
pub fn returns_are_good()
    ensures { ReturnsAreGood }
{}

/// Of blocks.
pub fn blocks_are_good()
    ensures { BlocksAreGood }
{}

/// Of expression statements.
pub fn expression_statements_are_good()
    ensures { ExpressionStatementsAreGood }
{}

/// Of declarations.
pub fn declarations_are_good()
    ensures { DeclarationsAreGood }
{}

/// Of declarators, initialised or not.
pub fn declarators_are_good()
    ensures { DeclaratorsAreGood }
{}
