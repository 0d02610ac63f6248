//! What a reader expects of the typed unit of a file. The program calls none of these functions.
ghost use Rattle.cr_meaning_declarations.specs.Declared.Laws.{CallsGoOnWithBodies, FilesAreOfUnits, FilesRunAlike, ObjectsAreDeclaredOnce, PlansPutInitialisers};

/// The nodes of a file's typed unit are those of a unit of the grammar.
pub fn files_are_of_units()
    ensures { FilesAreOfUnits }
{}

/// What the plans of a file's typed unit put in objects are initialisers.
pub fn plans_put_initialisers()
    ensures { PlansPutInitialisers }
{}

/// What a call of a function goes on with in a file's typed unit is neither a declaration nor a declarator.
pub fn calls_go_on_with_bodies()
    ensures { CallsGoOnWithBodies }
{}

/// An automatic object of a file's typed unit is declared once.
pub fn objects_are_declared_once()
    ensures { ObjectsAreDeclaredOnce }
{}

/// A file's well-typed unit whose order is fixed comes to one end within limits, in whatever order its operands are evaluated.
pub fn files_run_alike()
    ensures { FilesRunAlike }
{}
