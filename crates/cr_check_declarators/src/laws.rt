ghost use Rattle.cr_check_declarators.specs.Cells.{CellsAreCounted};

/// A law: a declarator finds a bracket exactly where some array of the type that it declares has too many cells (K7), if the elements
/// of all are complete.
#[tactic(auto, using(crate::proofs::Counted::counted))]
pub fn cells_are_counted()
    ensures { CellsAreCounted }
{}
