ghost use Rattle.cr_check_initialisers.specs.Laws.{OnePlan, HasPlan, CellsAreLaidOut, PlansStayInside, StaysInside, FirstIsLeast};

/// A law: an initialiser has one plan.
pub fn one_plan()
    ensures { OnePlan }
{}

/// A law: an initialiser has a plan, where the parts of types are simpler than the types.
pub fn has_plan()
    ensures { HasPlan }
{}

/// A law: the parts of a type lie in its cells, where the layouts of the structures have the cells of their members.
pub fn cells_are_laid_out()
    ensures { CellsAreLaidOut }
{}

/// A law: what a list puts rises, inside the places that it has.
pub fn stays_inside()
    ensures { StaysInside }
{}

/// A law: so does what the initialiser of an object of known size puts, inside the object.
pub fn plans_stay_inside()
    ensures { PlansStayInside }
{}

/// A law: the first fault of a plan is the first of all its breaks.
pub fn first_is_least()
    ensures { FirstIsLeast }
{}
