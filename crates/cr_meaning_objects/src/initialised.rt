//! What a reader expects of the initialisers of objects. The program calls none of these functions.
ghost use Rattle.cr_meaning_objects.specs.Initialised.Asked as asked;
ghost use Rattle.cr_meaning_objects.specs.Initialised.Composites as composites;
ghost use Rattle.cr_meaning_objects.specs.Initialised.Once as once;
ghost use Rattle.cr_meaning_objects.specs.Initialised.Parts as parts;
ghost use Rattle.cr_meaning_objects.specs.Initialised.Taken as taken;

/// What a plan puts is set in a part of the object that has the cells of its type.
pub fn plans_set_parts()
    ensures { parts.PlansSetParts }
{}

/// An expression that breaks neither K13 nor K37 gives what its part takes.
pub fn initialisers_are_taken()
    ensures { taken.InitialisersAreTaken }
{}

/// Where each put does so, the lines of the declarator's operation are those of its object.
pub fn lines_are_set()
    ensures { taken.LinesAreSet }
{}

/// Each expression of an initialiser initialises one part.
pub fn plans_put_once()
    ensures { once.PlansPutOnce }
{}

/// The initialiser of an array of unknown size asks for an element.
pub fn arrays_are_asked_for()
    ensures { asked.ArraysAreAskedFor }
{}

/// The composite of a type of known size and another has its cells.
pub fn composites_keep_cells()
    ensures { composites.CompositesKeepCells }
{}
