//! What a reader expects of a name that is used. The program calls none of these functions.
ghost use Rattle.cr_meaning_files.specs.Celled as celled;

/// A name stands for the entity of the declaration that it sees.
pub fn uses_stand_for_what_they_see()
    ensures { celled.UsesStandForWhatTheySee }
{}

/// So does an identifier of a file's unit.
pub fn names_stand_for_what_they_see()
    ensures { celled.NamesStandForWhatTheySee }
{}

/// The name of a declarator declares what it stands for.
pub fn declarators_declare()
    ensures { celled.DeclaratorsDeclare }
{}

/// The name of an automatic object always stands for the same.
pub fn automatic_names_are_steady()
    ensures { celled.AutomaticNamesAreSteady }
{}

/// An identifier that designates an object has the type that the declaration which it sees gives it.
pub fn names_have_the_types_they_see()
    ensures { celled.NamesHaveTheTypesTheySee }
{}

/// A name has whole cells, where its object has the cells of its composite type.
pub fn names_have_whole_cells()
    ensures { celled.NamesHaveWholeCells }
{}

/// The name of an object always stands for the same, or the object has linkage.
pub fn objects_are_linked_or_steady()
    ensures { celled.ObjectsAreLinkedOrSteady }
{}

/// What sees a declaration with an entity has one.
pub fn uses_have_entities()
    ensures { celled.UsesHaveEntities }
{}

/// The name of an external declaration is told once.
pub fn external_tokens_are_told_once()
    ensures { celled.ExternalTokensAreToldOnce }
{}

/// A name stands for the object or function whose declaration it sees.
pub fn names_stand_for_declarations()
    ensures { celled.NamesStandForDeclarations }
{}

/// Where that declares an object, the name stands for one that the program has.
pub fn names_stand_for_objects()
    ensures { celled.NamesStandForObjects }
{}

/// A name that designates an object stands for one of a declaration, or sees a parameter.
pub fn places_stand_for_objects()
    ensures { celled.PlacesStandForObjects }
{}
