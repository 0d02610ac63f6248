//! Laws of the composite type of an object of a file's unit. The program calls none of these functions.
ghost use Rattle.cr_meaning_objects.specs.Composed.Laws as laws;

/// An object has the type of each of its declarators, but for sizes that became known.
pub fn composites_complete()
    ensures { laws.CompositesComplete }
{}

/// Its first declaration is one of it.
pub fn firsts_declare_their_objects()
    ensures { laws.FirstsDeclareTheirObjects }
{}

/// And so is each declaration of its entity.
pub fn names_of_objects_are_objects()
    ensures { laws.NamesOfObjectsAreObjects }
{}

/// And that which an initialiser completes.
pub fn initialisers_complete()
    ensures { laws.InitialisersComplete }
{}

/// An initialised declarator of an object stands in a declaration.
pub fn initialisers_stand_in_declarations()
    ensures { laws.InitialisersStandInDeclarations }
{}

/// Its name is that of its declarator.
pub fn initialisers_name_their_tokens()
    ensures { laws.InitialisersNameTheirTokens }
{}

/// What an initialiser is read for is an object.
pub fn planned_declare_objects()
    ensures { laws.PlannedDeclareObjects }
{}

/// The declarator of an initialised one has a name.
pub fn initialisers_have_names()
    ensures { laws.InitialisersHaveNames }
{}

/// The name of a declared object or function has an entity.
pub fn declared_values_have_entities()
    ensures { laws.DeclaredValuesHaveEntities }
{}

/// An initialised declarator of an object is a declared name of it.
pub fn initialisers_are_objects()
    ensures { laws.InitialisersAreObjects }
{}
