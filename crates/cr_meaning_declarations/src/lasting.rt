//! What a reader expects of the entities of a file's typed unit. The program doesn't call these functions.
ghost use Rattle.cr_meaning_declarations.specs.Lasting.Laws.{FirstsAreTheirOwn, StaticObjectsLast};

/// The node that declares an entity first stands for itself.
pub fn firsts_are_their_own()
    ensures { FirstsAreTheirOwn }
{}

/// What a name stands for, where it has static duration, is an object that the program enters before main.
pub fn static_objects_last()
    ensures { StaticObjectsLast }
{}
