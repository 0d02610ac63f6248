//! Laws of the declarations of an object of a file's unit. The program calls none of these functions.
ghost use Rattle.cr_meaning_objects.specs.Objects.Laws as laws;

/// An object that is declared more than once has linkage.
pub fn shared_objects_are_linked()
    ensures { laws.SharedObjectsAreLinked }
{}

/// What declares an object is behind declarations of objects.
pub fn objects_follow_objects()
    ensures { laws.ObjectsFollowObjects }
{}

/// What has static duration has it by its first declaration.
pub fn firsts_are_static()
    ensures { laws.FirstsAreStatic }
{}
