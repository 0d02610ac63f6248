//! What callers of the memory may use of pointers and cells. The program calls none of these functions.
ghost use Rattle.cr_memory.specs.Laws.{WholeObjectIsPointed, PartIsPointed, PointersLast, LifetimesLast, MemoryContinues, ContinuesOnward, ContinuesPastNew, SavedIsLoaded};

/// A live object's first cell as an array of all its cells, in elements of which a whole number fills it, is a pointer.
pub fn whole_object_is_pointed()
    ensures { WholeObjectIsPointed }
{}

/// A member or an element within what a pointer points to is pointed to as an array of its own.
pub fn part_is_pointed()
    ensures { PartIsPointed }
{}

/// Where the objects continue, pointers stay pointers.
pub fn pointers_last()
    ensures { PointersLast }
{}

/// Where the objects continue, what has ended is what had ended.
pub fn lifetimes_last()
    ensures { LifetimesLast }
{}

/// A memory continues itself.
pub fn memory_continues()
    ensures { MemoryContinues }
{}

/// What continues what continues a memory continues it.
pub fn continues_onward()
    ensures { ContinuesOnward }
{}

/// An object that was entered and left is none of those that were there before.
pub fn continues_past_new()
    ensures { ContinuesPastNew }
{}

/// A value that was saved is what the same pointer loads.
pub fn saved_is_loaded()
    ensures { SavedIsLoaded }
{}
