//! What a reader expects of the operations of calls. The program calls none of these functions.
ghost use Rattle.cr_meaning_typing.specs.Calls.Calls.{CallsAreGood};

/// Of calls (K17, K18), of the program's functions and of the library's.
pub fn calls_are_good()
    ensures { CallsAreGood }
{}
