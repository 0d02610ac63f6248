//! What a reader expects of typedef names. The program calls none of these functions.
ghost use Rattle.cr_meaning_references.specs.Typedefs.Laws as laws;

/// The declaration that a typedef name sees says `typedef`.
pub fn typedefs_are_seen()
    ensures { laws.TypedefsAreSeen }
{}

/// What a typedef name sees is no enumerator.
pub fn typedefs_are_no_enumerators()
    ensures { laws.TypedefsAreNoEnumerators }
{}
