//! What a reader expects of the events of names. The program doesn't call this function.
ghost use Rattle.cr_scopes_typedef_names.specs.Tellings.Laws.{NamesAreToldByNodes};

/// Each event that tells a name is told by a node that declares or uses it.
pub fn names_are_told_by_nodes()
    ensures { NamesAreToldByNodes }
{}
