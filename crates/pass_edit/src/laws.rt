// Laws of edits: each is the contract of a function that does nothing.
ghost use Rattle.pass_edit.specs.Laws.{GluingIsAssociative, HolesAreTheirRuns, LinesNeedNoSeam, NestedGoWithTheOuter, NothingIsTheFile};

/// Where texts are put together first makes no difference.
pub fn gluing_is_associative()
    ensures { GluingIsAssociative }
{}

/// An edit of no change gives the file.
pub fn an_edit_of_nothing_is_the_file()
    ensures { NothingIsTheFile }
{}

/// Where no letter, digit or underscore stands before a range, it goes without a space. So the lines of a file go.
pub fn lines_need_no_seam()
    ensures { LinesNeedNoSeam }
{}

/// A change that lies within an earlier one of its edit makes no difference.
pub fn nested_changes_go_with_the_outer_one()
    ensures { NestedGoWithTheOuter }
{}

/// A form whose holes are filled is the form with the runs in their places.
pub fn holes_are_their_runs()
    ensures { HolesAreTheirRuns }
{}
