// Laws of lawful files: each is the contract of a function that does nothing.
ghost use Rattle.cr_lawful.specs.Laws.{HasNoReason, HasOneReason};

/// Within the same limits a lawful file has no reason against it.
pub fn lawful_files_have_no_reason()
    ensures { HasNoReason }
{}

/// Within limits a file has one reason against it at most.
pub fn a_file_has_one_reason()
    ensures { HasOneReason }
{}
