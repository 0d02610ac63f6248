// Laws of files whose run reaches a label: each is the contract of a function that does nothing.
ghost use Rattle.cr_reached.specs.Laws.{HasNoReachReason, HasOneReachReason, ReachedFilesAreLawful};

use cr_lawful::a_file_has_one_reason;

/// Such a file is lawful.
pub fn reached_files_are_lawful()
    ensures { ReachedFilesAreLawful }
{}

/// Within the same limits it has no reason against it.
pub fn reached_files_have_no_reason()
    ensures { HasNoReachReason }
{}

/// Within limits a file has one reason against it at most.
pub fn reached_files_have_one_reason()
    ensures { HasOneReachReason }
{
    a_file_has_one_reason();
}
