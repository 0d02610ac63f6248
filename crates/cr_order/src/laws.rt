// Laws of files whose runs are alike in any order: each is the contract of a function that does nothing.
ghost use Rattle.cr_order.specs.Laws.{OrderedFilesAreLawful, HasNoOrderReason, HasOneOrderReason};

use cr_lawful::a_file_has_one_reason;

/// A file that is lawful in any order is lawful.
pub fn ordered_files_are_lawful()
    ensures { OrderedFilesAreLawful }
{}

/// Within the same limits it has no reason against it.
pub fn ordered_files_have_no_reason()
    ensures { HasNoOrderReason }
{}

/// Within limits a file has one reason against it at most.
pub fn ordered_files_have_one_reason()
    ensures { HasOneOrderReason }
{
    a_file_has_one_reason();
}
