// What the law of programs that run alike in any order is worth: the contract of a function that does nothing.
ghost use Rattle.cr_order_alike.specs.Laws.{OrderedFilesRun, OrderedFilesRunAlike};

use cr_meaning_files::laws::fixed_files_run_alike;
use cr_meaning_orders::laws::left_to_right_is_an_order;

/// A file that `OrderLaw` takes comes to the end that its run from left to right has, and to no other, in whatever order operands, arguments
/// and initialisers are evaluated.
pub fn ordered_files_run_alike()
    ensures there { OrderedFilesRun }
    ensures only { OrderedFilesRunAlike }
{
    left_to_right_is_an_order();
    fixed_files_run_alike();
}
