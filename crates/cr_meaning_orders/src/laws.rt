//! What a reader expects of runs in any order. The program calls none of these functions.
ghost use Rattle.cr_meaning_orders.specs.Laws.{LeftToRightIsAnOrder, FixedProgramsRunAlike, FixedProgramsMeanOneThing};

/// From left to right is one of the orders.
pub fn left_to_right_is_an_order()
    ensures { LeftToRightIsAnOrder }
{}

/// A well-typed program whose order is fixed has the same reply in each order: status, output, steps and memory.
pub fn fixed_programs_run_alike()
    ensures { FixedProgramsRunAlike }
{}

/// So it means one thing, in whatever order.
pub fn fixed_programs_mean_one_thing()
    ensures { FixedProgramsMeanOneThing }
{}
