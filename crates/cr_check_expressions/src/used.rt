ghost use Rattle.std.specs.Prelude.{◌≡◌, ℕ};
ghost use Rattle.cr_check_types.specs.Types.{Qualified};
ghost use Rattle.cr_check_operands.specs.Values.{seen_by};
ghost use Rattle.cr_check_expressions.specs.Used.{takes_place, is_valued, takes_place_if};

use crate::form::Form;
use cr_check_operands::Fact;

/// Whether an expression is a place that is used as a value (C11 6.3.2.1p2, p3), by the form of the node above it, if that is an
/// expression, and by whether it is its first part. A string literal that initialises an array isn't either; its plan says so.
pub fn is_valued(above: Option<Form>, first: bool, fact: Fact) -> bool
    ensures { (look : ℕ → Qualified) → result ≡ is_valued above first (seen_by look fact) }
{
    fact.lvalue && !(first && takes_place_if(above))
}

fn takes_place_if(above: Option<Form>) -> bool
    ensures { result ≡ takes_place_if above }
{
    match above {
        Some(form) => takes_place(form),
        None => false,
    }
}

fn takes_place(form: Form) -> bool
    ensures { result ≡ takes_place form }
{
    match form {
        Form::SizeofExpression | Form::Address | Form::Group | Form::Member => true,
        Form::StepBefore | Form::StepBehind | Form::Assign | Form::Compound(_) => true,
        _ => false,
    }
}
