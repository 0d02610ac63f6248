ghost use Rattle.std.specs.Prelude.{◌≡◌};
ghost use Rattle.cr_check_constants.specs.Operators.{holds, relation_of};

use crate::constant::{Constant, Operand, truth, without_value};
use crate::convert::{common_kind, converted};
use crate::operator::Relation;
use cr_ints::IntKind;

/// `< > <= >= == !=` of two operands of integer types (C11 6.5.8, 6.5.9). It is an int.
pub fn relation(operator: Relation, left: Operand, right: Operand) -> Operand
    ensures { result ≡ relation_of operator left right }
{
    let kind = common_kind(left.kind, right.kind);
    let constant = match (left.constant, right.constant) {
        (Constant::Value(x), Constant::Value(y)) => {
            truth(holds(operator, converted(kind, x), converted(kind, y)))
        }
        (x, y) => without_value(x, y),
    };
    Operand {
        kind: IntKind::Int,
        constant,
    }
}

fn holds(operator: Relation, left: i128, right: i128) -> bool
    ensures { result ≡ holds operator left right }
{
    match operator {
        Relation::Equal => left == right,
        Relation::NotEqual => left != right,
        Relation::Less => left < right,
        Relation::Greater => left > right,
        Relation::LessEqual => left <= right,
        Relation::GreaterEqual => left >= right,
    }
}
