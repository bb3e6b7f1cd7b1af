//! Which operands decide an operation.

ghost use Rattle.std.specs.Prelude.{◌≡◌, map};
ghost use Rattle.owned_values.specs.Meant.{meant};
ghost use Rattle.explain_why.specs.Explanation.{first_decides, second_decides, is_first_shown, are_others_shown};

use ocl_core::{Operator, PlainOperator};
use owned_values::{Value, is_false, is_true};

/// Whether the first operand decides, whatever the second is.
fn first_decides(operator: PlainOperator, first: &Value<'_>) -> bool
    ensures { result ≡ first_decides operator (meant first.now) }
{
    match operator {
        PlainOperator::And | PlainOperator::Implies => is_false(first),
        PlainOperator::Or => is_true(first),
        _ => false,
    }
}

/// Whether the second operand decides, whatever the first is.
fn second_decides(operator: PlainOperator, second: &Value<'_>) -> bool
    ensures { result ≡ second_decides operator (meant second.now) }
{
    match operator {
        PlainOperator::And => is_false(second),
        PlainOperator::Or | PlainOperator::Implies => is_true(second),
        _ => false,
    }
}

/// Whether the first operand is shown: not where it doesn't decide and the second does.
pub(crate) fn is_first_shown(operator: Operator, first: &Value<'_>, others: &[Value<'_>]) -> bool
    ensures { result ≡ is_first_shown operator (meant first.now) (map meant others.now) }
{
    match (operator, others) {
        (Operator::Plain(plain), [second, ..]) => {
            first_decides(plain, first) || !second_decides(plain, second)
        }
        _ => true,
    }
}

/// Whether the operands after the first are shown: not where the first decides.
pub(crate) fn are_others_shown(operator: Operator, first: &Value<'_>) -> bool
    ensures { result ≡ are_others_shown operator (meant first.now) }
{
    match operator {
        Operator::Plain(plain) => !first_decides(plain, first),
        Operator::OfClass(_, _) | Operator::OfElements(_, _) | Operator::Equal(_) => true,
    }
}
