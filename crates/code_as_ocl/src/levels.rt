//! How tightly operators bind.

ghost use Rattle.std.specs.Prelude.{◌≡◌, ◌≤◌};
ghost use Rattle.explain_why.specs.Texts.{form_of};
ghost use Rattle.code_as_ocl.specs.TypedTexts.{plain_level, operator_level, first_level, others_level};

use explain_why::Form;
use ocl_core::{Operator, PlainOperator};

/// How tightly an operator binds that its name alone describes.
fn plain_level(operator: PlainOperator) -> u8
    ensures level { result ≡ plain_level operator }
    ensures small { result ≤ 10 }
{
    match operator {
        PlainOperator::Implies => 1,
        PlainOperator::Xor => 2,
        PlainOperator::Or => 3,
        PlainOperator::And => 4,
        PlainOperator::BothNull => 5,
        PlainOperator::Less | PlainOperator::LessEqual => 6,
        PlainOperator::Greater | PlainOperator::GreaterEqual => 6,
        PlainOperator::Add | PlainOperator::Subtract => 7,
        PlainOperator::Multiply | PlainOperator::Divide | PlainOperator::Modulo => 8,
        PlainOperator::Negate | PlainOperator::Not => 9,
        _ => 10,
    }
}

/// How tightly an operator binds.
pub(crate) fn operator_level(operator: Operator) -> u8
    ensures level { result ≡ operator_level operator }
    ensures small { result ≤ 10 }
{
    match operator {
        Operator::Plain(plain) => plain_level(plain),
        Operator::OfClass(_, _) | Operator::OfElements(_, _) => 10,
        Operator::Equal(_) => 5,
    }
}

/// How tightly the first operand of an operator has to bind.
pub(crate) fn first_level(form: Form, operator: Operator) -> u8
    ensures { result ≡ first_level (form_of form) operator }
{
    match form {
        Form::Between => operator_level(operator),
        Form::Before | Form::After => 10,
    }
}

/// How tightly the others have to.
pub(crate) fn others_level(form: Form, operator: Operator) -> u8
    ensures { result ≡ others_level (form_of form) operator }
{
    match form {
        Form::Between => operator_level(operator) + 1,
        Form::Before => 10,
        Form::After => 1,
    }
}
