//! Messages for operands that an operator doesn't take.

use crate::conforming::{is_equality, is_integer};
use crate::type_names::a_type;
use crate::writing::Words;
use explain_text::instead_on_value;
use imkl_model::ClassModel;
use ocl_kinds::{Kind, ScalarKind};
use ocl_text::BinaryOperator;
use std::alloc::AllocError;

/// How a value that is no Integer is made one.
fn integer_advice(kind: &Kind) -> &'static str {
    match kind {
        Kind::Collection(_, ScalarKind::Integer) => {
            "of a collection, write `->size()`, `->sum()`, or `->forAll(x | ..)` round a condition"
        }
        Kind::Collection(_, _) => "the number of elements is `->size()`",
        Kind::Scalar(ScalarKind::String) => "the number of characters is `.size()`",
        Kind::Scalar(_) => "",
    }
}

/// An operand of the sign that is no Integer.
pub(crate) fn no_integer(
    words: &mut Words,
    model: &ClassModel,
    kind: &Kind,
) -> Result<(), AllocError> {
    let name = a_type(model, kind);
    words.message.push_str("`-` takes an Integer")?;
    write!(&mut words.label, "it stands before {name}")?;
    words.help.push_str(integer_advice(kind))
}

/// How an operator is written that takes two Integers, or asks whether values are equal.
fn operator_name(operator: BinaryOperator) -> &'static str {
    match operator {
        BinaryOperator::Multiply => "*",
        BinaryOperator::Divide => "div",
        BinaryOperator::Modulo => "mod",
        BinaryOperator::Add => "+",
        BinaryOperator::Subtract => "-",
        BinaryOperator::Less => "<",
        BinaryOperator::LessEqual => "<=",
        BinaryOperator::Greater => ">",
        BinaryOperator::GreaterEqual => ">=",
        BinaryOperator::Equal => "=",
        BinaryOperator::NotEqual => "<>",
        BinaryOperator::And => "and",
        BinaryOperator::Or => "or",
        BinaryOperator::Xor => "xor",
        BinaryOperator::Implies => "implies",
    }
}

/// Whether a type is that of a String.
fn is_string(kind: &Kind) -> bool {
    matches!(kind, Kind::Scalar(ScalarKind::String))
}

/// How what was meant by an operator between two Strings is written.
fn strings_advice(operator: BinaryOperator) -> &'static str {
    match operator {
        BinaryOperator::Add => instead_on_value("concat"),
        BinaryOperator::Less
        | BinaryOperator::LessEqual
        | BinaryOperator::Greater
        | BinaryOperator::GreaterEqual => "Strings have no order; `=` and `<>` compare them",
        _ => "the number of characters is `.size()`",
    }
}

/// How what was meant by an operator between two collections is written.
fn collections_advice(operator: BinaryOperator, left: &Kind) -> &'static str {
    match operator {
        BinaryOperator::Subtract => "`c->reject(x | d->includes(x))` has what c has and d lacks",
        _ => integer_advice(left),
    }
}

/// How operands are made Integers that aren't.
fn operands_advice(operator: BinaryOperator, left: &Kind, right: &Kind) -> &'static str {
    if is_string(left) && is_string(right) {
        return strings_advice(operator);
    }
    match (left, right) {
        (Kind::Collection(_, _), Kind::Collection(_, _)) => collections_advice(operator, left),
        _ if is_integer(left) => integer_advice(right),
        _ => integer_advice(left),
    }
}

/// What an operator takes, and how operands are made so that aren't.
fn operands_wanted(
    operator: BinaryOperator,
    left: &Kind,
    right: &Kind,
) -> (&'static str, &'static str) {
    if is_equality(operator) {
        return ("collections whose elements may be equal", "");
    }
    ("two Integers", operands_advice(operator, left, right))
}

/// Operands that an operator doesn't take.
pub(crate) fn operands(
    words: &mut Words,
    model: &ClassModel,
    operator: BinaryOperator,
    left: &Kind,
    right: &Kind,
) -> Result<(), AllocError> {
    let name = operator_name(operator);
    let (wanted, help) = operands_wanted(operator, left, right);
    let (one, other) = (a_type(model, left), a_type(model, right));
    write!(&mut words.message, "`{name}` takes {wanted}")?;
    write!(&mut words.label, "{one} on its left, {other} on its right")?;
    words.help.push_str(help)
}
