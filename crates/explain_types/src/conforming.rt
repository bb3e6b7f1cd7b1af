//! Which type conforms to which, and of which types operators and operations take values.

use crate::operations::{Argument, operation_on};
use explain_names::is_class_below;
use imkl_model::ClassModel;
use ocl_core::BasicType;
use ocl_kinds::{Kind, ScalarKind, common_kind, elements_kind, is_same_collection};
use ocl_text::BinaryOperator;

fn is_scalar_below(model: &ClassModel, kind: &ScalarKind, wanted: &ScalarKind) -> bool {
    match kind {
        ScalarKind::Void => true,
        ScalarKind::Class(class) => match wanted {
            ScalarKind::Class(above) => is_class_below(model, *class, *above),
            _ => false,
        },
        _ => *kind == *wanted,
    }
}

/// Whether a type conforms to another, or may stand for one: null for a collection.
pub(crate) fn is_below(model: &ClassModel, kind: &Kind, wanted: &Kind) -> bool {
    match kind {
        Kind::Scalar(one) => match wanted {
            Kind::Scalar(other) => is_scalar_below(model, one, other),
            Kind::Collection(_, _) => matches!(one, ScalarKind::Void),
        },
        Kind::Collection(collection, element) => match wanted {
            Kind::Scalar(_) => false,
            Kind::Collection(same, other) => {
                is_same_collection(*collection, *same) && is_scalar_below(model, element, other)
            }
        },
    }
}

/// Whether a value of one type may be equal to one of another, but for two nulls.
pub(crate) fn have_something_in_common(left: &Kind, right: &Kind) -> bool {
    match left {
        Kind::Scalar(one) => match right {
            Kind::Scalar(other) => common_kind(one, other).is_some(),
            Kind::Collection(_, _) => false,
        },
        Kind::Collection(collection, element) => match right {
            Kind::Scalar(_) => false,
            Kind::Collection(same, other) => {
                is_same_collection(*collection, *same) && common_kind(element, other).is_some()
            }
        },
    }
}

/// Whether an operator asks whether two values are equal.
pub(crate) fn is_equality(operator: BinaryOperator) -> bool {
    matches!(operator, BinaryOperator::Equal | BinaryOperator::NotEqual)
}

/// Whether an operator gives an Integer.
pub(crate) fn is_arithmetic(operator: BinaryOperator) -> bool {
    matches!(
        operator,
        BinaryOperator::Multiply
            | BinaryOperator::Divide
            | BinaryOperator::Modulo
            | BinaryOperator::Add
            | BinaryOperator::Subtract
    )
}

/// Whether values of two types can be compared.
fn can_be_compared(left: &Kind, right: &Kind) -> bool {
    match left {
        Kind::Scalar(_) => true,
        Kind::Collection(collection, element) => match right {
            Kind::Scalar(_) => true,
            Kind::Collection(other, second) => {
                !is_same_collection(*collection, *other) || common_kind(element, second).is_some()
            }
        },
    }
}

/// Whether a type is a basic one, or that of null.
fn is_basic(wanted: BasicType, kind: &Kind) -> bool {
    *kind == Kind::Scalar(wanted.kind()) || *kind == Kind::Scalar(ScalarKind::Void)
}

/// Whether a type is that of an Integer, or of null.
pub(crate) fn is_integer(kind: &Kind) -> bool {
    is_basic(BasicType::Integer, kind)
}

/// Whether an operator that isn't of Booleans takes operands of two types.
pub(crate) fn are_taken(operator: BinaryOperator, left: &Kind, right: &Kind) -> bool {
    if is_equality(operator) {
        return can_be_compared(left, right);
    }
    is_integer(left) && is_integer(right)
}

/// Whether a value of a type is what an operation on values of another type takes as an argument.
fn fits_argument(argument: Argument, on: &Kind, kind: &Kind) -> bool {
    let element = elements_kind(on);
    match argument {
        Argument::Of(wanted) => is_basic(wanted, kind),
        Argument::Element => match kind {
            Kind::Scalar(other) => common_kind(&element, other).is_some(),
            Kind::Collection(_, _) => false,
        },
        Argument::Collection => match kind {
            Kind::Scalar(_) => false,
            Kind::Collection(_, other) => common_kind(&element, other).is_some(),
        },
        Argument::Class => true,
    }
}

/// Whether an operation on values of a type takes an argument of another one; what isn't an argument of it counts as taken.
pub(crate) fn is_taken(name: &str, on: &Kind, index: usize, kind: &Kind) -> bool {
    match operation_on(name, on) {
        Some(operation) => match operation.argument(index) {
            Some(argument) => fits_argument(argument, on, kind),
            None => true,
        },
        None => true,
    }
}
