//! Equality of what stands in a single node: constants and iterations.

ghost use Rattle.std.specs.Prelude.{◌≡◌, true};
ghost use Rattle.ocl_core.specs.CoreView.{constant_of};

use ocl_core::{ConstantValue, Iteration};

/// Whether two constants are the same.
pub(crate) fn is_same_constant(left: &ConstantValue, right: &ConstantValue) -> bool
    ensures same { result ≡ true → constant_of left.now ≡ constant_of right.now }
    ensures complete { left.now ≡ right.now → result ≡ true }
{
    match left {
        ConstantValue::Boolean(value) => match right {
            ConstantValue::Boolean(other) => value == other,
            _ => false,
        },
        ConstantValue::Integer(value) => match right {
            ConstantValue::Integer(other) => value.get() == other.get(),
            _ => false,
        },
        ConstantValue::Text(value) => match right {
            ConstantValue::Text(other) => value.as_bytes() == other.as_bytes(),
            _ => false,
        },
        ConstantValue::Literal(enumeration, literal) => match right {
            ConstantValue::Literal(other, another) => enumeration == other && literal == another,
            _ => false,
        },
        ConstantValue::Null => matches!(right, ConstantValue::Null),
        ConstantValue::Invalid => matches!(right, ConstantValue::Invalid),
    }
}

/// Whether two iterations are the same.
pub(crate) fn is_same_iteration(left: Iteration, right: Iteration) -> bool
    ensures same { result ≡ true → left ≡ right }
    ensures complete { left ≡ right → result ≡ true }
{
    match left {
        Iteration::ForAll => matches!(right, Iteration::ForAll),
        Iteration::Exists => matches!(right, Iteration::Exists),
        Iteration::One => matches!(right, Iteration::One),
        Iteration::Select => matches!(right, Iteration::Select),
        Iteration::Reject => matches!(right, Iteration::Reject),
        Iteration::Collect => matches!(right, Iteration::Collect),
        Iteration::CollectFlat => matches!(right, Iteration::CollectFlat),
        Iteration::IsUnique(kind) => match right {
            Iteration::IsUnique(other) => kind == other,
            _ => false,
        },
    }
}
