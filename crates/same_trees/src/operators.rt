//! Equality of operators.

ghost use Rattle.std.specs.Prelude.{◌≡◌, true};

use ocl_core::{ClassOperator, ElementOperator, Operator, PlainOperator};

/// Whether two operators that their names alone describe are the same.
fn is_same_plain(left: PlainOperator, right: PlainOperator) -> bool
    ensures same { result ≡ true → left ≡ right }
    ensures complete { left ≡ right → result ≡ true }
{
    match left {
        PlainOperator::Add => matches!(right, PlainOperator::Add),
        PlainOperator::Subtract => matches!(right, PlainOperator::Subtract),
        PlainOperator::Multiply => matches!(right, PlainOperator::Multiply),
        PlainOperator::Divide => matches!(right, PlainOperator::Divide),
        PlainOperator::Modulo => matches!(right, PlainOperator::Modulo),
        PlainOperator::Minimum => matches!(right, PlainOperator::Minimum),
        PlainOperator::Maximum => matches!(right, PlainOperator::Maximum),
        PlainOperator::Negate => matches!(right, PlainOperator::Negate),
        PlainOperator::Absolute => matches!(right, PlainOperator::Absolute),
        PlainOperator::Less => matches!(right, PlainOperator::Less),
        PlainOperator::LessEqual => matches!(right, PlainOperator::LessEqual),
        PlainOperator::Greater => matches!(right, PlainOperator::Greater),
        PlainOperator::GreaterEqual => matches!(right, PlainOperator::GreaterEqual),
        PlainOperator::CharacterCount => matches!(right, PlainOperator::CharacterCount),
        PlainOperator::Substring => matches!(right, PlainOperator::Substring),
        PlainOperator::Not => matches!(right, PlainOperator::Not),
        PlainOperator::And => matches!(right, PlainOperator::And),
        PlainOperator::Or => matches!(right, PlainOperator::Or),
        PlainOperator::Xor => matches!(right, PlainOperator::Xor),
        PlainOperator::Implies => matches!(right, PlainOperator::Implies),
        PlainOperator::IsUndefined => matches!(right, PlainOperator::IsUndefined),
        PlainOperator::IsInvalid => matches!(right, PlainOperator::IsInvalid),
        PlainOperator::BothNull => matches!(right, PlainOperator::BothNull),
        PlainOperator::ElementCount => matches!(right, PlainOperator::ElementCount),
        PlainOperator::IsEmpty => matches!(right, PlainOperator::IsEmpty),
        PlainOperator::Sum => matches!(right, PlainOperator::Sum),
    }
}

/// Whether two operators ask the same of an object's class.
fn is_same_of_class(left: ClassOperator, right: ClassOperator) -> bool
    ensures same { result ≡ true → left ≡ right }
    ensures complete { left ≡ right → result ≡ true }
{
    match left {
        ClassOperator::IsKindOf => matches!(right, ClassOperator::IsKindOf),
        ClassOperator::IsTypeOf => matches!(right, ClassOperator::IsTypeOf),
        ClassOperator::AsType => matches!(right, ClassOperator::AsType),
    }
}

/// Whether two operators ask the same of a collection's elements.
fn is_same_of_elements(left: ElementOperator, right: ElementOperator) -> bool
    ensures same { result ≡ true → left ≡ right }
    ensures complete { left ≡ right → result ≡ true }
{
    match left {
        ElementOperator::Includes => matches!(right, ElementOperator::Includes),
        ElementOperator::Occurrences => matches!(right, ElementOperator::Occurrences),
        ElementOperator::IncludesAll => matches!(right, ElementOperator::IncludesAll),
        ElementOperator::ExcludesAll => matches!(right, ElementOperator::ExcludesAll),
        ElementOperator::AsSet => matches!(right, ElementOperator::AsSet),
    }
}

/// Whether two operators are the same.
pub(crate) fn is_same_operator(left: Operator, right: Operator) -> bool
    ensures same { result ≡ true → left ≡ right }
    ensures complete { left ≡ right → result ≡ true }
{
    match left {
        Operator::Plain(operator) => match right {
            Operator::Plain(other) => is_same_plain(operator, other),
            _ => false,
        },
        Operator::OfClass(operator, class) => match right {
            Operator::OfClass(other, another) => {
                is_same_of_class(operator, other) && class == another
            }
            _ => false,
        },
        Operator::OfElements(operator, kind) => match right {
            Operator::OfElements(other, another) => {
                is_same_of_elements(operator, other) && kind == another
            }
            _ => false,
        },
        Operator::Equal(kind) => match right {
            Operator::Equal(other) => kind == other,
            _ => false,
        },
    }
}
