//! Values that are written in a text.

ghost use Rattle.std.specs.Prelude.{◌≡◌};
ghost use Rattle.ocl_core.specs.CoreView.{constant_of};
ghost use Rattle.ocl_semantics.specs.Meaning.{constant_value};
ghost use Rattle.owned_values.specs.Meant.{meant};

use ocl_core::ConstantValue;
use owned_values::{Element, Value};

/// A value that stands in a text.
pub(crate) fn constant_value(value: &ConstantValue) -> Value<'_>
    ensures { meant result ≡ constant_value (constant_of value.now) }
{
    match value {
        ConstantValue::Boolean(truth) => Value::Element(Element::Bool(*truth)),
        ConstantValue::Integer(number) => Value::Element(Element::Int(number.get() as i64)),
        ConstantValue::Text(text) => Value::Element(Element::Text(text.as_str())),
        ConstantValue::Literal(enumeration, literal) => {
            Value::Element(Element::Literal(*enumeration, *literal))
        }
        ConstantValue::Null => Value::Element(Element::Null),
        ConstantValue::Invalid => Value::Invalid,
    }
}
