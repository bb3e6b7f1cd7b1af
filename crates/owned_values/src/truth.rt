//! Operations on truth values, and tests of any values.

ghost use Rattle.std.specs.Prelude.{◌≡◌};
ghost use Rattle.rule_values.specs.Operations.{negation, conjunction, disjunction, exclusive_disjunction, implication, undefined_test, invalid_test, both_null};
ghost use Rattle.owned_values.specs.Meant.{meant};

use crate::value::{Element, Value, is_false, is_invalid, is_null, is_true, truth_known};

pub fn negation<'a>(v: &Value<'_>) -> Value<'a>
    ensures { meant result ≡ negation (meant v.now) }
{
    truth_known(is_false(v), is_true(v))
}

/// False where one is false, whatever the other.
pub fn conjunction<'a>(v: &Value<'_>, w: &Value<'_>) -> Value<'a>
    ensures { meant result ≡ conjunction (meant v.now) (meant w.now) }
{
    truth_known(is_true(v) && is_true(w), is_false(v) || is_false(w))
}

/// True where one is true, whatever the other.
pub fn disjunction<'a>(v: &Value<'_>, w: &Value<'_>) -> Value<'a>
    ensures { meant result ≡ disjunction (meant v.now) (meant w.now) }
{
    truth_known(is_true(v) || is_true(w), is_false(v) && is_false(w))
}

pub fn exclusive_disjunction<'a>(v: &Value<'_>, w: &Value<'_>) -> Value<'a>
    ensures { meant result ≡ exclusive_disjunction (meant v.now) (meant w.now) }
{
    truth_known(
        (is_true(v) && is_false(w)) || (is_false(v) && is_true(w)),
        (is_true(v) && is_true(w)) || (is_false(v) && is_false(w)),
    )
}

/// True where the first is false or the second is true, whatever the other.
pub fn implication<'a>(v: &Value<'_>, w: &Value<'_>) -> Value<'a>
    ensures { meant result ≡ implication (meant v.now) (meant w.now) }
{
    truth_known(is_false(v) || is_true(w), is_true(v) && is_false(w))
}

/// Whether it is null or invalid.
pub fn undefined_test<'a>(v: &Value<'_>) -> Value<'a>
    ensures { meant result ≡ undefined_test (meant v.now) }
{
    Value::Element(Element::Bool(is_invalid(v) || is_null(v)))
}

/// Whether it is invalid.
pub fn invalid_test<'a>(v: &Value<'_>) -> Value<'a>
    ensures { meant result ≡ invalid_test (meant v.now) }
{
    Value::Element(Element::Bool(is_invalid(v)))
}

/// Whether both are null; invalid where one is invalid.
pub fn both_null<'a>(v: &Value<'_>, w: &Value<'_>) -> Value<'a>
    ensures { meant result ≡ both_null (meant v.now) (meant w.now) }
{
    if is_invalid(v) || is_invalid(w) {
        return Value::Invalid;
    }
    Value::Element(Element::Bool(is_null(v) && is_null(w)))
}
