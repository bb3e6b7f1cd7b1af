//! Operations on whole numbers: what passes their range is invalid.

ghost use Rattle.std.specs.Prelude.{◌≡◌};
ghost use Rattle.rule_values.specs.Operations.{addition, subtraction, multiplication, division, remainder, lesser, greater, negative, absolute, less_than, at_most};
ghost use Rattle.owned_values.specs.Meant.{meant};
ghost use Rattle.owned_values.specs.Walks.{integers_in, integer_in, checked_value};

use crate::value::{Element, Value};

/// Two whole numbers, if both values are.
pub fn integers(v: &Value<'_>, w: &Value<'_>) -> Option<(i64, i64)>
    ensures { result ≡ integers_in (meant v.now) (meant w.now) }
{
    match (v, w) {
        (Value::Element(Element::Int(a)), Value::Element(Element::Int(b))) => Some((*a, *b)),
        _ => None,
    }
}

/// A whole number, if the value is one.
fn integer(v: &Value<'_>) -> Option<i64>
    ensures { result ≡ integer_in (meant v.now) }
{
    match v {
        Value::Element(Element::Int(a)) => Some(*a),
        _ => None,
    }
}

/// The number that was computed, or invalid.
fn number_or_invalid<'a>(n: Option<i64>) -> Value<'a>
    ensures { meant result ≡ checked_value n }
{
    match n {
        Some(n) => Value::Element(Element::Int(n)),
        None => Value::Invalid,
    }
}

pub fn addition<'a>(v: &Value<'_>, w: &Value<'_>) -> Value<'a>
    ensures { meant result ≡ addition (meant v.now) (meant w.now) }
{
    let Some((a, b)) = integers(v, w) else {
        return Value::Invalid;
    };
    number_or_invalid(a.checked_add(b))
}

pub fn subtraction<'a>(v: &Value<'_>, w: &Value<'_>) -> Value<'a>
    ensures { meant result ≡ subtraction (meant v.now) (meant w.now) }
{
    let Some((a, b)) = integers(v, w) else {
        return Value::Invalid;
    };
    number_or_invalid(a.checked_sub(b))
}

pub fn multiplication<'a>(v: &Value<'_>, w: &Value<'_>) -> Value<'a>
    ensures { meant result ≡ multiplication (meant v.now) (meant w.now) }
{
    let Some((a, b)) = integers(v, w) else {
        return Value::Invalid;
    };
    number_or_invalid(a.checked_mul(b))
}

/// Towards zero; by zero it is invalid.
pub fn division<'a>(v: &Value<'_>, w: &Value<'_>) -> Value<'a>
    ensures { meant result ≡ division (meant v.now) (meant w.now) }
{
    let Some((a, b)) = integers(v, w) else {
        return Value::Invalid;
    };
    number_or_invalid(a.checked_div(b))
}

/// What the quotient leaves; of -2^63 and -1 it is 0.
pub fn remainder<'a>(v: &Value<'_>, w: &Value<'_>) -> Value<'a>
    ensures { meant result ≡ remainder (meant v.now) (meant w.now) }
{
    let Some((a, b)) = integers(v, w) else {
        return Value::Invalid;
    };
    if b == 0 {
        return Value::Invalid;
    }
    Value::Element(Element::Int(a.wrapping_rem(b)))
}

pub fn lesser<'a>(v: &Value<'_>, w: &Value<'_>) -> Value<'a>
    ensures { meant result ≡ lesser (meant v.now) (meant w.now) }
{
    let Some((a, b)) = integers(v, w) else {
        return Value::Invalid;
    };
    Value::Element(Element::Int(a.min(b)))
}

pub fn greater<'a>(v: &Value<'_>, w: &Value<'_>) -> Value<'a>
    ensures { meant result ≡ greater (meant v.now) (meant w.now) }
{
    let Some((a, b)) = integers(v, w) else {
        return Value::Invalid;
    };
    Value::Element(Element::Int(a.max(b)))
}

pub fn negative<'a>(v: &Value<'_>) -> Value<'a>
    ensures { meant result ≡ negative (meant v.now) }
{
    let Some(a) = integer(v) else {
        return Value::Invalid;
    };
    number_or_invalid(a.checked_neg())
}

pub fn absolute<'a>(v: &Value<'_>) -> Value<'a>
    ensures { meant result ≡ absolute (meant v.now) }
{
    let Some(a) = integer(v) else {
        return Value::Invalid;
    };
    number_or_invalid(a.checked_abs())
}

pub fn less_than<'a>(v: &Value<'_>, w: &Value<'_>) -> Value<'a>
    ensures { meant result ≡ less_than (meant v.now) (meant w.now) }
{
    let Some((a, b)) = integers(v, w) else {
        return Value::Invalid;
    };
    Value::Element(Element::Bool(a < b))
}

pub fn at_most<'a>(v: &Value<'_>, w: &Value<'_>) -> Value<'a>
    ensures { meant result ≡ at_most (meant v.now) (meant w.now) }
{
    let Some((a, b)) = integers(v, w) else {
        return Value::Invalid;
    };
    Value::Element(Element::Bool(a <= b))
}
