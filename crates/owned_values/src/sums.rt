//! Sums of collections.

ghost use Rattle.std.specs.Prelude.{◌≡◌, ◌+ℤ◌, FitsSigned};
ghost use Rattle.std.specs.Int.{w128};
ghost use Rattle.rule_values.specs.Operations.{sum_of, summation};
ghost use Rattle.owned_values.specs.Meant.{meant, meant_elements};

use crate::value::{Element, Value};

/// The sum of two numbers, which fits.
fn plus(total: i128, n: i64) -> i128
    requires { FitsSigned w128 (total +ℤ n) }
    ensures { result ≡ total +ℤ n }
{
    total + i128::from(n)
}

/// The sum of whole numbers; there is none where an element is null. No list's sum leaves 128 bits.
fn sum_of(elements: &[Element<'_>]) -> Option<i128>
    ensures { result ≡ sum_of (meant_elements elements.now) }
{
    let mut total: i128 = 0;
    for element in elements {
        let Element::Int(n) = element else {
            return None;
        };
        total = plus(total, *n);
    }
    Some(total)
}

/// The sum of a collection of whole numbers; invalid where an element is null or the sum is out of range.
pub fn summation<'a>(v: &Value<'_>) -> Value<'a>
    ensures { meant result ≡ summation (meant v.now) }
{
    let Value::Collection(_, elements) = v else {
        return Value::Invalid;
    };
    let Some(total) = sum_of(elements.as_slice()) else {
        return Value::Invalid;
    };
    match i64::try_from(total) {
        Ok(n) => Value::Element(Element::Int(n)),
        Err(_) => Value::Invalid,
    }
}
