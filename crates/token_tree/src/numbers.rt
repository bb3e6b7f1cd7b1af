//! The number that a numeral writes.

ghost use Rattle.std.specs.Prelude.{◌≡◌, ◌<◌, ◌==◌, true, false, length, slice_index, Some, IfSome};
ghost use Rattle.fast_float.specs.Text.{minus};
ghost use Rattle.serde_json.specs.Read.{number_of, number_from};
ghost use Rattle.serde_json.specs.View.{number_view};

use fast_float::Numeral;
use serde_json::Number;

fn has_minus(bytes: &[u8]) -> bool
    ensures value { result ≡ (slice_index bytes.now 0 == minus) }
    ensures some { result ≡ true → 0 < length bytes.now }
{
    !bytes.is_empty() && bytes[0] == b'-'
}

/// The number that a numeral writes behind no sign, if it is a whole one.
fn unsigned(numeral: &Numeral<'_>) -> Option<Number>
    ensures { IfSome result (λ n. number_from false numeral.now ≡ Some (number_view n)) }
{
    let whole = numeral.to_u64()?;
    Some(Number::from(whole))
}

/// The number that a numeral writes behind a minus, if it is a whole one below zero.
fn negative(numeral: &Numeral<'_>) -> Option<Number>
    ensures { IfSome result (λ n. number_from true numeral.now ≡ Some (number_view n)) }
{
    let whole = numeral.to_i64(true)?;
    if whole >= 0 {
        return None;
    }
    Some(Number::from(whole))
}

/// A number's value. `None` for a number that is no whole one of 64 bits.
pub(crate) fn number_of(text: &str) -> Option<Number>
    ensures { IfSome result (λ n. number_of text.now ≡ Some (number_view n)) }
{
    let bytes = text.as_bytes();
    if has_minus(bytes) {
        negative(&Numeral::scan(&bytes[1..]))
    } else {
        unsigned(&Numeral::scan(bytes))
    }
}
