//! Tests on ids, values and bounds.

ghost use Rattle.std.specs.Prelude.{◌≡◌, ◌<◌, ◌≤◌, ◌&&◌, ◌||◌, true, ℕ, not, length, Option, map, slice_index_or};
ghost use Rattle.std.specs.List.{list_all};
ghost use Rattle.imkl_population.specs.Values.{is_literal_of, is_of_type, is_whole_number, is_over, same_scalar};
ghost use Rattle.imkl_population.specs.Building.{is_id_byte, is_id, bounds_fault};

use crate::fault::PopulationFault;
use crate::limits::MAX_ID_LENGTH;
use crate::numbers::ObjectNo;
use crate::scalar::Scalar;
use imkl_model::{ClassModel, ElementType, EnumNo, FeatureInfo, FeatureNo};

fn is_id_byte(b: u8) -> bool
    ensures { result ≡ is_id_byte b }
{
    matches!(b, b'A'..=b'Z' | b'a'..=b'z' | b'0'..=b'9' | b'-'..=b'.' | b'_' | b':')
}

fn are_id_bytes(id: &[u8]) -> bool
    ensures { result ≡ list_all is_id_byte id.now }
{
    id.iter().all(|b| is_id_byte(*b))
}

/// Whether a text has the form of an id: 1 to 128 characters of `A-Z a-z 0-9 . _ : -`.
pub(crate) fn is_id(id: &str) -> bool
    ensures { result ≡ is_id id.now }
{
    !id.is_empty() && id.len() <= MAX_ID_LENGTH && are_id_bytes(id.as_bytes())
}

/// Whether a value is a literal of an enumeration that has this number of literals.
fn is_literal_of(enumeration: EnumNo, literals: usize, value: &Scalar) -> bool
    ensures { result ≡ is_literal_of enumeration literals value.now }
{
    match value {
        Scalar::Literal(e, literal) => {
            e.index() == enumeration.index() && literal.index() < literals
        }
        _ => false,
    }
}

/// Whether a value is a whole number. Each has 64 bits: the comparison is always true.
fn is_whole_number(value: &Scalar) -> bool
    ensures { result ≡ is_whole_number value.now }
{
    match value {
        Scalar::Int(n) => *n >= i64::MIN,
        _ => false,
    }
}

/// Whether all values are of an attribute's type.
pub(crate) fn are_of_type(model: &ClassModel, element: ElementType, values: &[Scalar]) -> bool
    requires { (e : ℕ) → element ≡ ElementType.Enumeration e → e < length model.now.enumerations }
    ensures { result ≡ list_all (is_of_type model.now element) values.now }
{
    match element {
        ElementType::Boolean => values.iter().all(|v| matches!(v, Scalar::Bool(_))),
        ElementType::Integer => values.iter().all(is_whole_number),
        ElementType::String => values.iter().all(|v| matches!(v, Scalar::Text(_))),
        ElementType::Enumeration(e) => {
            let literals = model.literal_count(e);
            values.iter().all(|v| is_literal_of(e, literals, v))
        }
        ElementType::Class(_) => values.is_empty(),
    }
}

pub(crate) fn is_over(upper: Option<u32>, count: usize) -> bool
    ensures { result ≡ is_over upper count }
{
    match upper {
        None => false,
        Some(upper) => (upper as usize) < count,
    }
}

/// What is wrong with a number of values at a feature, by its bounds.
pub(crate) fn bounds_fault(
    info: &FeatureInfo,
    object: ObjectNo,
    feature: FeatureNo,
    count: usize,
) -> Option<PopulationFault>
    ensures { result ≡ bounds_fault info.now object feature count }
{
    if count < info.lower as usize {
        Some(PopulationFault::TooFew { object, feature })
    } else if is_over(info.upper, count) {
        Some(PopulationFault::TooMany { object, feature })
    } else {
        None
    }
}
