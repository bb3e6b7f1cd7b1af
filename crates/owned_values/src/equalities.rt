//! Equality of values.

ghost use Rattle.std.specs.Prelude.{◌≡◌};
ghost use Rattle.rule_values.specs.Equality.{occur_as_often, same_members, same_counts, same_lists, same_elements, equal_values};
ghost use Rattle.rule_values.specs.Operations.{equality};
ghost use Rattle.owned_values.specs.Meant.{meant, meant_elements};

use crate::elements::{are_elements_among, occurrences, same_element};
use crate::value::{Element, Value, is_invalid};
use ocl_base::CollectionKind;
use ocl_kinds::is_same_collection;

/// Whether each element of the first list stands as often in the second.
fn occur_as_often(left: &[Element<'_>], right: &[Element<'_>]) -> bool
    ensures { result ≡ occur_as_often (meant_elements left.now) (meant_elements right.now) }
{
    for element in left {
        if occurrences(left, element) != occurrences(right, element) {
            return false;
        }
    }
    true
}

/// Whether two lists are the same, one by one.
fn same_lists(left: &[Element<'_>], right: &[Element<'_>]) -> bool
    ensures { result ≡ same_lists (meant_elements left.now) (meant_elements right.now) }
{
    if left.len() != right.len() {
        return false;
    }
    for index in 0..left.len() {
        if !same_element(&left[index], &right[index]) {
            return false;
        }
    }
    true
}

/// Whether two lists have the same members.
fn same_members(left: &[Element<'_>], right: &[Element<'_>]) -> bool
    ensures { result ≡ same_members (meant_elements left.now) (meant_elements right.now) }
{
    are_elements_among(right, left) && are_elements_among(left, right)
}

/// Whether each element stands as often in one list as in the other.
fn same_counts(left: &[Element<'_>], right: &[Element<'_>]) -> bool
    ensures { result ≡ same_counts (meant_elements left.now) (meant_elements right.now) }
{
    occur_as_often(left, right) && occur_as_often(right, left)
}

/// Whether the elements of two collections of one kind are the same: Sets by members, Bags by counts, the ordered ones
/// by list.
fn same_elements(kind: CollectionKind, left: &[Element<'_>], right: &[Element<'_>]) -> bool
    ensures { result ≡ same_elements kind (meant_elements left.now) (meant_elements right.now) }
{
    match kind {
        CollectionKind::Set => same_members(left, right),
        CollectionKind::OrderedSet => same_lists(left, right),
        CollectionKind::Bag => same_counts(left, right),
        CollectionKind::Sequence => same_lists(left, right),
    }
}

/// Whether two values that are not invalid are equal.
fn equal_values(v: &Value<'_>, w: &Value<'_>) -> bool
    ensures { result ≡ equal_values (meant v.now) (meant w.now) }
{
    match (v, w) {
        (Value::Element(a), Value::Element(b)) => same_element(a, b),
        (Value::Collection(c, left), Value::Collection(d, right)) => {
            is_same_collection(*c, *d) && same_elements(*c, left.as_slice(), right.as_slice())
        }
        _ => false,
    }
}

/// Whether two values are equal; invalid where one is invalid.
pub fn equality<'a>(v: &Value<'_>, w: &Value<'_>) -> Value<'a>
    ensures { meant result ≡ equality (meant v.now) (meant w.now) }
{
    if is_invalid(v) || is_invalid(w) {
        return Value::Invalid;
    }
    Value::Element(Element::Bool(equal_values(v, w)))
}
