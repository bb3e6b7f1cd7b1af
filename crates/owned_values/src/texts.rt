//! Operations on texts, by characters.

ghost use Rattle.std.specs.Prelude.{◌≡◌, length, take, drop};
ghost use Rattle.std.specs.Str.{chars};
ghost use Rattle.rule_values.specs.Operations.{text_length, characters, substring};
ghost use Rattle.owned_values.specs.Meant.{meant};
ghost use Rattle.owned_values.specs.Walks.{IsSuffix};

use crate::elements::count_value;
use crate::integers::integers;
use crate::value::{Element, Value};

/// How many characters a text has.
fn character_count(text: &str) -> usize
    ensures { result ≡ length (chars text.now) }
{
    text.chars().count()
}

/// How many characters a text has; invalid of null and invalid.
pub fn text_length<'a>(v: &Value<'_>) -> Value<'a>
    ensures { meant result ≡ text_length (meant v.now) }
{
    match v {
        Value::Element(Element::Text(text)) => count_value(character_count(text)),
        _ => Value::Invalid,
    }
}

/// What is left of a text after `count` characters.
fn after(text: &str, count: usize) -> &str
    ensures suffix { IsSuffix result.now text.now }
    ensures left { chars result.now ≡ drop count (chars text.now) }
{
    let mut left = text.chars();
    for _ in 0..count {
        let _ = left.next();
    }
    left.as_str()
}

/// The first `count` characters of a text.
fn first(text: &str, count: usize) -> &str
    ensures { chars result.now ≡ take count (chars text.now) }
{
    let left = after(text, count);
    &text[..text.len() - left.len()]
}

/// The characters from `lower` to `upper`, counted from 1, both included; invalid unless 1 <= lower <= upper <= size.
pub fn substring<'a>(v: &Value<'a>, lower: &Value<'_>, upper: &Value<'_>) -> Value<'a>
    ensures { meant result ≡ substring (meant v.now) (meant lower.now) (meant upper.now) }
{
    let Value::Element(Element::Text(text)) = v else {
        return Value::Invalid;
    };
    let Some((from, to)) = integers(lower, upper) else {
        return Value::Invalid;
    };
    characters(text, from, to)
}

/// The characters of a text between two bounds.
fn characters(text: &str, from: i64, to: i64) -> Value<'_>
    ensures { meant result ≡ characters (chars text.now) from to }
{
    let Ok(from) = usize::try_from(from) else {
        return Value::Invalid;
    };
    let Ok(to) = usize::try_from(to) else {
        return Value::Invalid;
    };
    if from < 1 || to < from || character_count(text) < to {
        return Value::Invalid;
    }
    let part = first(after(text, from - 1), to + 1 - from);
    Value::Element(Element::Text(part))
}
