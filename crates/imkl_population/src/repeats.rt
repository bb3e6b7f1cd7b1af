//! Repeated values.

ghost use Rattle.std.specs.Prelude.{◌≡◌, ◌||◌, true, false, not, bytes_eq, IfOk, OnOk};
ghost use Rattle.std.specs.Str.{chars};
ghost use Rattle.imkl_population.specs.declared.scalar.Scalar.{Scalar};
ghost use Rattle.imkl_population.specs.Values.{is_value_among, repeats_value, same_scalar};
ghost use Rattle.imkl_population.specs.Seen.{has_seen, is_encodable, SeesMore};

use crate::scalar::Scalar;
use std::alloc::{AllocError, Global};
use std::collections::BTreeSet;

/// The values met so far, by their types.
#[derive(Drop)]
pub struct Seen {
    /// The truth values.
    pub truths: BTreeSet<bool>,
    /// The whole numbers.
    pub integers: BTreeSet<i64>,
    /// The texts.
    pub texts: BTreeSet<String>,
    /// Of each literal the number of its enumeration and its number in it, both from 0.
    pub literals: BTreeSet<(usize, usize)>,
    /// The numbers of the objects, from 0.
    pub objects: BTreeSet<usize>,
}

fn nothing_seen(alloc: Global) -> Seen
    ensures { (value : Scalar) → has_seen result value ≡ false }
{
    Seen {
        truths: BTreeSet::new(alloc),
        integers: BTreeSet::new(alloc),
        texts: BTreeSet::new(alloc),
        literals: BTreeSet::new(alloc),
        objects: BTreeSet::new(alloc),
    }
}

/// Adds a value, and answers whether it is new.
fn is_new(seen: &mut Seen, alloc: Global, value: &Scalar) -> Result<bool, AllocError>
    ensures encodable { IfOk result (λ b. is_encodable value.now ≡ true) }
    ensures new { IfOk result (λ b. b ≡ not (has_seen seen.old value.now)) }
    ensures more { OnOk result (SeesMore seen.old value.now seen.new) }
{
    match value {
        Scalar::Bool(b) => Ok(seen.truths.insert(*b)?),
        Scalar::Int(n) => Ok(seen.integers.insert(*n)?),
        Scalar::Text(text) => {
            let key = String::from_str(alloc, text.as_str())?;
            Ok(seen.texts.insert(key)?)
        }
        Scalar::Literal(enumeration, literal) => {
            let key = (enumeration.index(), literal.index());
            Ok(seen.literals.insert(key)?)
        }
        Scalar::Object(object) => Ok(seen.objects.insert(object.index())?),
    }
}

/// Whether two texts are the same.
fn is_same_text(a: &str, b: &str) -> bool
    ensures { result ≡ bytes_eq (chars a.now) (chars b.now) }
{
    a == b
}

/// Whether two values are the same.
fn is_same(a: &Scalar, b: &Scalar) -> bool
    ensures { result ≡ same_scalar a.now b.now }
{
    match (a, b) {
        (Scalar::Bool(a), Scalar::Bool(b)) => *a == *b,
        (Scalar::Int(a), Scalar::Int(b)) => *a == *b,
        (Scalar::Text(a), Scalar::Text(b)) => is_same_text(a.as_str(), b.as_str()),
        (Scalar::Literal(d, a), Scalar::Literal(e, b)) => {
            d.index() == e.index() && a.index() == b.index()
        }
        (Scalar::Object(a), Scalar::Object(b)) => a.index() == b.index(),
        _ => false,
    }
}

/// Whether a value is one of these.
fn is_among(values: &[Scalar], value: &Scalar) -> bool
    ensures { result ≡ is_value_among values.now value.now }
{
    for other in values {
        if is_same(value, other) {
            return true;
        }
    }
    false
}

/// Whether some value stands twice, by comparing each with those behind it.
fn repeats_among_few(values: &[Scalar]) -> bool
    ensures { result ≡ repeats_value values.now }
{
    for place in 0..values.len() {
        if is_among(&values[place + 1..], &values[place]) {
            return true;
        }
    }
    false
}

/// Whether some value stands twice, by a set of those met so far.
fn repeats_among_many(alloc: Global, values: &[Scalar]) -> Result<bool, AllocError>
    ensures { IfOk result (λ b. b ≡ repeats_value values.now) }
{
    let mut seen = nothing_seen(alloc);
    for value in values {
        if !is_new(&mut seen, alloc, value)? {
            return Ok(true);
        }
    }
    Ok(false)
}

/// Up to so many values, comparing all pairs takes less time than a set, and no memory.
const FEW: usize = 16;

/// Whether some value stands twice.
pub(crate) fn repeats(alloc: Global, values: &[Scalar]) -> Result<bool, AllocError>
    ensures { IfOk result (λ b. b ≡ repeats_value values.now) }
{
    if values.len() <= FEW {
        return Ok(repeats_among_few(values));
    }
    repeats_among_many(alloc, values)
}
