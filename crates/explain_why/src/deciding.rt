//! Which elements decide the result of an iteration, and how many of them are shown.

ghost use Rattle.std.specs.Prelude.{◌≡◌, ◌++◌, length, map, IfOk, OnOk};
ghost use Rattle.std.specs.List.{list_any};
ghost use Rattle.rule_values.specs.Endings.{kept_by};
ghost use Rattle.owned_values.specs.Meant.{meant, meant_element, meant_elements};
ghost use Rattle.explain_why.specs.Explanation.{deciding_of, decides, batch_of, deciding_batch, beside_batch, where_any, unless_undecided, repeated_batch, deciding, no_batch, beside, kept_element};

use crate::values::{MAX_BESIDE, MAX_SHOWN};
use ocl_base::{OutOfMemory, push};
use ocl_core::Iteration;
use owned_values::{Element, Value, copy_of, equality, is_false, is_invalid, is_null, is_true};
use std::alloc::Global;

/// Bodies of an iteration.
#[derive(Clone, Copy)]
pub(crate) enum Deciding<'b, 'a> {
    /// Those that are true.
    True,
    /// Those that are false.
    False,
    /// Those that are neither.
    Undecided,
    /// Those that are null.
    Absent,
    /// Those that are not null.
    Present,
    /// Those that are invalid.
    Invalid,
    /// Those that are equal to a value.
    Equal(&'b Value<'a>),
    /// All.
    All,
    /// None.
    Nothing,
}

impl Deciding<'_, '_> {
    /// Whether a body is one of those.
    fn decides(self, body: &Value<'_>) -> bool
        ensures { result ≡ decides (deciding_of self.entry) (meant body.now) }
    {
        match self {
            Deciding::True => is_true(body),
            Deciding::False => is_false(body),
            Deciding::Undecided => !(is_true(body) || is_false(body)),
            Deciding::Absent => is_null(body),
            Deciding::Present => !is_null(body),
            Deciding::Invalid => is_invalid(body),
            Deciding::Equal(value) => {
                let same = equality(value, body);
                is_true(&same)
            }
            Deciding::All => true,
            Deciding::Nothing => false,
        }
    }

    /// Whether one of the bodies is one of those.
    fn is_any(self, bodies: &[Value<'_>]) -> bool
        ensures { result ≡ list_any (decides (deciding_of self.entry)) (map meant bodies.now) }
    {
        for body in bodies {
            if self.decides(body) {
                return true;
            }
        }
        false
    }
}

/// Elements of which some are shown: those whose bodies are so, and at most so many.
#[derive(Clone, Copy)]
pub(crate) struct Batch<'b, 'a> {
    /// Which they are.
    pub(crate) which: Deciding<'b, 'a>,
    /// The greatest number of them that is shown.
    pub(crate) most: usize,
}

/// Those, as many as are shown of elements that decide.
fn deciding_batch<'b, 'a>(which: Deciding<'b, 'a>) -> Batch<'b, 'a>
    ensures { batch_of result ≡ deciding_batch (deciding_of which.entry) }
{
    Batch {
        which,
        most: MAX_SHOWN,
    }
}

/// Those, as many as are shown of elements of which none stands out.
fn beside_batch<'b, 'a>(which: Deciding<'b, 'a>) -> Batch<'b, 'a>
    ensures { batch_of result ≡ beside_batch (deciding_of which.entry) }
{
    Batch {
        which,
        most: MAX_BESIDE,
    }
}

/// No elements.
fn no_batch<'b, 'a>() -> Batch<'b, 'a>
    ensures { batch_of result ≡ no_batch }
{
    Batch {
        which: Deciding::Nothing,
        most: 0,
    }
}

/// One batch where one of the bodies is one of those, else another.
fn where_any<'b, 'a>(
    those: Deciding<'_, '_>,
    batch: Batch<'b, 'a>,
    other: Batch<'b, 'a>,
    bodies: &[Value<'_>],
) -> Batch<'b, 'a>
    ensures { batch_of result ≡
        where_any (deciding_of those.entry) (batch_of batch.entry) (batch_of other.entry) (map meant bodies.now) }
{
    if those.is_any(bodies) { batch } else { other }
}

/// The elements whose bodies are undecided where there are some, else another batch.
fn unless_undecided<'b, 'a>(other: Batch<'b, 'a>, bodies: &[Value<'_>]) -> Batch<'b, 'a>
    ensures { batch_of result ≡ unless_undecided (batch_of other.entry) (map meant bodies.now) }
{
    let undecided = deciding_batch(Deciding::Undecided);
    where_any(Deciding::Undecided, undecided, other, bodies)
}

/// The elements whose bodies are equal to the first body that a later one is equal to, else some of all.
fn repeated_batch<'b, 'a>(bodies: &'b [Value<'a>]) -> Batch<'b, 'a>
    ensures { batch_of result ≡ repeated_batch (map meant bodies.now) }
{
    for index in 0..bodies.len() {
        let equal = Deciding::Equal(&bodies[index]);
        if equal.is_any(&bodies[index + 1..]) {
            return deciding_batch(equal);
        }
    }
    beside_batch(Deciding::All)
}

/// The first batch that is shown of an iteration: the elements that decide, else some of all.
pub(crate) fn batch_that_decides<'b, 'a>(
    iteration: &Iteration,
    bodies: &'b [Value<'a>],
) -> Batch<'b, 'a>
    ensures { batch_of result ≡ deciding iteration.now (map meant bodies.now) }
{
    let some = beside_batch(Deciding::All);
    let invalid = deciding_batch(Deciding::Invalid);
    match iteration {
        Iteration::ForAll => {
            let other = unless_undecided(some, bodies);
            let those = deciding_batch(Deciding::False);
            where_any(Deciding::False, those, other, bodies)
        }
        Iteration::Exists => {
            let other = unless_undecided(some, bodies);
            let first = Batch {
                which: Deciding::True,
                most: 1,
            };
            where_any(Deciding::True, first, other, bodies)
        }
        Iteration::One => {
            let those = deciding_batch(Deciding::True);
            let other = where_any(Deciding::True, those, some, bodies);
            unless_undecided(other, bodies)
        }
        Iteration::Select => unless_undecided(deciding_batch(Deciding::True), bodies),
        Iteration::Reject => unless_undecided(deciding_batch(Deciding::False), bodies),
        Iteration::Collect => {
            let all = deciding_batch(Deciding::All);
            let absent = deciding_batch(Deciding::Absent);
            let other = where_any(Deciding::Absent, absent, all, bodies);
            where_any(Deciding::Invalid, invalid, other, bodies)
        }
        Iteration::CollectFlat => {
            let all = deciding_batch(Deciding::All);
            where_any(Deciding::Invalid, invalid, all, bodies)
        }
        Iteration::IsUnique(_) => {
            let repeated = repeated_batch(bodies);
            where_any(Deciding::Invalid, invalid, repeated, bodies)
        }
    }
}

/// The second batch that is shown of an iteration: of `select` and `reject` the elements that aren't kept, of `collect` those
/// that aren't null beside those that are.
pub(crate) fn batch_beside<'b, 'a>(iteration: &Iteration, bodies: &[Value<'_>]) -> Batch<'b, 'a>
    ensures { batch_of result ≡ beside iteration.now (map meant bodies.now) }
{
    match iteration {
        Iteration::Select => {
            let others = beside_batch(Deciding::False);
            where_any(Deciding::Undecided, no_batch(), others, bodies)
        }
        Iteration::Reject => {
            let others = beside_batch(Deciding::True);
            where_any(Deciding::Undecided, no_batch(), others, bodies)
        }
        Iteration::Collect => {
            let others = beside_batch(Deciding::Present);
            let beside = where_any(Deciding::Absent, others, no_batch(), bodies);
            where_any(Deciding::Invalid, no_batch(), beside, bodies)
        }
        _ => no_batch(),
    }
}

/// Puts a copy of an element at a list's end, if it is to be kept.
pub(crate) fn keep_if<'a>(
    kept: &mut Vec<Element<'a>>,
    keep: bool,
    element: &Element<'a>,
) -> Result<(), OutOfMemory>
    ensures { OnOk result (meant_elements kept.new.items ≡ meant_elements kept.old.items ++
        kept_element keep (meant_element element.now)) }
{
    if keep {
        push(kept, copy_of(element))?;
    }
    Ok(())
}

/// The elements whose bodies are those.
pub(crate) fn deciding_elements<'a>(
    alloc: Global,
    deciding: Deciding<'_, '_>,
    elements: &[Element<'a>],
    bodies: &[Value<'a>],
) -> Result<Vec<Element<'a>>, OutOfMemory>
    requires { length bodies.now ≡ length elements.now }
    ensures { IfOk result (λ v. meant_elements v.items ≡ kept_by (decides (deciding_of deciding.entry))
        (meant_elements elements.now) (map meant bodies.now)) }
{
    let mut kept = Vec::new(alloc);
    for index in 0..elements.len() {
        let keep = deciding.decides(&bodies[index]);
        keep_if(&mut kept, keep, &elements[index])?;
    }
    Ok(kept)
}
