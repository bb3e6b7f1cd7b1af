//! The turns of a fold, and those that decide its value.

ghost use Rattle.std.specs.Prelude.{◌≡◌, ◌∷◌, None, length, map, IfOk, OnOk};
ghost use Rattle.std.specs.List.{filter};
ghost use Rattle.ocl_core.specs.CoreView.{core_view};
ghost use Rattle.rule_values.specs.Value.{element_value};
ghost use Rattle.owned_values.specs.Meant.{meant, meant_element, meant_elements, IsElementThere, IsValueThere, AreElementsThere};
ghost use Rattle.ocl_semantics.specs.Meaning.{meaning};
ghost use Rattle.ocl_semantics.specs.Resolved.{IsResolved, AreThere};
ghost use Rattle.explain_why.specs.Turns.{fold_turn, turns_from, changes, is_missing, breaks, last_number, is_place_of, is_told, told_turns};

use imkl_population::Population;
use ocl_base::{OutOfMemory, push};
use ocl_core::Core;
use ocl_semantics::{Variables, evaluate};
use owned_values::{
    Element, Value, copy_of, copy_value, element_value, equality, is_false, is_invalid, is_null,
};
use std::alloc::Global;

/// How many turns are shown where none changes anything.
const MAX_TURNS: usize = 3;

/// A turn of a fold.
#[derive(Drop)]
pub(crate) struct Turn<'a> {
    /// Its number, from 0.
    pub(crate) number: usize,
    /// Its element.
    pub(crate) element: Element<'a>,
    /// What is accumulated before it.
    pub(crate) before: Value<'a>,
    /// And after it.
    pub(crate) after: Value<'a>,
}

/// What is accumulated is another value after a turn.
fn changes(turn: &Turn<'_>) -> bool
    ensures { result ≡ changes (fold_turn turn.now) }
{
    let same = equality(&turn.before, &turn.after);
    is_false(&same)
}

/// Whether a value is null or invalid.
fn is_missing(value: &Value<'_>) -> bool
    ensures { result ≡ is_missing (meant value.now) }
{
    is_null(value) || is_invalid(value)
}

/// What is accumulated is null or invalid after a turn, and wasn't before it.
fn breaks(turn: &Turn<'_>) -> bool
    ensures { result ≡ breaks (fold_turn turn.now) }
{
    !is_missing(&turn.before) && is_missing(&turn.after)
}

/// The number of the last turn that changes what is accumulated.
fn last_change(turns: &[Turn<'_>]) -> Option<usize>
    ensures { result ≡ last_number changes None (map fold_turn turns.now) }
{
    let mut last = None;
    for turn in turns {
        if changes(turn) {
            last = Some(turn.number);
        }
    }
    last
}

/// The number of the last turn after which what is accumulated is null or invalid, and wasn't before it.
fn last_break(turns: &[Turn<'_>]) -> Option<usize>
    ensures { result ≡ last_number breaks None (map fold_turn turns.now) }
{
    let mut last = None;
    for turn in turns {
        if breaks(turn) {
            last = Some(turn.number);
        }
    }
    last
}

/// Whether there is a number, and it is this one.
fn is_place_of(found: Option<usize>, number: usize) -> bool
    ensures { result ≡ is_place_of found number }
{
    match found {
        Some(found) => found == number,
        None => false,
    }
}

/// Whether a turn of so many is one of two, or the last.
fn is_told(change: Option<usize>, broken: Option<usize>, count: usize, turn: &Turn<'_>) -> bool
    ensures { result ≡ is_told change broken count (fold_turn turn.now) }
{
    is_place_of(change, turn.number)
        || is_place_of(broken, turn.number)
        || turn.number == count.saturating_sub(1)
}

/// A turn once more.
fn copy_turn<'a>(alloc: Global, turn: &Turn<'a>) -> Result<Turn<'a>, OutOfMemory>
    ensures { IfOk result (λ t. fold_turn t ≡ fold_turn turn.now) }
{
    Ok(Turn {
        number: turn.number,
        element: copy_of(&turn.element),
        before: copy_value(alloc, &turn.before)?,
        after: copy_value(alloc, &turn.after)?,
    })
}

/// Turns once more.
fn copy_turns<'a>(alloc: Global, turns: &[Turn<'a>]) -> Result<Vec<Turn<'a>>, OutOfMemory>
    ensures { IfOk result (λ v. map fold_turn v.items ≡ map fold_turn turns.now) }
{
    let mut copies = Vec::new(alloc);
    for turn in turns {
        push(&mut copies, copy_turn(alloc, turn)?)?;
    }
    Ok(copies)
}

/// Those of turns that are one of two, and the last.
fn kept_turns<'a>(
    alloc: Global,
    change: Option<usize>,
    broken: Option<usize>,
    turns: &[Turn<'a>],
) -> Result<Vec<Turn<'a>>, OutOfMemory>
    ensures { IfOk result (λ v. map fold_turn v.items ≡ filter
        (is_told change broken (length turns.now)) (map fold_turn turns.now)) }
{
    let mut kept = Vec::new(alloc);
    for turn in turns {
        if is_told(change, broken, turns.len(), turn) {
            push(&mut kept, copy_turn(alloc, turn)?)?;
        }
    }
    Ok(kept)
}

/// The turns that tell how a fold came to its value; the first ones, where nothing was changed.
#[tactic(auto, unfolding(crate::specs::Turns::told_turns))]
pub(crate) fn told_turns<'a>(
    alloc: Global,
    turns: &[Turn<'a>],
) -> Result<Vec<Turn<'a>>, OutOfMemory>
    ensures { IfOk result (λ v. map fold_turn v.items ≡ told_turns (map fold_turn turns.now)) }
{
    match (last_change(turns), last_break(turns)) {
        (None, None) => copy_turns(alloc, &turns[..turns.len().min(MAX_TURNS)]),
        (change, broken) => kept_turns(alloc, change, broken, turns),
    }
}

/// Computes what is accumulated after a turn.
fn value_after<'a>(
    alloc: Global,
    population: &'a Population<'_>,
    element: &Element<'a>,
    before: &Value<'a>,
    body: &'a Core,
    variables: &mut Variables<'a>,
) -> Result<Value<'a>, OutOfMemory>
    requires element { IsElementThere population.now.content (meant_element element.now) }
    requires before { IsValueThere population.now.content (meant before.now) }
    requires body { IsResolved population.now.content.model (core_view body.now) }
    requires there { AreThere population.now.content variables.old }
    ensures value { IfOk result (λ v. meant v ≡ meaning population.now.content (core_view body.now)
        (meant before.now ∷ element_value (meant_element element.now) ∷ variables.old)) }
    ensures there { IfOk result (λ v. IsValueThere population.now.content (meant v)) }
    ensures kept { OnOk result (variables.new ≡ variables.old) }
{
    variables.bind(element_value(element))?;
    variables.bind(copy_value(alloc, before)?)?;
    let after = evaluate(alloc, population, body, variables)?;
    variables.forget(2);
    Ok(after)
}

/// Computes the turns of a fold over elements.
pub(crate) fn turns_of<'a>(
    alloc: Global,
    population: &'a Population<'_>,
    elements: &[Element<'a>],
    start: Value<'a>,
    body: &'a Core,
    variables: &mut Variables<'a>,
) -> Result<Vec<Turn<'a>>, OutOfMemory>
    requires elements { AreElementsThere population.now.content (meant_elements elements.now) }
    requires start { IsValueThere population.now.content (meant start) }
    requires body { IsResolved population.now.content.model (core_view body.now) }
    requires there { AreThere population.now.content variables.old }
    ensures turns { IfOk result (λ v. map fold_turn v.items ≡ turns_from 0
        (λ e a. meaning population.now.content (core_view body.now)
        (a ∷ element_value e ∷ variables.old)) (meant start.entry) (meant_elements elements.now)) }
    ensures kept { OnOk result (variables.new ≡ variables.old) }
{
    let mut turns = Vec::new(alloc);
    let mut accumulated = start;
    for index in 0..elements.len() {
        let element = &elements[index];
        let after = value_after(alloc, population, element, &accumulated, body, variables)?;
        let turn = Turn {
            number: index,
            element: copy_of(element),
            before: accumulated,
            after: copy_value(alloc, &after)?,
        };
        push(&mut turns, turn)?;
        accumulated = after;
    }
    Ok(turns)
}
