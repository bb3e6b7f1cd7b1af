//! The walk over the code of a rule, each instruction once. Recursion goes into bodies alone, so it is as deep as the blocks
//! that are open at once.

ghost use Rattle.std.specs.Prelude.{◌≡◌, ◌+◌, ◌<◌, ◌≤◌, map, slice_get, Some, IsSome, IfOk};
ghost use Rattle.ocl_core.specs.CoreView.{core_view};
ghost use Rattle.rule_verify.specs.CodeTree.{shape_of};
ghost use Rattle.rule_trees.specs.TreeWalk.{CodeFits, PlaceFits, LeavesTrees, trees_between, core_between};

use crate::blocks::{close_block, close_branches, sole};
use crate::code::{Place, RuleCode};
use crate::instructions::plain;
use ocl_base::Stack;
use ocl_core::Core;
use rule_code::Instr;
use rule_verify::{Shape, shape_of};
use std::alloc::{AllocError, Global};

/// The tree of the sequence that begins at a place, with no tree before it.
#[cycle(walk)]
pub(crate) fn sequence(alloc: Global, code: &RuleCode<'_>, place: Place) -> Result<Core, AllocError>
    requires fits { CodeFits code.now }
    requires place { PlaceFits code.now place }
    requires there { IsSome (core_between code.now place.at place.end) }
    ensures { IfOk result (λ core. core_between code.now place.at place.end
        ≡ Some (core_view core)) }
{
    let mut trees = Stack::new(alloc);
    let mut at = place.at;
    'instructions: while at < place.end {
        let here = Place { at, ..place };
        at = step(alloc, code, here, &mut trees)?;
    }
    Ok(sole(trees))
}

/// An instruction with its bodies: the index past it. In accepted code every body ends within its sequence.
#[cycle(walk)]
fn step(
    alloc: Global,
    code: &RuleCode<'_>,
    place: Place,
    trees: &mut Stack<Core>,
) -> Result<usize, AllocError>
    requires fits { CodeFits code.now }
    requires place { PlaceFits code.now place }
    requires inside { place.at < place.end }
    requires there { IsSome (trees_between code.now place.at place.end (map core_view trees.old)) }
    ensures { IfOk result (λ next. LeavesTrees code.now place (map core_view trees.old) next
        (map core_view trees.new)) }
{
    let instr = code.code[place.at];
    let left = place.end - place.at - 1;
    match shape_of(instr) {
        Shape::Single => {
            plain(alloc, code, instr, trees)?;
            Ok(place.at + 1)
        }
        Shape::OneBody(length) if length <= left => {
            block(alloc, code, place, instr, length, trees)
        }
        Shape::TwoBodies(first, second) if first <= left && second <= left - first => {
            branches(alloc, code, place, instr, (first, second), trees)
        }
        _ => unreachable!(),
    }
}

/// A block with one body of `length` instructions.
#[cycle(walk)]
fn block(
    alloc: Global,
    code: &RuleCode<'_>,
    place: Place,
    instr: Instr,
    length: usize,
    trees: &mut Stack<Core>,
) -> Result<usize, AllocError>
    requires fits { CodeFits code.now }
    requires place { PlaceFits code.now place }
    requires inside { place.at < place.end }
    requires here { slice_get code.now.code.now place.at ≡ Some instr }
    requires shape { shape_of instr ≡ Shape.OneBody length }
    requires nests { place.at + 1 + length ≤ place.end }
    requires there { IsSome (trees_between code.now place.at place.end (map core_view trees.old)) }
    ensures { IfOk result (λ next. LeavesTrees code.now place (map core_view trees.old) next
        (map core_view trees.new)) }
{
    let at = place.at + 1;
    let end = at + length;
    let body = sequence(alloc, code, Place { at, end })?;
    close_block(alloc, code, instr, body, trees)?;
    Ok(end)
}

/// A block with two bodies, of `lengths` instructions.
#[cycle(walk)]
fn branches(
    alloc: Global,
    code: &RuleCode<'_>,
    place: Place,
    instr: Instr,
    lengths: (usize, usize),
    trees: &mut Stack<Core>,
) -> Result<usize, AllocError>
    requires fits { CodeFits code.now }
    requires place { PlaceFits code.now place }
    requires inside { place.at < place.end }
    requires here { slice_get code.now.code.now place.at ≡ Some instr }
    requires shape { shape_of instr ≡ Shape.TwoBodies lengths.0 lengths.1 }
    requires nests { place.at + 1 + lengths.0 + lengths.1 ≤ place.end }
    requires there { IsSome (trees_between code.now place.at place.end (map core_view trees.old)) }
    ensures { IfOk result (λ next. LeavesTrees code.now place (map core_view trees.old) next
        (map core_view trees.new)) }
{
    let at = place.at + 1;
    let middle = at + lengths.0;
    let end = middle + lengths.1;
    let first = sequence(alloc, code, Place { at, end: middle })?;
    let second = sequence(alloc, code, Place { at: middle, end })?;
    close_branches(alloc, code, instr, first, second, trees)?;
    Ok(end)
}
