//! The verifier's walk over the code of a rule.

ghost use Rattle.std.specs.Prelude.{◌≡◌, ◌+◌, ◌<◌, ◌≤◌, [], List, length, slice_get, Some, Ok, OnOk, IfOk};
ghost use Rattle.ocl_base.specs.Steps.{Gives};
ghost use Rattle.ocl_kinds.specs.declared.kind.Kind.{Kind};
ghost use Rattle.ocl_kinds.specs.Kinds.{IsKindOf};
ghost use Rattle.rule_verify.specs.CodeTree.{shape_of};
ghost use Rattle.rule_verify.specs.CodeDepths as depth;
ghost use Rattle.rule_verify.specs.Faults.{verify_fault};
ghost use Rattle.rule_verify.specs.InstrKinds.{ends_with};
ghost use Rattle.rule_verify.specs.KindRules as spec;
ghost use Rattle.rule_verify.specs.Known.{AreKnownKinds};
ghost use Rattle.rule_verify.specs.Patterns.{IsPatternOf};
ghost use Rattle.rule_verify.specs.Walk as walks;
ghost use Rattle.rule_verify.specs.Walk.{surroundings_of, IsRuleCode, IsPlace, kinds_from, depth_at, Goes, IsBlock, Opens, body_ends, Walked};

use crate::blocks::{bind, block_operand, ends_with, shape_of, unbind, yields};
use crate::code::RuleCode;
use crate::depths::Depths;
use crate::fault::{VerifyFault, VerifyFlaw};
use crate::limits::{MAX_BLOCKS, MAX_OPERANDS};
use crate::pattern::{Pattern, matches};
use crate::place::{Place, Walk};
use crate::results::result_kind;
use crate::shape::Shape;
use crate::taking::{put, take, topmost};
use crate::watch::{Reached, Watch};
use ocl_base::Stack;
use ocl_kinds::{Kind, elements_kind};
use rule_code::Instr;
use std::alloc::Global;

/// The greater of each.
fn deeper(depths: Depths, others: Depths) -> Depths
    ensures { result ≡ depth.deeper depths others }
{
    Depths {
        operands: depths.operands.max(others.operands),
        variables: depths.variables.max(others.variables),
        blocks: depths.blocks.max(others.blocks),
    }
}

/// Notes how deep a place is, and has it watched.
fn reach<W: Watch>(walk: &mut Walk, watch: &mut W, place: Place, operands: &Stack<Kind>)
    requires { place.covered + length operands.now ≤ MAX_OPERANDS }
    ensures variables { walk.new.variables ≡ walk.old.variables }
    ensures depths { walk.new.depths ≡ depth.deeper walk.old.depths
        (depth_at walk.old.variables place operands.now) }
{
    let here = Depths {
        operands: place.covered + operands.len(),
        variables: walk.variables.len(),
        blocks: place.open_blocks,
    };
    walk.depths = deeper(walk.depths, here);
    watch.reach(Reached {
        at: place.at,
        end: place.end,
        operands,
        variables: &walk.variables,
    });
}

/// What the operands at the end of a body or a rule come to: the one value that it ends with.
pub(crate) fn ended_with(
    rule: &RuleCode<'_, '_>,
    wanted: &Pattern,
    at: usize,
    operands: &Stack<Kind>,
) -> Result<Kind, VerifyFault>
    requires operands { AreKnownKinds rule.now.resolved.now.model operands.now }
    requires wanted { IsPatternOf rule.now.resolved.now.model wanted.now }
    ensures ends { Gives verify_fault (λ k. k) result
        (spec.ended_with (surroundings_of rule.now) wanted.now at operands.now) }
    ensures known { IfOk result (IsKindOf rule.now.resolved.now.model) }
{
    let kind = topmost(operands);
    if operands.len() != 1 {
        return Err(rule.fault(VerifyFlaw::LeftOver, at));
    }
    if matches(rule.resolved.model(), wanted, &kind) {
        Ok(kind)
    } else {
        Err(rule.fault(VerifyFlaw::LeftOver, at))
    }
}

/// An instruction without a body.
fn plain<W: Watch>(
    rule: &RuleCode<'_, '_>,
    walk: &mut Walk,
    watch: &mut W,
    place: Place,
    operands: &mut Stack<Kind>,
    instr: Instr,
) -> Result<usize, VerifyFault>
    requires rule { IsRuleCode rule.now }
    requires place { IsPlace rule.now walk.old.variables place operands.old }
    requires inside { place.at < place.end }
    requires here { slice_get rule.now.code.now place.at ≡ Some instr }
    requires shape { shape_of instr ≡ Shape.Single }
    ensures { Goes rule.now walk.old.variables walk.old.depths place operands.old result
        walk.new.variables walk.new.depths operands.new }
{
    reach(walk, watch, place, operands);
    let operand = topmost(operands);
    take(rule, &walk.variables, operands, instr, place.at)?;
    if operands.len() >= MAX_OPERANDS - place.covered {
        return Err(rule.fault(VerifyFlaw::StackLimit, place.at));
    }
    put(
        operands,
        result_kind(rule, &walk.variables, instr, &operand),
    )?;
    Ok(place.at + 1)
}

/// Opens a block whose bodies have `length` instructions: takes its operand.
fn open_block<W: Watch>(
    rule: &RuleCode<'_, '_>,
    walk: &mut Walk,
    watch: &mut W,
    place: Place,
    operands: &mut Stack<Kind>,
    instr: Instr,
    length: usize,
) -> Result<Kind, VerifyFault>
    requires place { IsPlace rule.now walk.old.variables place operands.old }
    requires inside { place.at < place.end }
    requires here { slice_get rule.now.code.now place.at ≡ Some instr }
    requires shape { IsBlock (shape_of instr) length }
    ensures { Opens rule.now walk.old.variables walk.old.depths place operands.old instr length
        result walk.new.variables walk.new.depths operands.new }
{
    reach(walk, watch, place, operands);
    let operand = block_operand(instr, operands);
    take(rule, &walk.variables, operands, instr, place.at)?;
    if length >= place.end - place.at {
        return Err(rule.fault(VerifyFlaw::BadNesting, place.at));
    }
    if place.open_blocks >= MAX_BLOCKS {
        return Err(rule.fault(VerifyFlaw::NestLimit, place.at));
    }
    Ok(operand)
}

/// A sequence of instructions inside a block that leaves operands below it.
fn inside(place: Place, left: &Stack<Kind>, at: usize, end: usize) -> Place
    requires room { place.covered + length left.now ≤ MAX_OPERANDS }
    requires nested { place.open_blocks < MAX_BLOCKS }
    ensures { result ≡ walks.place_inside place left.now at end }
{
    Place {
        at,
        end,
        covered: place.covered + left.len(),
        open_blocks: place.open_blocks + 1,
    }
}

/// The operands at the end of the sequence that begins at a place, with none before it.
#[cycle(walk)]
pub(crate) fn sequence<W: Watch>(
    alloc: Global,
    rule: &RuleCode<'_, '_>,
    walk: &mut Walk,
    watch: &mut W,
    place: Place,
) -> Result<Stack<Kind>, VerifyFault>
    requires rule { IsRuleCode rule.now }
    requires place { IsPlace rule.now walk.old.variables place [] }
    ensures gives { Gives verify_fault (λ ks. ks) result
        (kinds_from rule.now walk.old.variables place []) }
    ensures walked { OnOk result (Walked rule.now walk.old.variables walk.old.depths place
        walk.new.variables walk.new.depths) }
    ensures known { IfOk result (AreKnownKinds rule.now.resolved.now.model) }
{
    let mut operands = Stack::new(alloc);
    let mut at = place.at;
    'instructions: while at < place.end {
        at = step(
            alloc,
            rule,
            walk,
            watch,
            Place { at, ..place },
            &mut operands,
        )?;
    }
    reach(walk, watch, Place { at, ..place }, &operands);
    Ok(operands)
}

/// An instruction with its bodies: the index after them.
#[cycle(walk)]
fn step<W: Watch>(
    alloc: Global,
    rule: &RuleCode<'_, '_>,
    walk: &mut Walk,
    watch: &mut W,
    place: Place,
    operands: &mut Stack<Kind>,
) -> Result<usize, VerifyFault>
    requires rule { IsRuleCode rule.now }
    requires place { IsPlace rule.now walk.old.variables place operands.old }
    requires inside { place.at < place.end }
    ensures { Goes rule.now walk.old.variables walk.old.depths place operands.old result
        walk.new.variables walk.new.depths operands.new }
{
    let instr = rule.code[place.at];
    match shape_of(instr) {
        Shape::Single => plain(rule, walk, watch, place, operands, instr),
        Shape::OneBody(length) => block(alloc, rule, walk, watch, place, operands, instr, length),
        Shape::TwoBodies(first, second) => {
            branches(
                alloc,
                rule,
                walk,
                watch,
                place,
                operands,
                instr,
                (first, second),
            )
        }
    }
}

/// A body of a block at an index: what it ends with.
#[cycle(walk)]
fn body<W: Watch>(
    alloc: Global,
    rule: &RuleCode<'_, '_>,
    walk: &mut Walk,
    watch: &mut W,
    place: Place,
    instr: Instr,
    at: usize,
) -> Result<Kind, VerifyFault>
    requires rule { IsRuleCode rule.now }
    requires place { IsPlace rule.now walk.old.variables place [] }
    ensures gives { Gives verify_fault (λ k. k) result
        (body_ends rule.now walk.old.variables place instr at) }
    ensures walked { OnOk result (Walked rule.now walk.old.variables walk.old.depths place
        walk.new.variables walk.new.depths) }
    ensures known { IfOk result (IsKindOf rule.now.resolved.now.model) }
{
    let operands = sequence(alloc, rule, walk, watch, place)?;
    ended_with(rule, &ends_with(rule, instr), at, &operands)
}

/// A block with one body of `length` instructions, which has more variables.
#[cycle(walk)]
fn block<W: Watch>(
    alloc: Global,
    rule: &RuleCode<'_, '_>,
    walk: &mut Walk,
    watch: &mut W,
    place: Place,
    operands: &mut Stack<Kind>,
    instr: Instr,
    length: usize,
) -> Result<usize, VerifyFault>
    requires rule { IsRuleCode rule.now }
    requires place { IsPlace rule.now walk.old.variables place operands.old }
    requires inside { place.at < place.end }
    requires here { slice_get rule.now.code.now place.at ≡ Some instr }
    requires shape { shape_of instr ≡ Shape.OneBody length }
    ensures { Goes rule.now walk.old.variables walk.old.depths place operands.old result
        walk.new.variables walk.new.depths operands.new }
{
    let operand = open_block(rule, walk, watch, place, operands, instr, length)?;
    let _element = elements_kind(&operand);
    bind(rule, &mut walk.variables, instr, &operand)?;
    let end = place.at + 1 + length;
    let inner = inside(place, operands, place.at + 1, end);
    let ended = body(alloc, rule, walk, watch, inner, instr, place.at)?;
    unbind(&mut walk.variables, instr);
    put(operands, yields(rule, instr, &operand, &ended))?;
    Ok(end)
}

/// A block with two bodies, of `lengths` instructions.
#[cycle(walk)]
fn branches<W: Watch>(
    alloc: Global,
    rule: &RuleCode<'_, '_>,
    walk: &mut Walk,
    watch: &mut W,
    place: Place,
    operands: &mut Stack<Kind>,
    instr: Instr,
    lengths: (usize, usize),
) -> Result<usize, VerifyFault>
    requires rule { IsRuleCode rule.now }
    requires place { IsPlace rule.now walk.old.variables place operands.old }
    requires inside { place.at < place.end }
    requires here { slice_get rule.now.code.now place.at ≡ Some instr }
    requires shape { shape_of instr ≡ Shape.TwoBodies lengths.0 lengths.1 }
    ensures { Goes rule.now walk.old.variables walk.old.depths place operands.old result
        walk.new.variables walk.new.depths operands.new }
{
    let Some(length) = lengths.0.checked_add(lengths.1) else {
        unreachable!()
    };
    let operand = open_block(rule, walk, watch, place, operands, instr, length)?;
    let _element = elements_kind(&operand);
    let middle = place.at + 1 + lengths.0;
    let end = middle + lengths.1;
    let first = inside(place, operands, place.at + 1, middle);
    let ended = body(alloc, rule, walk, watch, first, instr, place.at)?;
    let second = inside(place, operands, middle, end);
    body(alloc, rule, walk, watch, second, instr, place.at)?;
    put(operands, yields(rule, instr, &operand, &ended))?;
    Ok(end)
}
