//! What instructions make of lengths, and what they are charged.

ghost use Rattle.std.specs.Prelude.{◌≡◌, ◌+◌, ◌-◌, ◌++◌, ◌∷◌, [], drop, length, OnOk};
ghost use Rattle.rule_code.specs.WellFormed.{InstrFits};
ghost use Rattle.rule_verify.specs.InstrKinds.{block_bound_count, bound_count};
ghost use Rattle.rule_cost.specs.Bounds as spec;
ghost use Rattle.rule_cost.specs.Limits.{SameCut};
ghost use Rattle.rule_cost.specs.CostWalk.{IsSizedCode, SameLengths, surroundings_of_code};

use crate::cut::Cut;
use crate::feature_lengths::named_length;
use crate::operands::{second_length, top_length};
use crate::sized::SizedCode;
use ocl_base::Stack;
use rule_code::{Instr, WrittenKind};
use rule_verify::{BlockInstr, block_of, bound_count};
use std::alloc::AllocError;

/// The length of what an instruction without a body gives.
pub(crate) fn length_given(
    code: &SizedCode<'_>,
    variables: &Stack<Cut>,
    operands: &Stack<Cut>,
    instr: Instr,
) -> Cut
    requires code { IsSizedCode code.now }
    requires fits { InstrFits (length code.now.accepted.now.unit.texts)
        code.now.accepted.now.unit.symbols instr }
    ensures { SameCut result (spec.length_given (surroundings_of_code code.now) code.now.sizes.now
        variables.now instr operands.now) }
{
    match instr {
        Instr::Get(number) => match variables.from_bottom(usize::from(number)) {
            Some(length) => length,
            None => Cut::new(0),
        },
        Instr::Attr(symbol) | Instr::All(symbol) => Cut::new(named_length(code, symbol)),
        Instr::AsColl(_, _) => Cut::new(1),
        Instr::AsSet(_) => top_length(operands),
        _ => Cut::new(0),
    }
}

/// The length of the variable that a block with one body binds first, by that of the operand that it works on.
fn bound_length(block: Option<BlockInstr>, source: Cut) -> Cut
    ensures { SameLengths (result ∷ []) (drop (block_bound_count block - 1)
        (spec.block_binds_lengths block source)) }
{
    match block {
        Some(BlockInstr::Let(_)) => source,
        Some(BlockInstr::ForAll(_) | BlockInstr::Exists(_) | BlockInstr::One(_)) => Cut::new(0),
        Some(BlockInstr::Select(_) | BlockInstr::Reject(_)) => Cut::new(0),
        Some(BlockInstr::Collect(_) | BlockInstr::CollectFlat(_)) => Cut::new(0),
        Some(BlockInstr::IsUnique(_, _) | BlockInstr::Fold(_, _)) => Cut::new(0),
        Some(BlockInstr::If(_, _, _)) | None => Cut::new(0),
    }
}

/// Binds the variables of a block with one body, by the length of the operand that it works on. A second one is a single
/// value.
pub(crate) fn bind(variables: &mut Stack<Cut>, instr: Instr, source: Cut) -> Result<(), AllocError>
    ensures bound { OnOk result (SameLengths variables.new
        (spec.lengths_bound_by instr source ++ variables.old)) }
    ensures kept { OnOk result (variables.old ≡ drop (bound_count instr) variables.new) }
{
    variables.push(bound_length(block_of(instr), source))?;
    if bound_count(instr) == 2 {
        variables.push(Cut::new(0))?;
    }
    Ok(())
}

/// The length of what a block with one body gives, by those of its operand and of what the body
/// ends with.
pub(crate) fn length_yielded(block: Option<BlockInstr>, source: Cut, ended: Cut) -> Cut
    ensures { SameCut result (spec.block_yields_length block source ended) }
{
    match block {
        Some(BlockInstr::Let(_)) => ended,
        Some(BlockInstr::ForAll(_) | BlockInstr::Exists(_) | BlockInstr::One(_)) => Cut::new(0),
        Some(BlockInstr::Select(_) | BlockInstr::Reject(_) | BlockInstr::Collect(_)) => source,
        Some(BlockInstr::CollectFlat(_)) => source.times(ended),
        Some(BlockInstr::IsUnique(_, _) | BlockInstr::Fold(_, _)) => Cut::new(0),
        Some(BlockInstr::If(_, _, _)) | None => Cut::new(0),
    }
}

/// What an instruction without a body is charged besides its step.
fn extra_charge(operands: &Stack<Cut>, instr: Instr) -> Cut
    ensures { SameCut result (spec.extra_charge instr operands.now) }
{
    let top = top_length(operands);
    match instr {
        Instr::Includes(_) | Instr::Count(_) => second_length(operands),
        Instr::IncAll(_) | Instr::ExcAll(_) => second_length(operands).times(top),
        Instr::Eq(WrittenKind::Collection(_, _)) => second_length(operands).times(top),
        Instr::Sum => top,
        Instr::AsSet(_) => top.times(top),
        _ => Cut::new(0),
    }
}

/// The charge of an instruction without a body.
pub(crate) fn plain_charge(operands: &Stack<Cut>, instr: Instr) -> Cut
    ensures { SameCut result (1 + spec.extra_charge instr operands.now) }
{
    Cut::new(1).plus(extra_charge(operands, instr))
}

/// What taking the value of an iteration's body is charged besides the step, by the value's length.
fn taking_charge(block: Option<BlockInstr>, ended: Cut) -> Cut
    ensures { SameCut result (spec.block_taking_charge block ended) }
{
    match block {
        Some(BlockInstr::CollectFlat(_)) => ended,
        Some(BlockInstr::ForAll(_) | BlockInstr::Exists(_) | BlockInstr::One(_)) => Cut::new(0),
        Some(BlockInstr::Select(_) | BlockInstr::Reject(_) | BlockInstr::Collect(_)) => Cut::new(0),
        Some(BlockInstr::IsUnique(_, _) | BlockInstr::Fold(_, _)) => Cut::new(0),
        Some(BlockInstr::Let(_) | BlockInstr::If(_, _, _)) | None => Cut::new(0),
    }
}

/// What the end of an iteration is charged besides its step, by the length of its source.
fn ending_charge(block: Option<BlockInstr>, source: Cut) -> Cut
    ensures { SameCut result (spec.block_ending_charge block source) }
{
    match block {
        Some(BlockInstr::IsUnique(_, _)) => source.times(source),
        Some(BlockInstr::ForAll(_) | BlockInstr::Exists(_) | BlockInstr::One(_)) => Cut::new(0),
        Some(BlockInstr::Select(_) | BlockInstr::Reject(_) | BlockInstr::Collect(_)) => Cut::new(0),
        Some(BlockInstr::CollectFlat(_) | BlockInstr::Fold(_, _)) => Cut::new(0),
        Some(BlockInstr::Let(_) | BlockInstr::If(_, _, _)) | None => Cut::new(0),
    }
}

/// The charges of a turn of an iteration, by those of its body and the length of what the body ends with.
pub(crate) fn turn_charges(block: Option<BlockInstr>, body: Cut, ended: Cut) -> Cut
    ensures { SameCut result (1 + body + spec.block_taking_charge block ended) }
{
    let made = Cut::new(1).plus(body);
    made.plus(taking_charge(block, ended))
}

/// The charges of an iteration, by the length of its source, the charges of its body and the length of what the body ends
/// with.
fn turns_charges(block: Option<BlockInstr>, source: Cut, body: Cut, ended: Cut) -> Cut
    ensures { SameCut result (spec.turns_charges source body
        (spec.block_taking_charge block ended) (spec.block_ending_charge block source)) }
{
    let turn = turn_charges(block, body, ended);
    let turns = Cut::new(2).plus(source.times(turn));
    turns.plus(ending_charge(block, source))
}

/// The charges of a block with one body, by the length of its operand, the charges of the body and
/// the length of what the body ends with.
pub(crate) fn block_charges(block: Option<BlockInstr>, source: Cut, body: Cut, ended: Cut) -> Cut
    ensures { SameCut result (spec.block_body_charges block source body
        (spec.block_taking_charge block ended) (spec.block_ending_charge block source)) }
{
    let turns = turns_charges(block, source, body, ended);
    match block {
        Some(BlockInstr::Let(_)) => Cut::new(2).plus(body),
        Some(BlockInstr::ForAll(_) | BlockInstr::Exists(_) | BlockInstr::One(_)) => turns,
        Some(BlockInstr::Select(_) | BlockInstr::Reject(_) | BlockInstr::Collect(_)) => turns,
        Some(BlockInstr::CollectFlat(_) | BlockInstr::IsUnique(_, _)) => turns,
        Some(BlockInstr::Fold(_, _)) => turns,
        Some(BlockInstr::If(_, _, _)) | None => turns,
    }
}

/// The charges of a block with two bodies, by theirs.
pub(crate) fn branch_charges(first: Cut, second: Cut) -> Cut
    ensures { SameCut result (spec.branch_charges first second) }
{
    Cut::new(1).plus(first.max(second))
}
