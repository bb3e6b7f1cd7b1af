//! What the next step of a machine is charged. Charges are cut at 2^128-1.

ghost use Rattle.std.specs.Prelude.{◌≡◌, ℕ, List, false, ◌+◌, ◌*◌, ◌-◌, ◌^◌, min};
ghost use Rattle.rule_cost.specs.Bounds as bound;
ghost use Rattle.rule_machine.specs.Machine.{Configuration, step};
ghost use Rattle.rule_machine.specs.Charges.{charge_of};
ghost use Rattle.rule_machine.specs.Shown.{setting_in, Is, HasNext, slot_length, slot_lengths, turn_charge_by, mark_charge_by, IsTask, LiesIn, IsAtFront};

use crate::piece::Piece;
use crate::stack::ReservedStack;
use crate::state::State;
use crate::task::Task;
use rule_code::{Instr, WrittenKind};
use rule_slots::Slot;
use rule_verify::{BlockInstr, block_of};

impl State {
    /// The charge of the next step. (Most instructions are charged their step alone, whatever their operands are.)
    #[inline(always)]
    pub(crate) fn charge(&self, task: Task<'_>) -> u128
        requires task { IsTask task }
        requires place { LiesIn task self.now }
        requires front { IsAtFront self.now }
        ensures { (c : Configuration) → Is task.entry self.now c → HasNext (step
            (setting_in task.entry) c) → result ≡ min (charge_of c) (2 ^ 128 - 1) }
    {
        if self.at < self.end {
            let instr = &task.code()[self.at];
            if !may_cost_more(*instr) {
                return 1;
            }
            return extra_charge(&self.operands, instr).saturating_add(1);
        }
        match self.pieces.top() {
            Some(mark) => mark_charge(mark, &self.operands),
            None => unreachable!(),
        }
    }

    /// The count after the next step, at most 2^64-1. (It is made up before the step, so that the step finds no charge of
    /// 128 bits to keep.)
    #[inline(always)]
    pub(crate) fn next_count(&self, task: Task<'_>) -> u64
        requires task { IsTask task }
        requires place { LiesIn task self.now }
        requires front { IsAtFront self.now }
        ensures { (charge : ℕ) × ((c : Configuration) → Is task.entry self.now c → HasNext (step
            (setting_in task.entry) c) → charge ≡ min (charge_of c) (2 ^ 128 - 1)) × (result ≡ min
            (self.now.count + charge) (2 ^ 64 - 1)) }
    {
        with_charge(self.count, self.charge(task))
    }
}

/// The count with a charge more, at most 2^64-1.
#[inline(always)]
pub(crate) fn with_charge(count: u64, charge: u128) -> u64
    ensures { result ≡ min (count + charge) (2 ^ 64 - 1) }
{
    match u64::try_from(charge) {
        Ok(charge) => count.saturating_add(charge),
        Err(_) => u64::MAX,
    }
}

/// Whether an instruction without a body may be charged more than its step.
#[inline(always)]
fn may_cost_more(instr: Instr) -> bool
    ensures { result ≡ false → (ls : List ℕ) → bound.extra_charge instr ls ≡ 0 }
{
    match instr {
        Instr::Includes(_) | Instr::Count(_) | Instr::IncAll(_) | Instr::ExcAll(_) => true,
        Instr::Eq(_) | Instr::Sum | Instr::AsSet(_) => true,
        _ => false,
    }
}

/// The charge of the step of a piece that is no sequence.
#[inline(always)]
fn mark_charge(mark: &Piece, operands: &ReservedStack<Slot>) -> u128
    ensures { result ≡ min (mark_charge_by mark.now (slot_lengths operands.now.0)) (2 ^ 128 - 1) }
{
    match *mark {
        Piece::Opened(turn) => turn_charge(turn.instr, turn.source.count, 0).saturating_add(1),
        Piece::Turning(turn) => {
            let taking = taking_charge(turn.instr, top_length(operands));
            taking
                .saturating_add(turn_charge(turn.instr, turn.source.count, turn.next))
                .saturating_add(1)
        }
        _ => 1,
    }
}

/// The length of a slot's collection, 0 of null and invalid.
#[inline(always)]
fn length_of(value: Slot) -> u64
    ensures { result ≡ slot_length value }
{
    if value.is_plain() {
        value.count as u64
    } else {
        0
    }
}

/// The length of the topmost operand, 0 where there is none.
fn top_length(operands: &ReservedStack<Slot>) -> u64
    ensures { result ≡ bound.top_length (slot_lengths operands.now.0) }
{
    match operands.from_top(0) {
        Some(value) => length_of(*value),
        None => 0,
    }
}

/// The length of the operand below the topmost one, 0 where there is none.
fn second_length(operands: &ReservedStack<Slot>) -> u64
    ensures { result ≡ bound.second_length (slot_lengths operands.now.0) }
{
    match operands.from_top(1) {
        Some(value) => length_of(*value),
        None => 0,
    }
}

/// The product of two lengths.
fn product(first: u64, second: u64) -> u128
    ensures { result ≡ min (first * second) (2 ^ 128 - 1) }
{
    u128::from(first).saturating_mul(u128::from(second))
}

/// What an instruction without a body is charged besides its step.
#[inline(never)]
fn extra_charge(operands: &ReservedStack<Slot>, instr: &Instr) -> u128
    ensures { result ≡ min (bound.extra_charge instr.now (slot_lengths operands.now.0)) (2 ^ 128 - 1) }
{
    let top = top_length(operands);
    match *instr {
        Instr::Includes(_) | Instr::Count(_) => u128::from(second_length(operands)),
        Instr::IncAll(_) | Instr::ExcAll(_) => product(second_length(operands), top),
        Instr::Eq(WrittenKind::Collection(_, _)) => product(second_length(operands), top),
        Instr::Sum => u128::from(top),
        Instr::AsSet(_) => product(top, top),
        _ => 0,
    }
}

/// What taking the value of a body is charged besides the step, by its length.
fn taking_charge(instr: Instr, length: u64) -> u128
    ensures { result ≡ bound.taking_charge instr length }
{
    match block_of(instr) {
        Some(BlockInstr::CollectFlat(_)) => u128::from(length),
        Some(BlockInstr::ForAll(_) | BlockInstr::Exists(_) | BlockInstr::One(_)) => 0,
        Some(BlockInstr::Select(_) | BlockInstr::Reject(_) | BlockInstr::Collect(_)) => 0,
        Some(BlockInstr::IsUnique(_, _) | BlockInstr::Fold(_, _)) => 0,
        Some(BlockInstr::Let(_) | BlockInstr::If(_, _, _)) | None => 0,
    }
}

/// What the next turn is charged besides its step, by the length of the source and the elements that were taken: with
/// none left the iteration ends.
fn turn_charge(instr: Instr, length: usize, taken: usize) -> u128
    ensures { result ≡ min (turn_charge_by instr length taken) (2 ^ 128 - 1) }
{
    if taken < length {
        return 0;
    }
    match block_of(instr) {
        Some(BlockInstr::IsUnique(_, _)) => product(length as u64, length as u64),
        Some(BlockInstr::ForAll(_) | BlockInstr::Exists(_) | BlockInstr::One(_)) => 0,
        Some(BlockInstr::Select(_) | BlockInstr::Reject(_)) => 0,
        Some(BlockInstr::Collect(_) | BlockInstr::CollectFlat(_)) => 0,
        Some(BlockInstr::Fold(_, _)) => 0,
        Some(BlockInstr::Let(_) | BlockInstr::If(_, _, _)) | None => 0,
    }
}
