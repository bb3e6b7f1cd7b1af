//! The results of iterations at their end, from what they kept and counted.

ghost use Rattle.std.specs.Prelude.{◌≡◌, ◌+◌, ◌-◌, ◌<◌, ◌^◌, ℕ, true, IsSome, if◌then◌else◌};
ghost use Rattle.rule_slots.specs.Slots.{invalid_slot};
ghost use Rattle.rule_machine.specs.StandFor.{gives_truths, all_decided, kept_part, slot_if, ending_slot, one_more_if, counts_after};

use crate::piece::{Counts, Turn};
use rule_code::Instr;
use rule_slots::{Slot, invalid_slot, is_false, is_true, known_slot, part_slot, truth_slot};
use rule_verify::{BlockInstr, block_of};

/// What an iteration gives at its end, by whether no element that it keeps stands there twice, and by what its body gave
/// last.
pub(crate) fn iteration_result(turn: Turn, distinct: bool, last: Slot) -> Slot
    requires { gives_truths turn.instr ≡ true → turn.trues + turn.falses < 2 ^ 64 }
    ensures { result ≡ ending_slot turn.instr turn distinct last }
{
    match block_of(turn.instr) {
        Some(BlockInstr::ForAll(_)) => known_slot(turn.trues == turn.next, 0 < turn.falses),
        Some(BlockInstr::Exists(_)) => known_slot(0 < turn.trues, turn.falses == turn.next),
        Some(BlockInstr::One(_)) => slot_if(all_decided(turn), truth_slot(turn.trues == 1)),
        Some(BlockInstr::Select(_) | BlockInstr::Reject(_)) => {
            slot_if(all_decided(turn), kept_part(turn))
        }
        Some(BlockInstr::Collect(_) | BlockInstr::CollectFlat(_)) => {
            slot_if(turn.invalids == 0, kept_part(turn))
        }
        Some(BlockInstr::IsUnique(_, _)) => slot_if(turn.invalids == 0, truth_slot(distinct)),
        Some(BlockInstr::Fold(_, _)) => last,
        Some(BlockInstr::Let(_) | BlockInstr::If(_, _, _)) | None => invalid_slot(),
    }
}

/// Whether each body was true or false.
fn all_decided(turn: Turn) -> bool
    requires { turn.trues + turn.falses < 2 ^ 64 }
    ensures { result ≡ all_decided turn }
{
    turn.trues + turn.falses == turn.next
}

/// What an iteration keeps, as a part of the pool.
pub(crate) fn kept_part(turn: Turn) -> Slot
    ensures { result ≡ kept_part turn }
{
    part_slot(2, turn.opened, turn.kept)
}

/// A slot, or invalid.
fn slot_if(known: bool, slot: Slot) -> Slot
    ensures { result ≡ slot_if known slot }
{
    if known { slot } else { invalid_slot() }
}

/// Whether the body of an iteration gives truth values.
fn gives_truths(instr: Instr) -> bool
    ensures { result ≡ gives_truths instr }
{
    match block_of(instr) {
        Some(BlockInstr::ForAll(_) | BlockInstr::Exists(_) | BlockInstr::One(_)) => true,
        Some(BlockInstr::Select(_) | BlockInstr::Reject(_)) => true,
        Some(BlockInstr::Collect(_) | BlockInstr::CollectFlat(_)) => false,
        Some(BlockInstr::IsUnique(_, _) | BlockInstr::Fold(_, _)) => false,
        Some(BlockInstr::Let(_) | BlockInstr::If(_, _, _)) | None => false,
    }
}

/// One more, if a test passes.
fn one_more_if(passes: bool, n: usize) -> usize
    requires { passes ≡ true → n < 2 ^ 64 - 1 }
    ensures { result ≡ one_more_if passes n }
{
    if passes { n + 1 } else { n }
}

/// What an iteration keeps and has counted after a turn, which adds so many elements to what it keeps.
#[inline(always)]
pub(crate) fn counts_after(turn: &Turn, more: usize, value: Slot) -> Counts
    requires kept { turn.now.kept + more < 2 ^ 64 }
    requires trues { gives_truths turn.now.instr ≡ true → turn.now.trues < 2 ^ 64 - 1 }
    requires falses { gives_truths turn.now.instr ≡ true → turn.now.falses < 2 ^ 64 - 1 }
    requires invalids { turn.now.invalids < 2 ^ 64 - 1 }
    ensures { result ≡ counts_after turn.now more value }
{
    let is_test = gives_truths(turn.instr);
    let is_true = is_test && is_true(value);
    let is_false = is_test && is_false(value);
    Counts {
        kept: turn.kept + more,
        trues: one_more_if(is_true, turn.trues),
        falses: one_more_if(is_false, turn.falses),
        invalids: one_more_if(value.is_invalid(), turn.invalids),
    }
}
