//! Operations on truth values, and tests of any values.

ghost use Rattle.std.specs.Prelude.{◌≡◌, pos, List};
ghost use Rattle.rule_values.specs.Operations.{negation, conjunction, disjunction, exclusive_disjunction, implication, undefined_test, invalid_test, both_null};
ghost use Rattle.rule_slots.specs.Slots.{Lists as Indexed};
ghost use Rattle.rule_slots.specs.declared.slot.Slot.{Slot as Held};
ghost use Rattle.rule_slots.specs.Operands.{MakesOfOne, MakesOfTwo, is_truth_operand, is_any_operand, is_number, known_slot};

use crate::slot::{Slot, invalid_slot, truth_slot};

/// Whether it is true, in a place where truth values stand.
pub fn is_true(v: Slot) -> bool
    ensures { result ≡ is_number v (pos 1) }
{
    v.is_plain() && v.number == 1
}

/// Whether it is false, in a place where truth values stand.
pub fn is_false(v: Slot) -> bool
    ensures { result ≡ is_number v (pos 0) }
{
    v.is_plain() && v.number == 0
}

/// True where it is known to be true, false where it is known to be false, else invalid.
pub fn known_slot(is_so: bool, is_not: bool) -> Slot
    ensures { result ≡ known_slot is_so is_not }
{
    if is_so {
        truth_slot(true)
    } else if is_not {
        truth_slot(false)
    } else {
        invalid_slot()
    }
}

/// The negation of a truth value.
pub fn negation(v: Slot) -> Slot
    ensures { (l : Indexed) (pool : List Held) →
        MakesOfOne l pool is_truth_operand negation v result }
{
    known_slot(is_false(v), is_true(v))
}

/// False where one is false, whatever the other.
pub fn conjunction(v: Slot, w: Slot) -> Slot
    ensures { (l : Indexed) (pool : List Held) →
        MakesOfTwo l pool is_truth_operand is_truth_operand conjunction v w result }
{
    known_slot(is_true(v) && is_true(w), is_false(v) || is_false(w))
}

/// True where one is true, whatever the other.
pub fn disjunction(v: Slot, w: Slot) -> Slot
    ensures { (l : Indexed) (pool : List Held) →
        MakesOfTwo l pool is_truth_operand is_truth_operand disjunction v w result }
{
    known_slot(is_true(v) || is_true(w), is_false(v) && is_false(w))
}

/// Whether just one is true.
pub fn exclusive_disjunction(v: Slot, w: Slot) -> Slot
    ensures { (l : Indexed) (pool : List Held) →
        MakesOfTwo l pool is_truth_operand is_truth_operand exclusive_disjunction v w result }
{
    known_slot(
        (is_true(v) && is_false(w)) || (is_false(v) && is_true(w)),
        (is_true(v) && is_true(w)) || (is_false(v) && is_false(w)),
    )
}

/// True where the first is false or the second is true, whatever the other.
pub fn implication(v: Slot, w: Slot) -> Slot
    ensures { (l : Indexed) (pool : List Held) →
        MakesOfTwo l pool is_truth_operand is_truth_operand implication v w result }
{
    known_slot(is_false(v) || is_true(w), is_true(v) && is_false(w))
}

/// Whether it is null or invalid.
pub fn undefined_test(v: Slot) -> Slot
    ensures { (l : Indexed) (pool : List Held) →
        MakesOfOne l pool is_any_operand undefined_test v result }
{
    truth_slot(v.is_invalid() || v.is_null())
}

/// Whether it is invalid.
pub fn invalid_test(v: Slot) -> Slot
    ensures { (l : Indexed) (pool : List Held) →
        MakesOfOne l pool is_any_operand invalid_test v result }
{
    truth_slot(v.is_invalid())
}

/// Whether both are null; invalid where one is invalid.
pub fn both_null(v: Slot, w: Slot) -> Slot
    ensures { (l : Indexed) (pool : List Held) →
        MakesOfTwo l pool is_any_operand is_any_operand both_null v w result }
{
    if v.is_invalid() || w.is_invalid() {
        return invalid_slot();
    }
    truth_slot(v.is_null() && w.is_null())
}
