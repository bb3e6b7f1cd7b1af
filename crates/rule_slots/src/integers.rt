//! Operations on whole numbers: what passes their range is invalid.

ghost use Rattle.std.specs.Prelude.{◌≡◌, ◌+ℤ◌, ◌-ℤ◌, ◌*ℤ◌, neg_ℤ, int_lt, int_le, int_div, pos, List, if◌then◌else◌};
ghost use Rattle.std.specs.Int.{int_min, int_max};
ghost use Rattle.std.specs.Ordering.{int_eq};
ghost use Rattle.rule_values.specs.Operations.{addition, subtraction, multiplication, division, remainder, lesser, greater, negative, absolute, less_than, at_most};
ghost use Rattle.rule_slots.specs.Slots.{Lists as Indexed, invalid_slot, truth_slot};
ghost use Rattle.rule_slots.specs.declared.slot.Slot.{Slot as Held};
ghost use Rattle.rule_slots.specs.Operands.{MakesOfOne, MakesOfTwo, is_number_operand, if_plain, if_both_plain, integer_slot, checked_slot};

use crate::slot::{Slot, invalid_slot, number_slot, truth_slot};

/// A result, invalid where the operand is null or invalid.
pub(crate) fn if_plain(v: Slot, made: Slot) -> Slot
    ensures { result ≡ if_plain v made }
{
    if v.is_plain() { made } else { invalid_slot() }
}

/// A result, invalid where an operand is null or invalid.
pub(crate) fn if_both_plain(v: Slot, w: Slot, made: Slot) -> Slot
    ensures { result ≡ if_both_plain v w made }
{
    if v.is_plain() && w.is_plain() {
        made
    } else {
        invalid_slot()
    }
}

/// The number that was computed, or invalid.
fn number_or_invalid(n: Option<i64>) -> Slot
    ensures { result ≡ checked_slot n }
{
    match n {
        Some(n) => number_slot(n),
        None => invalid_slot(),
    }
}

fn sum(v: Slot, w: Slot) -> Slot
    ensures { result ≡ integer_slot (v.number +ℤ w.number) }
{
    number_or_invalid(v.number.checked_add(w.number))
}

fn difference(v: Slot, w: Slot) -> Slot
    ensures { result ≡ integer_slot (v.number -ℤ w.number) }
{
    number_or_invalid(v.number.checked_sub(w.number))
}

fn product(v: Slot, w: Slot) -> Slot
    ensures { result ≡ integer_slot (v.number *ℤ w.number) }
{
    number_or_invalid(v.number.checked_mul(w.number))
}

/// Towards zero; by zero it is invalid.
fn quotient(v: Slot, w: Slot) -> Slot
    ensures { result ≡ (if int_eq w.number (pos 0) then invalid_slot else
        integer_slot (int_div v.number w.number)) }
{
    number_or_invalid(v.number.checked_div(w.number))
}

/// What the quotient leaves; of -2^63 and -1 it is 0.
fn left_over(a: i64, b: i64) -> Slot
    ensures { result ≡ (if int_eq b (pos 0) then invalid_slot else
        integer_slot (a -ℤ (int_div a b *ℤ b))) }
{
    if b == 0 {
        return invalid_slot();
    }
    number_slot(a.wrapping_rem(b))
}

fn rest(v: Slot, w: Slot) -> Slot
    ensures { result ≡ (if int_eq w.number (pos 0) then invalid_slot else
        integer_slot (v.number -ℤ (int_div v.number w.number *ℤ w.number))) }
{
    left_over(v.number, w.number)
}

fn smaller(v: Slot, w: Slot) -> Slot
    ensures { result ≡ integer_slot (int_min v.number w.number) }
{
    number_slot(v.number.min(w.number))
}

fn larger(v: Slot, w: Slot) -> Slot
    ensures { result ≡ integer_slot (int_max v.number w.number) }
{
    number_slot(v.number.max(w.number))
}

fn opposite(v: Slot) -> Slot
    ensures { result ≡ integer_slot (neg_ℤ v.number) }
{
    number_or_invalid(v.number.checked_neg())
}

fn size(v: Slot) -> Slot
    ensures { result ≡ integer_slot (int_max v.number (neg_ℤ v.number)) }
{
    number_or_invalid(v.number.checked_abs())
}

/// The sum of two whole numbers.
pub fn addition(v: Slot, w: Slot) -> Slot
    ensures { (l : Indexed) (pool : List Held) →
        MakesOfTwo l pool is_number_operand is_number_operand addition v w result }
{
    if_both_plain(v, w, sum(v, w))
}

/// The difference of two whole numbers.
pub fn subtraction(v: Slot, w: Slot) -> Slot
    ensures { (l : Indexed) (pool : List Held) →
        MakesOfTwo l pool is_number_operand is_number_operand subtraction v w result }
{
    if_both_plain(v, w, difference(v, w))
}

/// The product of two whole numbers.
pub fn multiplication(v: Slot, w: Slot) -> Slot
    ensures { (l : Indexed) (pool : List Held) →
        MakesOfTwo l pool is_number_operand is_number_operand multiplication v w result }
{
    if_both_plain(v, w, product(v, w))
}

/// Towards zero; by zero it is invalid.
pub fn division(v: Slot, w: Slot) -> Slot
    ensures { (l : Indexed) (pool : List Held) →
        MakesOfTwo l pool is_number_operand is_number_operand division v w result }
{
    if_both_plain(v, w, quotient(v, w))
}

/// What the quotient leaves.
pub fn remainder(v: Slot, w: Slot) -> Slot
    ensures { (l : Indexed) (pool : List Held) →
        MakesOfTwo l pool is_number_operand is_number_operand remainder v w result }
{
    if_both_plain(v, w, rest(v, w))
}

/// The lesser of two whole numbers.
pub fn lesser(v: Slot, w: Slot) -> Slot
    ensures { (l : Indexed) (pool : List Held) →
        MakesOfTwo l pool is_number_operand is_number_operand lesser v w result }
{
    if_both_plain(v, w, smaller(v, w))
}

/// The greater of two whole numbers.
pub fn greater(v: Slot, w: Slot) -> Slot
    ensures { (l : Indexed) (pool : List Held) →
        MakesOfTwo l pool is_number_operand is_number_operand greater v w result }
{
    if_both_plain(v, w, larger(v, w))
}

/// The opposite of a whole number.
pub fn negative(v: Slot) -> Slot
    ensures { (l : Indexed) (pool : List Held) →
        MakesOfOne l pool is_number_operand negative v result }
{
    if_plain(v, opposite(v))
}

/// A whole number without its sign.
pub fn absolute(v: Slot) -> Slot
    ensures { (l : Indexed) (pool : List Held) →
        MakesOfOne l pool is_number_operand absolute v result }
{
    if_plain(v, size(v))
}

fn is_less(v: Slot, w: Slot) -> Slot
    ensures { result ≡ truth_slot (int_lt v.number w.number) }
{
    truth_slot(v.number < w.number)
}

fn is_at_most(v: Slot, w: Slot) -> Slot
    ensures { result ≡ truth_slot (int_le v.number w.number) }
{
    truth_slot(v.number <= w.number)
}

/// Whether the first is below the second.
pub fn less_than(v: Slot, w: Slot) -> Slot
    ensures { (l : Indexed) (pool : List Held) →
        MakesOfTwo l pool is_number_operand is_number_operand less_than v w result }
{
    if_both_plain(v, w, is_less(v, w))
}

/// Whether the first is at most the second.
pub fn at_most(v: Slot, w: Slot) -> Slot
    ensures { (l : Indexed) (pool : List Held) →
        MakesOfTwo l pool is_number_operand is_number_operand at_most v w result }
{
    if_both_plain(v, w, is_at_most(v, w))
}
