//! Sums of collections.

ghost use Rattle.std.specs.Prelude.{◌≡◌, ◌+ℤ◌, length, FitsSigned};
ghost use Rattle.std.specs.Int.{w128};
ghost use Rattle.ocl_kinds.specs.declared.kind.ScalarKind.TheVariants.{Integer};
ghost use Rattle.imkl_population.specs.Population.{Population};
ghost use Rattle.rule_values.specs.Operations.{summation};
ghost use Rattle.rule_slots.specs.Slots.{lists_in, held_slots, IsInHome, LiesInHome};
ghost use Rattle.rule_slots.specs.Operands.{MakesOfOne, is_elements_operand, integer_slot};
ghost use Rattle.rule_slots.specs.Summed.{sum_of_slots, summed_slot};

use crate::lists::Lists;
use crate::reading::element;
use crate::slot::{Slot, invalid_slot, number_slot};

/// A sum with the number of a slot, which fits.
fn plus(total: i128, slot: Slot) -> i128
    requires { FitsSigned w128 (total +ℤ slot.number) }
    ensures { result ≡ total +ℤ slot.number }
{
    total + i128::from(slot.number)
}

/// The sum of whole numbers; there is none where an element is null. No list's sum leaves 128 bits.
#[inline(never)]
fn sum_of(lists: Lists<'_>, pool: &[Slot], source: Slot) -> Option<i128>
    requires { IsInHome (lists_in lists) (length pool.now) source }
    ensures { result ≡ sum_of_slots (held_slots (lists_in lists.entry) pool.now source) }
{
    let mut total: i128 = 0;
    for index in 0..source.count {
        let slot = element(lists, pool, source, index);
        if !slot.is_plain() {
            return None;
        }
        total = plus(total, slot);
    }
    Some(total)
}

/// The sum of a collection's elements; invalid where an element is null or the sum is out of range.
#[inline(always)]
fn sum_slot(lists: Lists<'_>, pool: &[Slot], source: Slot) -> Slot
    requires { IsInHome (lists_in lists) (length pool.now) source }
    ensures { result ≡ summed_slot
        (sum_of_slots (held_slots (lists_in lists.entry) pool.now source)) }
{
    let Some(total) = sum_of(lists, pool, source) else {
        return invalid_slot();
    };
    match i64::try_from(total) {
        Ok(n) => number_slot(n),
        Err(_) => invalid_slot(),
    }
}

/// The sum of a collection of whole numbers; invalid where an element is null or the sum is out of range.
#[inline(always)]
pub fn summation(lists: Lists<'_>, pool: &[Slot], v: Slot) -> Slot
    requires { LiesInHome (lists_in lists) (length pool.now) v }
    ensures { (p : Population) → MakesOfOne (lists_in lists.entry) pool.now
        (is_elements_operand p Integer) summation v result }
{
    if v.is_plain() {
        sum_slot(lists, pool, v)
    } else {
        invalid_slot()
    }
}
