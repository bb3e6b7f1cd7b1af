//! Operations on collections, which are ranges of lists.

ghost use Rattle.std.specs.Prelude.{◌≡◌, List, length, pos, true};
ghost use Rattle.imkl_population.specs.Population.{Population};
ghost use Rattle.ocl_kinds.specs.declared.kind.Kind.TheVariants.{Scalar as Single};
ghost use Rattle.ocl_kinds.specs.declared.kind.ScalarKind.{ScalarKind};
ghost use Rattle.rule_values.specs.Value.{is_in};
ghost use Rattle.rule_values.specs.Operations.{collection_size, emptiness, membership, occurrence_count, inclusion, exclusion};
ghost use Rattle.rule_slots.specs.Slots.{Lists as Indexed, lists_in, LiesInHome, PartIs};
ghost use Rattle.rule_slots.specs.declared.slot.Slot.{Slot as Held};
ghost use Rattle.rule_slots.specs.Operands.{MakesOfOne, MakesOfTwo, is_many_operand, is_elements_operand, integer_slot};
ghost use Rattle.rule_slots.specs.Compared.{covers};

use crate::comparer::Quantifier;
use crate::elements::{is_slot_among, times_among};
use crate::integers::if_plain;
use crate::lists::Lists;
use crate::searching::are_among;
use crate::slot::{Slot, invalid_slot, number_slot, truth_slot};
use rule_code::WrittenScalar;

/// A count as a whole number; invalid where it is too large for one.
pub(crate) fn count_slot(n: usize) -> Slot
    ensures { result ≡ integer_slot (pos n) }
{
    match i64::try_from(n) {
        Ok(n) => number_slot(n),
        Err(_) => invalid_slot(),
    }
}

/// How many elements there are.
pub fn collection_size(v: Slot) -> Slot
    ensures { (l : Indexed) (pool : List Held) →
        MakesOfOne l pool is_many_operand collection_size v result }
{
    if_plain(v, count_slot(v.count))
}

/// Whether there is no element.
pub fn emptiness(v: Slot) -> Slot
    ensures { (l : Indexed) (pool : List Held) →
        MakesOfOne l pool is_many_operand emptiness v result }
{
    if_plain(v, truth_slot(v.count == 0))
}

/// Whether an element is in a collection.
#[inline(always)]
pub fn membership(lists: Lists<'_>, pool: &[Slot], kind: WrittenScalar, v: Slot, w: Slot) -> Slot
    requires { LiesInHome (lists_in lists) (length pool.now) v }
    ensures { (p : Population) (k : ScalarKind) → covers kind k ≡ true →
        MakesOfTwo (lists_in lists.entry) pool.now (is_elements_operand p k)
        (λ x. is_in p x (Single k)) membership v w result }
{
    if v.is_plain() && !w.is_invalid() {
        truth_slot(is_slot_among(lists, pool, kind, v, w))
    } else {
        invalid_slot()
    }
}

/// How often an element is in a collection.
#[inline(always)]
pub fn occurrence_count(
    lists: Lists<'_>,
    pool: &[Slot],
    kind: WrittenScalar,
    v: Slot,
    w: Slot,
) -> Slot
    requires { LiesInHome (lists_in lists) (length pool.now) v }
    ensures { (p : Population) (k : ScalarKind) → covers kind k ≡ true →
        MakesOfTwo (lists_in lists.entry) pool.now (is_elements_operand p k)
        (λ x. is_in p x (Single k)) occurrence_count v w result }
{
    if v.is_plain() && !w.is_invalid() {
        count_slot(times_among(lists, pool, kind, v, w))
    } else {
        invalid_slot()
    }
}

/// Whether each element of the second collection is in the first. The pool stays as it was; a long collection may be
/// searched by a copy behind its end.
#[inline(always)]
pub fn inclusion(
    lists: Lists<'_>,
    pool: &mut Vec<Slot>,
    kind: WrittenScalar,
    v: Slot,
    w: Slot,
) -> Slot
    requires source { LiesInHome (lists_in lists) (length pool.old.items) v }
    requires others { LiesInHome (lists_in lists) (length pool.old.items) w }
    ensures made { (p : Population) (k : ScalarKind) → covers kind k ≡ true →
        MakesOfTwo (lists_in lists.entry) pool.old.items (is_elements_operand p k)
        (is_elements_operand p k) inclusion v w result }
    ensures pool { pool.new.items ≡ pool.old.items }
{
    if v.is_plain() && w.is_plain() {
        truth_slot(are_among(lists, pool, kind, Quantifier::All, v, w))
    } else {
        invalid_slot()
    }
}

/// Whether no element of the second collection is in the first, likewise.
#[inline(always)]
pub fn exclusion(
    lists: Lists<'_>,
    pool: &mut Vec<Slot>,
    kind: WrittenScalar,
    v: Slot,
    w: Slot,
) -> Slot
    requires source { LiesInHome (lists_in lists) (length pool.old.items) v }
    requires others { LiesInHome (lists_in lists) (length pool.old.items) w }
    ensures made { (p : Population) (k : ScalarKind) → covers kind k ≡ true →
        MakesOfTwo (lists_in lists.entry) pool.old.items (is_elements_operand p k)
        (is_elements_operand p k) exclusion v w result }
    ensures pool { pool.new.items ≡ pool.old.items }
{
    if v.is_plain() && w.is_plain() {
        truth_slot(are_among(lists, pool, kind, Quantifier::None, v, w))
    } else {
        invalid_slot()
    }
}
