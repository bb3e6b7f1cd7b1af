//! Equality of values of one kind.

ghost use Rattle.std.specs.Prelude.{◌≡◌, ◌+◌, ◌≤◌, Bool, length, true, false, vec_capacity, MatchOption};
ghost use Rattle.ocl_kinds.specs.declared.kind.Kind.{Kind};
ghost use Rattle.ocl_base.specs.Lists.{is_among};
ghost use Rattle.rule_values.specs.Value.{is_in};
ghost use Rattle.rule_values.specs.Operations.{equality};
ghost use Rattle.imkl_population.specs.Population.{Population};
ghost use Rattle.rule_slots.specs.Slots.{lists_in, held_slots, plain_mark, IsInHome};
ghost use Rattle.rule_slots.specs.Operands.{MakesOfTwo};
ghost use Rattle.rule_slots.specs.Compared.{same_slots, stand_as_often, pairwise_same, same_unordered, same_collections, covers_kind, ComparesWithin, same_values};
ghost use Rattle.rule_slots.specs.Comparer.{same_by, slots_by, IsHeldBy, are_held, ignores_repeats, are_same};

use crate::comparer::{Comparer, Quantifier, Repeats};
use crate::elements::{find_in_list, is_slot_among, same_slots, times_among};
use crate::lists::Lists;
use crate::ordering::is_in_order;
use crate::own_room::sorted_copies;
use crate::searching::are_in;
use crate::slot::{Slot, invalid_slot, truth_slot};
use crate::sorting::{has_room, push_sorted};
use ocl_base::CollectionKind;
use rule_code::{WrittenKind, WrittenScalar};
use std::alloc::Global;

/// Sets of which one has at most so many elements are compared each element with each, where they are in no order.
const FEW_IN_SET: usize = 32;

/// Likewise Bags of as many elements, and Bags of which one has more than the other: then one of its first elements tells.
const FEW_IN_BAG: usize = 4;

const FEW_IN_BAG_BESIDE_MORE: usize = 16;

/// Whether each element of the first collection is as often in the second.
#[inline(never)]
fn stand_as_often(comparer: Comparer<'_, '_>, left: Slot, right: Slot) -> bool
    requires left { IsHeldBy comparer left }
    requires right { IsHeldBy comparer right }
    ensures { result ≡ stand_as_often (same_by comparer.entry) (slots_by comparer.entry left)
        (slots_by comparer.entry right) }
{
    for index in 0..left.count {
        let slot = comparer.element(left, index);
        let here = times_among(comparer.lists, comparer.pool, comparer.kind, left, slot);
        let there = times_among(comparer.lists, comparer.pool, comparer.kind, right, slot);
        if here != there {
            return false;
        }
    }
    true
}

/// Whether two collections are the same, one by one.
#[inline(never)]
fn pairwise_same(comparer: Comparer<'_, '_>, left: Slot, right: Slot) -> bool
    requires left { IsHeldBy comparer left }
    requires right { IsHeldBy comparer right }
    ensures { result ≡ pairwise_same (same_by comparer.entry) (slots_by comparer.entry left)
        (slots_by comparer.entry right) }
{
    if left.count != right.count {
        return false;
    }
    for index in 0..left.count {
        let slot = comparer.element(left, index);
        let other = comparer.element(right, index);
        if !comparer.is_same(slot, other) {
            return false;
        }
    }
    true
}

/// Whether the elements of two collections are the same, of Sets by members and of Bags by counts, if that is told by
/// going through their lists once: they are the same one by one; or both are in order, and then they aren't the same.
#[inline(never)]
fn told_by_order(
    comparer: Comparer<'_, '_>,
    repeats: Repeats,
    left: Slot,
    right: Slot,
) -> Option<bool>
    requires left { IsHeldBy comparer left }
    requires right { IsHeldBy comparer right }
    ensures { MatchOption result (Unit {0}) (λ told.
        told ≡ are_same comparer.entry repeats left right) }
{
    if pairwise_same(comparer, left, right) {
        return Some(true);
    }
    let order = repeats.telling_order();
    if is_in_order(comparer, left, order) && is_in_order(comparer, right, order) {
        return Some(false);
    }
    None
}

/// Whether all elements of the second collection are in the first. Hints keep for elements of the first where one of the
/// second was found to be the same.
#[inline(always)]
fn keep_hints_of_kind(
    comparer: Comparer<'_, '_>,
    source: Slot,
    others: Slot,
    hints: &mut [u8; FEW_IN_SET],
) -> bool
    requires source { IsHeldBy comparer source }
    requires others { IsHeldBy comparer others }
    ensures { result ≡ are_held comparer.entry Quantifier.All source others }
{
    for index in 0..others.count {
        let slot = comparer.element(others, index);
        match find_in_list(
            comparer.lists,
            comparer.pool,
            comparer.kind,
            source,
            0,
            slot,
        ) {
            Some(place) => keep_hint(hints, place, index),
            None => return false,
        }
    }
    true
}

/// The same. (Kinds that are compared by the same word have loops of their own for it.)
#[inline(never)]
fn keep_hints(
    comparer: Comparer<'_, '_>,
    source: Slot,
    others: Slot,
    hints: &mut [u8; FEW_IN_SET],
) -> bool
    requires source { IsHeldBy comparer source }
    requires others { IsHeldBy comparer others }
    ensures { result ≡ are_held comparer.entry Quantifier.All source others }
{
    match comparer.kind {
        WrittenScalar::Void | WrittenScalar::Boolean | WrittenScalar::Integer => {
            let comparer = Comparer {
                kind: WrittenScalar::Integer,
                ..comparer
            };
            keep_hints_of_kind(comparer, source, others, hints)
        }
        WrittenScalar::String => {
            let comparer = Comparer {
                kind: WrittenScalar::String,
                ..comparer
            };
            keep_hints_of_kind(comparer, source, others, hints)
        }
        WrittenScalar::Enumeration(_) | WrittenScalar::Class(_) | WrittenScalar::AnyObject => {
            let comparer = Comparer {
                kind: WrittenScalar::AnyObject,
                ..comparer
            };
            keep_hints_of_kind(comparer, source, others, hints)
        }
    }
}

/// Keeps for an element of one collection which one of another is the same, if there is room for it.
#[inline(always)]
fn keep_hint(hints: &mut [u8; FEW_IN_SET], place: usize, index: usize) {
    if place < FEW_IN_SET && index < FEW_IN_SET {
        hints[place] = index as u8;
    }
}

/// Whether an element is in a collection, which is seen at once where the hint is right.
#[inline(always)]
fn is_hinted_among(comparer: Comparer<'_, '_>, source: Slot, hint: usize, slot: Slot) -> bool
    requires { IsHeldBy comparer source }
    ensures { result ≡ is_among (same_by comparer.entry) (slots_by comparer.entry source) slot }
{
    if hint < source.count && comparer.is_same(slot, comparer.element(source, hint)) {
        return true;
    }
    is_slot_among(comparer.lists, comparer.pool, comparer.kind, source, slot)
}

/// Whether all elements of the second collection are in the first.
#[inline(never)]
fn are_all_hinted(
    comparer: Comparer<'_, '_>,
    source: Slot,
    others: Slot,
    hints: &[u8; FEW_IN_SET],
) -> bool
    requires source { IsHeldBy comparer source }
    requires others { IsHeldBy comparer others }
    ensures { result ≡ are_held comparer.entry Quantifier.All source others }
{
    for index in 0..others.count {
        let slot = comparer.element(others, index);
        let hint = if index < FEW_IN_SET { hints[index] } else { 0 };
        if !is_hinted_among(comparer, source, hint as usize, slot) {
            return false;
        }
    }
    true
}

/// Whether each element of two collections is in the other. An element that another was found to be the same as is
/// compared with that one first: so where all are, each is looked for once.
#[inline(never)]
fn same_few_members(comparer: Comparer<'_, '_>, left: Slot, right: Slot) -> bool
    requires left { IsHeldBy comparer left }
    requires right { IsHeldBy comparer right }
    ensures { result ≡ are_same comparer.entry Repeats.Ignored left right }
{
    let mut hints = [0; FEW_IN_SET];
    let all = keep_hints(comparer, right, left, &mut hints);
    all && are_all_hinted(comparer, left, right, &hints)
}

/// Whether each element of two collections is in the other. Hints are kept where the first has few elements.
fn same_members(comparer: Comparer<'_, '_>, left: Slot, right: Slot) -> bool
    requires left { IsHeldBy comparer left }
    requires right { IsHeldBy comparer right }
    ensures { result ≡ are_same comparer.entry Repeats.Ignored left right }
{
    if left.count <= FEW_IN_SET {
        return same_few_members(comparer, left, right);
    }
    let all = are_in(comparer, Quantifier::All, right, left);
    all && are_in(comparer, Quantifier::All, left, right)
}

/// Whether the elements of two collections are the same, each compared with each.
#[inline(never)]
fn same_by_pairs(comparer: Comparer<'_, '_>, repeats: Repeats, left: Slot, right: Slot) -> bool
    requires left { IsHeldBy comparer left }
    requires right { IsHeldBy comparer right }
    ensures { result ≡ are_same comparer.entry repeats left right }
{
    match repeats {
        Repeats::Counted => {
            let all = stand_as_often(comparer, left, right);
            all && stand_as_often(comparer, right, left)
        }
        Repeats::Ignored => same_members(comparer, left, right),
    }
}

/// Whether the elements of two collections are the same, by their lists as they are.
fn same_as_listed(comparer: Comparer<'_, '_>, repeats: Repeats, left: Slot, right: Slot) -> bool
    requires left { IsHeldBy comparer left }
    requires right { IsHeldBy comparer right }
    ensures { result ≡ are_same comparer.entry repeats left right }
{
    match told_by_order(comparer, repeats, left, right) {
        Some(told) => told,
        None => same_by_pairs(comparer, repeats, left, right),
    }
}

/// Whether the elements of two collections are the same, by sorted copies of both.
#[inline(never)]
fn same_by_copies(
    lists: Lists<'_>,
    pool: &mut Vec<Slot>,
    kind: WrittenScalar,
    repeats: Repeats,
    left: Slot,
    right: Slot,
) -> bool
    requires left { IsInHome (lists_in lists) (length pool.old.items) left }
    requires right { IsInHome (lists_in lists) (length pool.old.items) right }
    requires room { length pool.old.items + (left.count + right.count) ≤ vec_capacity pool.old }
    ensures told { result ≡ same_unordered (same_slots (lists_in lists.entry) kind)
        (ignores_repeats repeats)
        (held_slots (lists_in lists.entry) pool.old.items left)
        (held_slots (lists_in lists.entry) pool.old.items right) }
    ensures pool { pool.new.items ≡ pool.old.items }
{
    let start = pool.len();
    let one = push_sorted(lists, pool, kind, left);
    let other = push_sorted(lists, pool, kind, right);
    let same = same_as_listed(Comparer { lists, pool, kind }, repeats, one, other);
    pool.truncate(start);
    same
}

/// Whether the elements of two collections are the same, by sorted copies of both in room of their own; where that is
/// refused, each is compared with each.
#[inline(never)]
fn same_in_room(
    alloc: Global,
    comparer: Comparer<'_, '_>,
    repeats: Repeats,
    left: Slot,
    right: Slot,
) -> bool
    requires left { IsHeldBy comparer left }
    requires right { IsHeldBy comparer right }
    ensures { result ≡ are_same comparer.entry repeats left right }
{
    match sorted_copies(alloc, comparer, left, right) {
        Some(copies) => {
            let copied = Comparer {
                pool: &copies.room,
                ..comparer
            };
            let (one, other) = (copies.left, copies.right);
            same_as_listed(copied, repeats, one, other)
        }
        None => same_by_pairs(comparer, repeats, left, right),
    }
}

/// How many elements the shorter of two collections has at most for which each element is compared with each.
fn few_for_pairs(repeats: Repeats, left: usize, right: usize) -> usize {
    match repeats {
        Repeats::Ignored => FEW_IN_SET,
        Repeats::Counted if left == right => FEW_IN_BAG,
        Repeats::Counted => FEW_IN_BAG_BESIDE_MORE,
    }
}

/// Whether one collection is empty and another has an element: then they are not the same, and nothing else of them is
/// looked at.
#[inline(always)]
fn is_one_empty(comparer: Comparer<'_, '_>, left: Slot, right: Slot) -> bool
    requires left { IsHeldBy comparer left }
    requires right { IsHeldBy comparer right }
    ensures { (repeats : Repeats) → result ≡ true →
        are_same comparer.entry repeats left right ≡ false }
{
    if left.count == 0 && right.count > 0 {
        return !comparer.element(right, 0).is_invalid();
    }
    if right.count == 0 && left.count > 0 {
        return !comparer.element(left, 0).is_invalid();
    }
    false
}

/// Whether the elements of two collections are the same, of Sets by members and of Bags by counts. Where their lists don't
/// tell it as they are, sorted copies do, behind the pool's end or in room of their own; where one is short, each element
/// is compared with each. The pool stays as it was.
#[inline(never)]
fn same_unordered(
    lists: Lists<'_>,
    pool: &mut Vec<Slot>,
    kind: WrittenScalar,
    repeats: Repeats,
    left: Slot,
    right: Slot,
) -> bool
    requires left { IsInHome (lists_in lists) (length pool.old.items) left }
    requires right { IsInHome (lists_in lists) (length pool.old.items) right }
    ensures told { result ≡ same_unordered (same_slots (lists_in lists.entry) kind)
        (ignores_repeats repeats)
        (held_slots (lists_in lists.entry) pool.old.items left)
        (held_slots (lists_in lists.entry) pool.old.items right) }
    ensures pool { pool.new.items ≡ pool.old.items }
{
    let comparer = Comparer { lists, pool, kind };
    if is_one_empty(comparer, left, right) {
        return false;
    }
    if let Some(told) = told_by_order(comparer, repeats, left, right) {
        return told;
    }
    if left.count.min(right.count) <= few_for_pairs(repeats, left.count, right.count) {
        return same_by_pairs(comparer, repeats, left, right);
    }
    if has_room(pool, left.count, right.count) {
        return same_by_copies(lists, pool, kind, repeats, left, right);
    }
    let alloc = *pool.allocator();
    same_in_room(alloc, Comparer { lists, pool, kind }, repeats, left, right)
}

/// Whether the elements of two collections of one kind are the same: Sets by members, Bags by counts, the ordered ones
/// by list.
#[inline(always)]
fn same_collections(
    lists: Lists<'_>,
    pool: &mut Vec<Slot>,
    collection: CollectionKind,
    kind: WrittenScalar,
    left: Slot,
    right: Slot,
) -> bool
    requires left { IsInHome (lists_in lists) (length pool.old.items) left }
    requires right { IsInHome (lists_in lists) (length pool.old.items) right }
    ensures told { result ≡ same_collections (same_slots (lists_in lists.entry) kind) collection
        (held_slots (lists_in lists.entry) pool.old.items left)
        (held_slots (lists_in lists.entry) pool.old.items right) }
    ensures pool { pool.new.items ≡ pool.old.items }
{
    match collection {
        CollectionKind::Set => same_unordered(lists, pool, kind, Repeats::Ignored, left, right),
        CollectionKind::OrderedSet => pairwise_same(Comparer { lists, pool, kind }, left, right),
        CollectionKind::Bag => same_unordered(lists, pool, kind, Repeats::Counted, left, right),
        CollectionKind::Sequence => pairwise_same(Comparer { lists, pool, kind }, left, right),
    }
}

/// Whether two values of one kind, of which none is invalid, are the same.
#[inline(always)]
fn same_values(lists: Lists<'_>, pool: &mut Vec<Slot>, kind: WrittenKind, v: Slot, w: Slot) -> bool
    requires left { ComparesWithin (lists_in lists) (length pool.old.items) kind v }
    requires right { ComparesWithin (lists_in lists) (length pool.old.items) kind w }
    ensures told { result ≡ same_values (lists_in lists.entry) pool.old.items kind v w }
    ensures pool { pool.new.items ≡ pool.old.items }
{
    match kind {
        WrittenKind::Scalar(element) => same_slots(lists, element, v, w),
        WrittenKind::Collection(collection, element) => {
            v.is_plain() && w.is_plain() && same_collections(lists, pool, collection, element, v, w)
        }
    }
}

/// Whether two values of one kind are equal; invalid where one is invalid. The pool stays as it was; long collections may
/// be compared by copies behind its end.
#[inline(always)]
pub fn equality(lists: Lists<'_>, pool: &mut Vec<Slot>, kind: WrittenKind, v: Slot, w: Slot) -> Slot
    requires left { ComparesWithin (lists_in lists) (length pool.old.items) kind v }
    requires right { ComparesWithin (lists_in lists) (length pool.old.items) kind w }
    ensures made { (p : Population) (k : Kind) → covers_kind kind k ≡ true →
        MakesOfTwo (lists_in lists.entry) pool.old.items (λ x. is_in p x k) (λ x. is_in p x k)
        equality v w result }
    ensures pool { pool.new.items ≡ pool.old.items }
{
    if v.is_invalid() || w.is_invalid() {
        return invalid_slot();
    }
    truth_slot(same_values(lists, pool, kind, v, w))
}
