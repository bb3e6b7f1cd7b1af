//! Collections in order: whether their elements are in order, and binary search in one whose are.

ghost use Rattle.std.specs.Prelude.{◌≡◌, true};
ghost use Rattle.ocl_base.specs.Lists.{is_among};
ghost use Rattle.rule_slots.specs.Slots.{lists_in, home_named};
ghost use Rattle.rule_slots.specs.Ordered.{compare_words, compare_slots, may_precede};
ghost use Rattle.rule_slots.specs.Comparer.{same_by, slots_by, IsHeldBy, is_strict, is_ordered};

use crate::comparer::{Comparer, Order};
use crate::lists::Lists;
use crate::reading::element_in;
use crate::slot::{Home, Mark, Slot, home_named};
use crate::texts::slot_bytes;
use rule_code::WrittenScalar;
use std::cmp::Ordering;

/// How two slots that have values of a kind stand beside each other.
#[inline(always)]
fn compare_words(lists: Lists<'_>, kind: WrittenScalar, a: Slot, b: Slot) -> Ordering
    ensures { result ≡ compare_words (lists_in lists.entry) kind a b }
{
    match kind {
        WrittenScalar::Void => a.number.cmp(&b.number),
        WrittenScalar::Boolean => a.number.cmp(&b.number),
        WrittenScalar::Integer => a.number.cmp(&b.number),
        WrittenScalar::String => slot_bytes(lists, a).cmp(slot_bytes(lists, b)),
        WrittenScalar::Enumeration(_) => a.index.cmp(&b.index),
        WrittenScalar::Class(_) => a.index.cmp(&b.index),
        WrittenScalar::AnyObject => a.index.cmp(&b.index),
    }
}

/// How two elements of a kind stand beside each other: null first, then what has a value.
#[inline(always)]
pub(crate) fn compare_slots(lists: Lists<'_>, kind: WrittenScalar, a: Slot, b: Slot) -> Ordering
    ensures { result ≡ compare_slots (lists_in lists.entry) kind a b }
{
    match (a.mark, b.mark) {
        (Mark::Plain, Mark::Plain) => compare_words(lists, kind, a, b),
        (Mark::Null, Mark::Null) | (Mark::Invalid, Mark::Invalid) => Ordering::Equal,
        (Mark::Null, _) | (_, Mark::Invalid) => Ordering::Less,
        (Mark::Invalid, _) | (_, Mark::Null) => Ordering::Greater,
    }
}

/// Whether an element that compares so with another may stand before it.
#[inline(always)]
fn may_precede(compared: Ordering, order: Order) -> bool
    ensures { result ≡ may_precede (is_strict order) compared }
{
    match order {
        Order::Strict => compared.is_lt(),
        Order::Weak => !compared.is_gt(),
    }
}

/// Whether the elements of a collection that is a part of this list are in order.
#[inline(always)]
fn is_in_order_in(home: Home, comparer: Comparer<'_, '_>, source: Slot, order: Order) -> bool
    requires list { home_named source.list ≡ home }
    requires home { IsHeldBy comparer source }
    ensures { result ≡ is_ordered comparer.entry order source }
{
    for index in 0..source.count {
        let slot = element_in(home, comparer.lists, comparer.pool, source, index);
        if slot.is_invalid() {
            return false;
        }
        if index + 1 < source.count {
            let next = element_in(home, comparer.lists, comparer.pool, source, index + 1);
            if !may_precede(comparer.compare(slot, next), order) {
                return false;
            }
        }
    }
    true
}

/// Whether the elements of a collection are in order, with a loop for each list.
#[inline(always)]
fn is_in_order_list(comparer: Comparer<'_, '_>, source: Slot, order: Order) -> bool
    requires { IsHeldBy comparer source }
    ensures { result ≡ is_ordered comparer.entry order source }
{
    match home_named(source.list) {
        Home::Scalars => is_in_order_in(Home::Scalars, comparer, source, order),
        Home::Instances => is_in_order_in(Home::Instances, comparer, source, order),
        Home::Pool => is_in_order_in(Home::Pool, comparer, source, order),
    }
}

/// Whether the elements of a collection are in order. (Kinds that are compared by the same word have loops of their own
/// for it.)
#[inline(never)]
pub(crate) fn is_in_order(comparer: Comparer<'_, '_>, source: Slot, order: Order) -> bool
    requires { IsHeldBy comparer source }
    ensures { result ≡ is_ordered comparer.entry order source }
{
    match comparer.kind {
        WrittenScalar::Void | WrittenScalar::Boolean | WrittenScalar::Integer => {
            let comparer = Comparer {
                kind: WrittenScalar::Integer,
                ..comparer
            };
            is_in_order_list(comparer, source, order)
        }
        WrittenScalar::String => {
            let comparer = Comparer {
                kind: WrittenScalar::String,
                ..comparer
            };
            is_in_order_list(comparer, source, order)
        }
        WrittenScalar::Enumeration(_) | WrittenScalar::Class(_) | WrittenScalar::AnyObject => {
            let comparer = Comparer {
                kind: WrittenScalar::AnyObject,
                ..comparer
            };
            is_in_order_list(comparer, source, order)
        }
    }
}

/// Whether an element is in a collection that is a part of this list and is in weak order.
#[inline(always)]
fn is_among_ordered_in(home: Home, comparer: Comparer<'_, '_>, source: Slot, slot: Slot) -> bool
    requires list { home_named source.list ≡ home }
    requires home { IsHeldBy comparer source }
    requires order { is_ordered comparer Order.Weak source ≡ true }
    ensures { result ≡ is_among (same_by comparer.entry) (slots_by comparer.entry source) slot }
{
    let mut low = 0;
    let mut high = source.count;
    while low < high {
        let middle = low + (high - low) / 2;
        let found = element_in(home, comparer.lists, comparer.pool, source, middle);
        if comparer.compare(found, slot).is_lt() {
            low = middle + 1;
        } else {
            high = middle;
        }
    }
    if low == source.count {
        return false;
    }
    let found = element_in(home, comparer.lists, comparer.pool, source, low);
    comparer.is_same(slot, found)
}

/// Whether an element is in a collection that is in weak order, with a loop for each list.
#[inline(always)]
fn is_among_ordered_list(comparer: Comparer<'_, '_>, source: Slot, slot: Slot) -> bool
    requires home { IsHeldBy comparer source }
    requires order { is_ordered comparer Order.Weak source ≡ true }
    ensures { result ≡ is_among (same_by comparer.entry) (slots_by comparer.entry source) slot }
{
    match home_named(source.list) {
        Home::Scalars => is_among_ordered_in(Home::Scalars, comparer, source, slot),
        Home::Instances => is_among_ordered_in(Home::Instances, comparer, source, slot),
        Home::Pool => is_among_ordered_in(Home::Pool, comparer, source, slot),
    }
}

/// Whether an element is in a collection that is in weak order. (Kinds that are compared by the same word have loops of
/// their own for it.)
#[inline(never)]
pub(crate) fn is_among_ordered(comparer: Comparer<'_, '_>, source: Slot, slot: Slot) -> bool
    requires home { IsHeldBy comparer source }
    requires order { is_ordered comparer Order.Weak source ≡ true }
    ensures { result ≡ is_among (same_by comparer.entry) (slots_by comparer.entry source) slot }
{
    match comparer.kind {
        WrittenScalar::Void | WrittenScalar::Boolean | WrittenScalar::Integer => {
            let comparer = Comparer {
                kind: WrittenScalar::Integer,
                ..comparer
            };
            is_among_ordered_list(comparer, source, slot)
        }
        WrittenScalar::String => {
            let comparer = Comparer {
                kind: WrittenScalar::String,
                ..comparer
            };
            is_among_ordered_list(comparer, source, slot)
        }
        WrittenScalar::Enumeration(_) | WrittenScalar::Class(_) | WrittenScalar::AnyObject => {
            let comparer = Comparer {
                kind: WrittenScalar::AnyObject,
                ..comparer
            };
            is_among_ordered_list(comparer, source, slot)
        }
    }
}
