//! Sorted copies whose slots hold the first index of an equal element. The index is a hint alone:
//! nothing depends on it being right. An element that is left out is compared with the earlier one
//! that it should equal. Those that are kept are sorted again, which shows that they all differ.

ghost use Rattle.std.specs.Prelude.{◌≡◌, ◌+◌, ◌≤◌, length, take, vec_capacity};
ghost use Rattle.rule_slots.specs.Slots.{lists_in, IsInHome};

use crate::lists::Lists;
use crate::ordering::compare_slots;
use crate::reading::element;
use crate::slot::Slot;
use rule_code::WrittenScalar;
use std::cmp::Ordering;

/// A slot that tells an index by a word that its kind has no use for.
fn with_index(kind: WrittenScalar, slot: Slot, index: usize) -> Slot {
    match kind {
        WrittenScalar::Void | WrittenScalar::Boolean | WrittenScalar::Integer => {
            Slot { index, ..slot }
        }
        WrittenScalar::String
        | WrittenScalar::Enumeration(_)
        | WrittenScalar::Class(_)
        | WrittenScalar::AnyObject => Slot {
            number: i64::try_from(index).unwrap_or(0),
            ..slot
        },
    }
}

/// The index that a slot tells.
fn place_of(kind: WrittenScalar, slot: Slot) -> usize {
    match kind {
        WrittenScalar::Void | WrittenScalar::Boolean | WrittenScalar::Integer => slot.index,
        WrittenScalar::String
        | WrittenScalar::Enumeration(_)
        | WrittenScalar::Class(_)
        | WrittenScalar::AnyObject => usize::try_from(slot.number).unwrap_or(0),
    }
}

/// How two slots stand beside each other: by their elements, and where these are the same by their indices.
fn compare_placed(lists: Lists<'_>, kind: WrittenScalar, a: Slot, b: Slot) -> Ordering {
    match compare_slots(lists, kind, a, b) {
        Ordering::Equal => place_of(kind, a).cmp(&place_of(kind, b)),
        order => order,
    }
}

/// Puts a sorted copy of a collection at the pool's end, whose slots tell their indices.
pub(crate) fn push_placed(lists: Lists<'_>, pool: &mut Vec<Slot>, kind: WrittenScalar, source: Slot)
    requires within { IsInHome (lists_in lists) (length pool.old.items) source }
    requires room { length pool.old.items + source.count ≤ vec_capacity pool.old }
    ensures below { take (length pool.old.items) pool.new.items ≡ pool.old.items }
    ensures long { length pool.new.items ≡ length pool.old.items + source.count }
    ensures capacity { vec_capacity pool.new ≡ vec_capacity pool.old }
{
    let start = pool.len();
    push_in_places(lists, pool, kind, source);
    sort_placed(lists, &mut pool[start..], kind);
}

/// Puts the elements of a collection at the pool's end, with their indices.
#[inline(never)]
fn push_in_places(lists: Lists<'_>, pool: &mut Vec<Slot>, kind: WrittenScalar, source: Slot)
    requires within { IsInHome (lists_in lists) (length pool.old.items) source }
    requires room { length pool.old.items + source.count ≤ vec_capacity pool.old }
    ensures below { take (length pool.old.items) pool.new.items ≡ pool.old.items }
    ensures long { length pool.new.items ≡ length pool.old.items + source.count }
    ensures capacity { vec_capacity pool.new ≡ vec_capacity pool.old }
{
    for index in 0..source.count {
        let slot = element(lists, pool, source, index);
        pool.push_reserved(with_index(kind, slot, index));
    }
}

/// Sorts slots that tell their indices. (Kinds that are compared by the same word have a sort of their own for it.)
#[inline(never)]
fn sort_placed(lists: Lists<'_>, slots: &mut [Slot], kind: WrittenScalar)
    ensures { length slots.new ≡ length slots.old }
{
    match kind {
        WrittenScalar::Void | WrittenScalar::Boolean | WrittenScalar::Integer => {
            slots.sort_unstable_by(|a, b| compare_placed(lists, WrittenScalar::Integer, *a, *b));
        }
        WrittenScalar::String => {
            slots.sort_unstable_by(|a, b| compare_placed(lists, WrittenScalar::String, *a, *b));
        }
        WrittenScalar::Enumeration(_) | WrittenScalar::Class(_) | WrittenScalar::AnyObject => {
            slots.sort_unstable_by(|a, b| compare_placed(lists, WrittenScalar::AnyObject, *a, *b));
        }
    }
}

/// Where an element first stands in a collection, as the sorted copy of it tells.
#[inline(never)]
pub(crate) fn first_place(
    lists: Lists<'_>,
    copy: &[Slot],
    kind: WrittenScalar,
    slot: Slot,
) -> usize {
    let at = copy.partition_point(|found| compare_slots(lists, kind, *found, slot).is_lt());
    match copy.get(at) {
        Some(found) => place_of(kind, *found),
        None => 0,
    }
}
