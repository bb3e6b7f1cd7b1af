//! Sorted copies of collections, in the room that the pool has behind its end. No memory is taken for them.

ghost use Rattle.std.specs.Prelude.{◌≡◌, ◌+◌, ◌≤◌, ◌++◌, length, take, true, slice_range, vec_capacity};
ghost use Rattle.std.specs.List.Sorted.{IsPermutation};
ghost use Rattle.rule_slots.specs.Slots.{lists_in, home_named, held_slots, IsInHome};
ghost use Rattle.rule_slots.specs.Sorted.{IsCopyOf};

use crate::lists::Lists;
use crate::ordering::compare_slots;
use crate::reading::element;
use crate::slot::{Home, Slot, part_slot};
use rule_code::WrittenScalar;

/// Whether the pool has room for so many slots, and so many more, behind its end.
#[inline(always)]
pub(crate) fn has_room(pool: &Vec<Slot>, count: usize, more: usize) -> bool
    ensures { result ≡ true → length pool.now.items + (count + more) ≤ vec_capacity pool.now }
{
    let room = pool.capacity() - pool.len();
    count <= room && more <= room - count
}

/// Puts all elements of a collection at the pool's end.
#[inline(never)]
pub(crate) fn push_all(lists: Lists<'_>, pool: &mut Vec<Slot>, source: Slot)
    requires within { IsInHome (lists_in lists) (length pool.old.items) source }
    requires room { length pool.old.items + source.count ≤ vec_capacity pool.old }
    ensures items { pool.new.items ≡ pool.old.items ++
        held_slots (lists_in lists.entry) pool.old.items source }
    ensures capacity { vec_capacity pool.new ≡ vec_capacity pool.old }
{
    for index in 0..source.count {
        let slot = element(lists, pool, source, index);
        pool.push_reserved(slot);
    }
}

/// Sorts slots. (Kinds that are compared by the same word have a sort of their own for it.)
#[inline(never)]
fn sort_slots(lists: Lists<'_>, slots: &mut [Slot], kind: WrittenScalar)
    ensures { IsPermutation slots.old slots.new }
{
    match kind {
        WrittenScalar::Void | WrittenScalar::Boolean | WrittenScalar::Integer => {
            slots.sort_unstable_by(|a, b| compare_slots(lists, WrittenScalar::Integer, *a, *b));
        }
        WrittenScalar::String => {
            slots.sort_unstable_by(|a, b| compare_slots(lists, WrittenScalar::String, *a, *b));
        }
        WrittenScalar::Enumeration(_) | WrittenScalar::Class(_) | WrittenScalar::AnyObject => {
            slots.sort_unstable_by(|a, b| compare_slots(lists, WrittenScalar::AnyObject, *a, *b));
        }
    }
}

/// Sorts a part of the pool in its place.
pub(crate) fn sort_part(lists: Lists<'_>, pool: &mut Vec<Slot>, kind: WrittenScalar, part: Slot)
    requires pool { home_named part.list ≡ Home.Pool }
    requires within { part.start + part.count ≤ length pool.old.items }
    ensures below { take part.start pool.new.items ≡ take part.start pool.old.items }
    ensures long { length pool.new.items ≡ length pool.old.items }
    ensures capacity { vec_capacity pool.new ≡ vec_capacity pool.old }
    ensures moved { IsPermutation (held_slots (lists_in lists.entry) pool.old.items part)
        (held_slots (lists_in lists.entry) pool.new.items part) }
{
    let end = part.start + part.count;
    sort_slots(lists, &mut pool[part.start..end], kind);
}

/// Puts a sorted copy of a collection at the pool's end, and gives it as a collection.
pub(crate) fn push_sorted(
    lists: Lists<'_>,
    pool: &mut Vec<Slot>,
    kind: WrittenScalar,
    source: Slot,
) -> Slot
    requires within { IsInHome (lists_in lists) (length pool.old.items) source }
    requires room { length pool.old.items + source.count ≤ vec_capacity pool.old }
    ensures copy { IsCopyOf (lists_in lists.entry) pool.old.items source pool.new.items result }
    ensures long { length pool.new.items ≡ length pool.old.items + source.count }
    ensures capacity { vec_capacity pool.new ≡ vec_capacity pool.old }
{
    let start = pool.len();
    push_all(lists, pool, source);
    sort_slots(lists, &mut pool[start..], kind);
    part_slot(2, start, source.count)
}

/// Cuts the pool back to a place, with a range that lies past it moved down to there.
pub fn move_down(pool: &mut Vec<Slot>, at: usize, start: usize, count: usize)
    requires past { at ≤ start }
    requires there { start + count ≤ length pool.old.items }
    ensures items { pool.new.items ≡ take at pool.old.items ++
        slice_range pool.old.items start (start + count) }
    ensures capacity { vec_capacity pool.new ≡ vec_capacity pool.old }
{
    pool.copy_within(start..start + count, at);
    pool.truncate(at + count);
}
