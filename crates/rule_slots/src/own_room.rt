//! Sorted copies of collections in room of their own, for collections that are too long for what
//! the pool has behind its end. The room is freed as soon as they are compared. Where it is refused
//! there are no copies, and the collections are compared without them.

ghost use Rattle.std.specs.Prelude.{◌≡◌, ◌+◌, ◌≤◌, ◌++◌, length, vec_capacity, MatchOption};
ghost use Rattle.rule_slots.specs.Slots.{lists_in, held_slots, IsInHome};
ghost use Rattle.rule_slots.specs.Sorted.{IsCopyIn, AreCopies};
ghost use Rattle.rule_slots.specs.Comparer.{IsHeldBy};

use crate::comparer::Comparer;
use crate::lists::Lists;
use crate::reading::element;
use crate::slot::{Slot, part_slot};
use crate::sorting::sort_part;
use rule_code::WrittenScalar;
use std::alloc::Global;

/// Sorted copies of two collections, and the room that they are in.
#[derive(Drop)]
pub(crate) struct Copies {
    pub(crate) room: Vec<Slot>,
    pub(crate) left: Slot,
    pub(crate) right: Slot,
}

/// Puts all elements of a collection at the end of a room.
#[inline(never)]
fn push_elements(lists: Lists<'_>, pool: &[Slot], room: &mut Vec<Slot>, source: Slot)
    requires within { IsInHome (lists_in lists) (length pool.now) source }
    requires room { length room.old.items + source.count ≤ vec_capacity room.old }
    ensures items { room.new.items ≡ room.old.items ++
        held_slots (lists_in lists.entry) pool.now source }
    ensures capacity { vec_capacity room.new ≡ vec_capacity room.old }
{
    for index in 0..source.count {
        let slot = element(lists, pool, source, index);
        room.push_reserved(slot);
    }
}

/// Puts a sorted copy of a collection at the end of a room, and returns it as a collection.
fn push_copy(
    lists: Lists<'_>,
    pool: &[Slot],
    room: &mut Vec<Slot>,
    kind: WrittenScalar,
    source: Slot,
) -> Slot
    requires within { IsInHome (lists_in lists) (length pool.now) source }
    requires room { length room.old.items + source.count ≤ vec_capacity room.old }
    ensures copy { IsCopyIn (lists_in lists.entry) pool.now source room.old.items room.new.items
        result }
    ensures long { length room.new.items ≡ length room.old.items + source.count }
    ensures capacity { vec_capacity room.new ≡ vec_capacity room.old }
{
    let start = room.len();
    push_elements(lists, pool, room, source);
    let copy = part_slot(2, start, source.count);
    sort_part(lists, room, kind, copy);
    copy
}

/// Sorted copies of two collections; `None` where the room for them is refused.
#[inline(never)]
pub(crate) fn sorted_copies(
    alloc: Global,
    comparer: Comparer<'_, '_>,
    left: Slot,
    right: Slot,
) -> Option<Copies>
    requires left { IsHeldBy comparer left }
    requires right { IsHeldBy comparer right }
    ensures { MatchOption result (Unit {0}) (λ c. AreCopies (lists_in comparer.entry.lists)
        comparer.entry.pool.now left right c.room.items c.left c.right) }
{
    let Comparer { lists, pool, kind } = comparer;
    let Some(count) = left.count.checked_add(right.count) else {
        return None;
    };
    let Ok(mut room) = Vec::with_capacity(alloc, count) else {
        return None;
    };
    let left = push_copy(lists, pool, &mut room, kind, left);
    let right = push_copy(lists, pool, &mut room, kind, right);
    Some(Copies { room, left, right })
}
