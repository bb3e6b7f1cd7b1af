//! Collections that are made in the pool: of one value, and the Set of a collection's elements.

ghost use Rattle.std.specs.Prelude.{◌≡◌, ◌+◌, ◌≤◌, ◌++◌, List, [], length, take, true, false, not, ◌*◌, ◌<◌, IfOk, OnOk, OnErr, vec_capacity};
ghost use Rattle.ocl_base.specs.declared.collection_kind.CollectionKind.{CollectionKind};
ghost use Rattle.imkl_population.specs.Population.{Population};
ghost use Rattle.ocl_kinds.specs.declared.kind.ScalarKind.{ScalarKind};
ghost use Rattle.std.specs.List.{list_all};
ghost use Rattle.rule_values.specs.Value.{Element, is_element_in, same_element};
ghost use Rattle.rule_values.specs.Operations.{as_collection, as_set};
ghost use Rattle.ocl_base.specs.Lists.{repeats};
ghost use Rattle.rule_slots.specs.Slots.{Lists as Indexed, lists_in, home_named, held_slots, LiesInHome, IsInHome, PartIs};
ghost use Rattle.rule_slots.specs.declared.slot.Slot.{Slot as Held};
ghost use Rattle.rule_slots.specs.Operands.{is_single_operand, is_elements_operand, MadeInPool};
ghost use Rattle.rule_slots.specs.Compared.{covers, same_slots, first_ones};
ghost use Rattle.rule_slots.specs.Sorted.{IsChoice, IsSameBefore};

use crate::comparer::{Comparer, Order};
use crate::elements::{is_slot_among, repeats_slot, same_slots};
use crate::lists::Lists;
use crate::ordering::is_in_order;
use crate::placing::{first_place, push_placed};
use crate::reading::element;
use crate::slot::{Home, Slot, invalid_slot, part_slot};
use crate::sorting::{move_down, push_all, push_sorted, sort_part};
use rule_code::WrittenScalar;
use std::alloc::AllocError;

/// In a collection of at most so many elements each is compared with each, to tell which stand twice; of a longer one a copy
/// is sorted.
const SHORT: usize = 16;

/// A collection of the one value; of null it is empty.
#[inline(always)]
pub fn as_collection(pool: &mut Vec<Slot>, v: Slot) -> Result<Slot, AllocError>
    ensures made { IfOk result (λ r. (l : Indexed) (c : CollectionKind) →
        MadeInPool l pool.old.items pool.new.items is_single_operand (as_collection c) v r) }
    ensures grown { length pool.old.items ≤ length pool.new.items }
    ensures same { take (length pool.old.items) pool.new.items ≡ pool.old.items }
    ensures refused { OnErr result (pool.new.items ≡ pool.old.items) }
{
    if v.is_invalid() {
        return Ok(invalid_slot());
    }
    let start = pool.len();
    if v.is_null() {
        return Ok(part_slot(2, start, 0));
    }
    pool.reserve(1)?;
    pool.push_reserved(v);
    Ok(part_slot(2, start, 1))
}

/// Puts each element of a collection at the pool's end, where it first stands.
#[inline(never)]
fn push_first_ones(lists: Lists<'_>, pool: &mut Vec<Slot>, kind: WrittenScalar, source: Slot)
    requires within { IsInHome (lists_in lists) (length pool.old.items) source }
    requires room { length pool.old.items + source.count ≤ vec_capacity pool.old }
    ensures { pool.new.items ≡ pool.old.items ++ first_ones (same_slots (lists_in lists.entry) kind)
        [] (held_slots (lists_in lists.entry) pool.old.items source) }
{
    let opened = pool.len();
    for index in 0..source.count {
        let slot = element(lists, pool, source, index);
        let taken = part_slot(2, opened, pool.len() - opened);
        if !is_slot_among(lists, pool, kind, taken, slot) {
            pool.push_reserved(slot);
        }
    }
}

/// Whether no element of a collection stands twice, by a sorted copy. The pool stays as it was.
fn differ_by_copy(lists: Lists<'_>, pool: &mut Vec<Slot>, kind: WrittenScalar, source: Slot) -> bool
    requires within { IsInHome (lists_in lists) (length pool.old.items) source }
    requires room { length pool.old.items + source.count ≤ vec_capacity pool.old }
    ensures told { result ≡ not (repeats (same_slots (lists_in lists.entry) kind)
        (held_slots (lists_in lists.entry) pool.old.items source)) }
    ensures pool { pool.new.items ≡ pool.old.items }
    ensures capacity { vec_capacity pool.new ≡ vec_capacity pool.old }
{
    let start = pool.len();
    let copy = push_sorted(lists, pool, kind, source);
    let repeats = repeats_slot(lists, pool, kind, copy);
    pool.truncate(start);
    !repeats
}

/// Whether all elements of a collection are known to differ: they stand strictly in order, or a sorted copy of a long one
/// does. The pool stays as it was.
#[inline(never)]
fn all_differ(lists: Lists<'_>, pool: &mut Vec<Slot>, kind: WrittenScalar, source: Slot) -> bool
    requires within { IsInHome (lists_in lists) (length pool.old.items) source }
    requires room { length pool.old.items + source.count ≤ vec_capacity pool.old }
    ensures told { result ≡ true → repeats (same_slots (lists_in lists.entry) kind)
        (held_slots (lists_in lists.entry) pool.old.items source) ≡ false }
    ensures pool { pool.new.items ≡ pool.old.items }
    ensures capacity { vec_capacity pool.new ≡ vec_capacity pool.old }
{
    if is_in_order(Comparer { lists, pool, kind }, source, Order::Strict) {
        return true;
    }
    source.count > SHORT && differ_by_copy(lists, pool, kind, source)
}

/// Puts the elements of a collection at the pool's end, but those that are the same as one before them, as far as the
/// sorted copy tells that lies in the pool from an index on.
#[inline(never)]
fn push_new_ones(
    lists: Lists<'_>,
    pool: &mut Vec<Slot>,
    kind: WrittenScalar,
    source: Slot,
    copy: usize,
)
    requires within { IsInHome (lists_in lists) (length pool.old.items) source }
    requires copy { copy ≤ length pool.old.items }
    requires room { length pool.old.items + source.count ≤ vec_capacity pool.old }
    ensures chosen { IsChoice (same_slots (lists_in lists.entry) kind)
        (held_slots (lists_in lists.entry) pool.old.items source) pool.old.items pool.new.items }
    ensures long { length pool.new.items ≤ length pool.old.items + source.count }
    ensures capacity { vec_capacity pool.new ≡ vec_capacity pool.old }
{
    let opened = pool.len();
    for index in 0..source.count {
        let slot = element(lists, pool, source, index);
        let place = first_place(lists, &pool[copy..opened], kind, slot);
        if !stands_before(lists, pool, kind, source, index, place) {
            pool.push_reserved(slot);
        }
    }
}

/// Whether an element of a collection stands before another, and is the same.
#[inline(always)]
fn stands_before(
    lists: Lists<'_>,
    pool: &[Slot],
    kind: WrittenScalar,
    source: Slot,
    index: usize,
    place: usize,
) -> bool
    requires within { IsInHome (lists_in lists) (length pool.now) source }
    requires index { index < source.count }
    ensures { result ≡ true → IsSameBefore (same_slots (lists_in lists.entry) kind)
        (held_slots (lists_in lists.entry) pool.now source) index place }
{
    if place >= index {
        return false;
    }
    let slot = element(lists, pool, source, index);
    same_slots(lists, kind, slot, element(lists, pool, source, place))
}

/// Puts each element of a collection at the pool's end, where it first stands, by sorted copies.
#[inline(never)]
fn push_first_by_copy(lists: Lists<'_>, pool: &mut Vec<Slot>, kind: WrittenScalar, source: Slot)
    requires within { IsInHome (lists_in lists) (length pool.old.items) source }
    requires room { length pool.old.items + 3 * source.count ≤ vec_capacity pool.old }
    ensures { pool.new.items ≡ pool.old.items ++ first_ones (same_slots (lists_in lists.entry) kind)
        [] (held_slots (lists_in lists.entry) pool.old.items source) }
{
    let start = pool.len();
    push_placed(lists, pool, kind, source);
    let opened = pool.len();
    push_new_ones(lists, pool, kind, source, start);
    let count = pool.len() - opened;
    let differ = differ_by_copy(lists, pool, kind, part_slot(2, opened, count));
    if differ {
        move_down(pool, start, opened, count);
    } else {
        pool.truncate(start);
        push_first_ones(lists, pool, kind, source);
    }
}

/// Puts the elements of a collection at the pool's end, each once. Those of a long one in which some stand twice are found
/// by sorted copies, for which room is made.
#[inline(never)]
fn push_set(
    lists: Lists<'_>,
    pool: &mut Vec<Slot>,
    kind: WrittenScalar,
    source: Slot,
) -> Result<(), AllocError>
    requires { IsInHome (lists_in lists) (length pool.old.items) source }
    ensures items { OnOk result (pool.new.items ≡ pool.old.items ++
        first_ones (same_slots (lists_in lists.entry) kind) []
        (held_slots (lists_in lists.entry) pool.old.items source)) }
    ensures refused { OnErr result (pool.new.items ≡ pool.old.items) }
{
    pool.reserve(source.count)?;
    if all_differ(lists, pool, kind, source) {
        push_all(lists, pool, source);
        return Ok(());
    }
    let room = source.count.saturating_mul(3);
    if source.count <= SHORT || room / 3 != source.count {
        push_first_ones(lists, pool, kind, source);
        return Ok(());
    }
    pool.reserve(room)?;
    push_first_by_copy(lists, pool, kind, source);
    Ok(())
}

/// Whether an element stands twice in a part of the pool. A long one that stands in no order is sorted in its place.
#[inline(never)]
fn repeats_in_pool(lists: Lists<'_>, pool: &mut Vec<Slot>, kind: WrittenScalar, part: Slot) -> bool
    requires pool { home_named part.list ≡ Home.Pool }
    requires within { part.start + part.count ≤ length pool.old.items }
    ensures told { result ≡ repeats (same_slots (lists_in lists.entry) kind)
        (held_slots (lists_in lists.entry) pool.old.items part) }
    ensures below { take part.start pool.new.items ≡ take part.start pool.old.items }
{
    if part.count <= SHORT {
        return repeats_slot(lists, pool, kind, part);
    }
    if is_in_order(Comparer { lists, pool, kind }, part, Order::Strict) {
        return false;
    }
    sort_part(lists, pool, kind, part);
    repeats_slot(lists, pool, kind, part)
}

/// The Set of a collection's elements.
#[inline(always)]
pub fn as_set(
    lists: Lists<'_>,
    pool: &mut Vec<Slot>,
    kind: WrittenScalar,
    v: Slot,
) -> Result<Slot, AllocError>
    requires { LiesInHome (lists_in lists) (length pool.old.items) v }
    ensures made { IfOk result (λ r. (p : Population) (k : ScalarKind) → covers kind k ≡ true →
        MadeInPool (lists_in lists.entry) pool.old.items pool.new.items
        (is_elements_operand p k) as_set v r) }
    ensures grown { length pool.old.items ≤ length pool.new.items }
    ensures same { take (length pool.old.items) pool.new.items ≡ pool.old.items }
    ensures refused { OnErr result (pool.new.items ≡ pool.old.items) }
{
    if !v.is_plain() {
        return Ok(invalid_slot());
    }
    let start = pool.len();
    push_set(lists, pool, kind, v)?;
    Ok(part_slot(2, start, pool.len() - start))
}

/// Whether no two elements of a part of the pool are the same. Where they stand in no order, they may be sorted there; what
/// lies below them stays.
#[inline(always)]
pub fn are_distinct(lists: Lists<'_>, pool: &mut Vec<Slot>, kind: WrittenScalar, part: Slot) -> bool
    requires pool { home_named part.list ≡ Home.Pool }
    requires within { part.start + part.count ≤ length pool.old.items }
    ensures told { (p : Population) (k : ScalarKind) (es : List Element) → covers kind k ≡ true →
        PartIs (lists_in lists.entry) pool.old.items (length pool.old.items) part es →
        list_all (is_element_in p k) es ≡ true → result ≡ not (repeats same_element es) }
    ensures below { take part.start pool.new.items ≡ take part.start pool.old.items }
{
    !repeats_in_pool(lists, pool, kind, part)
}
