//! Elements of collections, compared as a kind says.

ghost use Rattle.std.specs.Prelude.{◌≡◌, ℕ, ◌+◌, ◌<◌, ◌≤◌, ◌^◌, length, drop, map, is_some, true, false, bytes_eq};
ghost use Rattle.ocl_base.specs.Lists.{is_among, repeats};
ghost use Rattle.rule_slots.specs.Slots.{lists_in, home_named, plain_mark, scalar_slot, scalar_slots, index_slot, held_slots, IsInHome};
ghost use Rattle.rule_slots.specs.Compared.{slot_bytes, same_words, same_slots, times_among};

use crate::comparer::{Comparer, Order};
use crate::lists::Lists;
use crate::ordering::is_in_order;
use crate::reading::{element, element_in, scalar_slot};
use crate::slot::{Home, Mark, Slot, home_named, index_slot};
use crate::texts::slot_bytes;
use imkl_population::{ObjectNo, Scalar};
use rule_code::WrittenScalar;

/// Whether the texts of two slots are the same.
#[inline(always)]
fn same_text(lists: Lists<'_>, a: Slot, b: Slot) -> bool
    ensures { result ≡ bytes_eq (slot_bytes (lists_in lists.entry) a)
        (slot_bytes (lists_in lists.entry) b) }
{
    slot_bytes(lists, a) == slot_bytes(lists, b)
}

/// Whether two slots that have values of a kind are the same.
#[inline(always)]
fn same_words(lists: Lists<'_>, kind: WrittenScalar, a: Slot, b: Slot) -> bool
    ensures { result ≡ same_words (lists_in lists.entry) kind a b }
{
    match kind {
        WrittenScalar::Void => a.number == b.number,
        WrittenScalar::Boolean => a.number == b.number,
        WrittenScalar::Integer => a.number == b.number,
        WrittenScalar::String => same_text(lists, a, b),
        WrittenScalar::Enumeration(_) => a.index == b.index,
        WrittenScalar::Class(_) => a.index == b.index,
        WrittenScalar::AnyObject => a.index == b.index,
    }
}

/// Whether two elements of a kind are the same.
#[inline(always)]
pub(crate) fn same_slots(lists: Lists<'_>, kind: WrittenScalar, a: Slot, b: Slot) -> bool
    ensures { result ≡ same_slots (lists_in lists.entry) kind a b }
{
    match (a.mark, b.mark) {
        (Mark::Null, Mark::Null) => true,
        (Mark::Plain, Mark::Plain) => same_words(lists, kind, a, b),
        _ => false,
    }
}

/// Whether a slot and a value of the population are the same, as elements of a kind.
#[inline(never)]
fn same_as_scalar(
    lists: Lists<'_>,
    kind: WrittenScalar,
    slot: Slot,
    index: usize,
    scalar: &Scalar,
) -> bool
    ensures { result ≡ same_slots (lists_in lists.entry) kind slot (scalar_slot index scalar.now) }
{
    same_slots(lists, kind, slot, scalar_slot(index, scalar))
}

/// The same of a slot that has a number, wherever the value stands. (It is lent, so that no loop copies it.)
#[inline(always)]
fn same_as_number(lists: Lists<'_>, slot: &Slot, scalar: &Scalar) -> bool
    requires { plain_mark slot.now.mark ≡ true }
    ensures { (index : ℕ) → result ≡ same_slots (lists_in lists.entry) WrittenScalar.Integer
        slot.now (scalar_slot index scalar.now) }
{
    match scalar {
        Scalar::Int(number) => slot.number == *number,
        other => same_as_scalar(lists, WrittenScalar::Integer, *slot, 0, other),
    }
}

/// The same of a slot that has an object.
#[inline(always)]
fn same_as_object(lists: Lists<'_>, slot: &Slot, index: usize, scalar: &Scalar) -> bool
    requires { plain_mark slot.now.mark ≡ true }
    ensures { result ≡ same_slots (lists_in lists.entry) WrittenScalar.AnyObject slot.now
        (scalar_slot index scalar.now) }
{
    match scalar {
        Scalar::Object(object) => slot.index == object.index(),
        other => same_as_scalar(lists, WrittenScalar::AnyObject, *slot, index, other),
    }
}

/// Finds a number among four of these values of the population, from an index on.
#[inline(always)]
fn find_in_four(lists: Lists<'_>, slot: &Slot, scalars: &[Scalar], index: usize) -> Option<usize>
    requires plain { plain_mark slot.now.mark ≡ true }
    requires four { index + 3 < length scalars.now }
    ensures found { (start : ℕ) → is_some result ≡ true → is_among
        (same_slots (lists_in lists.entry) WrittenScalar.Integer)
        (drop index (scalar_slots start scalars.now)) slot.now ≡ true }
    ensures none { (start : ℕ) → is_some result ≡ false → is_among
        (same_slots (lists_in lists.entry) WrittenScalar.Integer)
        (drop index (scalar_slots start scalars.now)) slot.now ≡ is_among
        (same_slots (lists_in lists.entry) WrittenScalar.Integer)
        (drop (index + 4) (scalar_slots start scalars.now)) slot.now }
{
    if same_as_number(lists, slot, &scalars[index]) {
        return Some(index);
    }
    if same_as_number(lists, slot, &scalars[index + 1]) {
        return Some(index + 1);
    }
    if same_as_number(lists, slot, &scalars[index + 2]) {
        return Some(index + 2);
    }
    if same_as_number(lists, slot, &scalars[index + 3]) {
        return Some(index + 3);
    }
    None
}

/// Finds a number among these values of the population, wherever they stand. (Four are looked at in a turn.)
#[inline(always)]
fn find_number(lists: Lists<'_>, scalars: &[Scalar], slot: Slot) -> Option<usize>
    requires { plain_mark slot.mark ≡ true }
    ensures { (start : ℕ) → is_some result ≡ is_among
        (same_slots (lists_in lists.entry) WrittenScalar.Integer)
        (scalar_slots start scalars.now) slot }
{
    let fours = scalars.len() / 4;
    for four in 0..fours {
        let found = find_in_four(lists, &slot, scalars, 4 * four);
        if found.is_some() {
            return found;
        }
    }
    for index in 4 * fours..scalars.len() {
        if same_as_number(lists, &slot, &scalars[index]) {
            return Some(index);
        }
    }
    None
}

/// Finds an object among these values of the population, of which the first has this index.
#[inline(always)]
fn find_object(lists: Lists<'_>, start: usize, scalars: &[Scalar], slot: Slot) -> Option<usize>
    requires plain { plain_mark slot.mark ≡ true }
    requires room { start + length scalars.now < 2 ^ 64 }
    ensures { is_some result ≡ is_among (same_slots (lists_in lists.entry) WrittenScalar.AnyObject)
        (scalar_slots start scalars.now) slot }
{
    for index in 0..scalars.len() {
        if same_as_object(lists, &slot, start + index, &scalars[index]) {
            return Some(index);
        }
    }
    None
}

/// Finds an element among these values of the population, of which the first has this index.
#[inline(always)]
fn find_scalar(
    lists: Lists<'_>,
    kind: WrittenScalar,
    start: usize,
    scalars: &[Scalar],
    slot: Slot,
) -> Option<usize>
    requires { start + length scalars.now < 2 ^ 64 }
    ensures { is_some result ≡ is_among (same_slots (lists_in lists.entry) kind)
        (scalar_slots start scalars.now) slot }
{
    for index in 0..scalars.len() {
        if same_slots(
            lists,
            kind,
            slot,
            scalar_slot(start + index, &scalars[index]),
        ) {
            return Some(index);
        }
    }
    None
}

/// Finds an element among these values of the population, of which the first has this index. (Numbers and objects have
/// loops of their own, which read no more of a value than that.)
#[inline(always)]
fn find_in_scalars(
    lists: Lists<'_>,
    kind: WrittenScalar,
    start: usize,
    scalars: &[Scalar],
    slot: Slot,
) -> Option<usize>
    requires { start + length scalars.now < 2 ^ 64 }
    ensures { is_some result ≡ is_among (same_slots (lists_in lists.entry) kind)
        (scalar_slots start scalars.now) slot }
{
    match (kind, slot.is_plain()) {
        (WrittenScalar::Integer, true) => find_number(lists, scalars, slot),
        (WrittenScalar::AnyObject, true) => find_object(lists, start, scalars, slot),
        _ => find_scalar(lists, kind, start, scalars, slot),
    }
}

/// Finds an element among these objects.
#[inline(always)]
fn find_in_objects(
    lists: Lists<'_>,
    kind: WrittenScalar,
    objects: &[ObjectNo],
    slot: Slot,
) -> Option<usize>
    ensures { is_some result ≡ is_among (same_slots (lists_in lists.entry) kind)
        (map index_slot objects.now) slot }
{
    for index in 0..objects.len() {
        if same_slots(lists, kind, slot, index_slot(objects[index].index())) {
            return Some(index);
        }
    }
    None
}

/// Finds an element among these slots.
#[inline(always)]
fn find_in_slots(lists: Lists<'_>, kind: WrittenScalar, slots: &[Slot], slot: Slot) -> Option<usize>
    ensures { is_some result ≡ is_among (same_slots (lists_in lists.entry) kind) slots.now slot }
{
    for index in 0..slots.len() {
        let found = slots[index];
        if same_slots(lists, kind, slot, found) {
            return Some(index);
        }
    }
    None
}

/// Finds an element in a collection from an index on, with a loop for each list.
#[inline(always)]
pub(crate) fn find_in_list(
    lists: Lists<'_>,
    pool: &[Slot],
    kind: WrittenScalar,
    source: Slot,
    first: usize,
    slot: Slot,
) -> Option<usize>
    requires first { first ≤ source.count }
    requires within { IsInHome (lists_in lists) (length pool.now) source }
    ensures { is_some result ≡ is_among (same_slots (lists_in lists.entry) kind)
        (drop first (held_slots (lists_in lists.entry) pool.now source)) slot }
{
    match home_named(source.list) {
        Home::Scalars => {
            let scalars = lists.scalars();
            let (start, end) = (source.start + first, source.start + source.count);
            find_in_scalars(lists, kind, start, &scalars[start..end], slot)
        }
        Home::Instances => {
            let instances = lists.instances();
            let (start, end) = (source.start + first, source.start + source.count);
            find_in_objects(lists, kind, &instances[start..end], slot)
        }
        Home::Pool => {
            let (start, end) = (source.start + first, source.start + source.count);
            find_in_slots(lists, kind, &pool[start..end], slot)
        }
    }
}

/// Whether an element is one of a collection, of a kind that the compiler knows where it stands: so the loop over the
/// collection is compiled for that kind alone.
#[inline(always)]
pub(crate) fn is_listed(
    lists: Lists<'_>,
    pool: &[Slot],
    kind: WrittenScalar,
    source: Slot,
    slot: Slot,
) -> bool
    requires { IsInHome (lists_in lists) (length pool.now) source }
    ensures { result ≡ is_among (same_slots (lists_in lists.entry) kind)
        (held_slots (lists_in lists.entry) pool.now source) slot }
{
    find_in_list(lists, pool, kind, source, 0, slot).is_some()
}

/// Finds an element in a collection from an index on, and gives its place from there. (Kinds that are compared by the same
/// word have loops of their own for it.)
#[inline(never)]
fn find_from(
    lists: Lists<'_>,
    pool: &[Slot],
    kind: WrittenScalar,
    source: Slot,
    first: usize,
    slot: Slot,
) -> Option<usize>
    requires first { first ≤ source.count }
    requires within { IsInHome (lists_in lists) (length pool.now) source }
    ensures { is_some result ≡ is_among (same_slots (lists_in lists.entry) kind)
        (drop first (held_slots (lists_in lists.entry) pool.now source)) slot }
{
    match kind {
        WrittenScalar::Void | WrittenScalar::Boolean | WrittenScalar::Integer => {
            find_in_list(lists, pool, WrittenScalar::Integer, source, first, slot)
        }
        WrittenScalar::String => {
            find_in_list(lists, pool, WrittenScalar::String, source, first, slot)
        }
        WrittenScalar::Enumeration(_) | WrittenScalar::Class(_) | WrittenScalar::AnyObject => {
            find_in_list(lists, pool, WrittenScalar::AnyObject, source, first, slot)
        }
    }
}

/// Whether an element is one of a collection.
pub(crate) fn is_slot_among(
    lists: Lists<'_>,
    pool: &[Slot],
    kind: WrittenScalar,
    source: Slot,
    slot: Slot,
) -> bool
    requires { IsInHome (lists_in lists) (length pool.now) source }
    ensures { result ≡ is_among (same_slots (lists_in lists.entry) kind)
        (held_slots (lists_in lists.entry) pool.now source) slot }
{
    find_from(lists, pool, kind, source, 0, slot).is_some()
}

/// How often an element stands in a collection that is a part of this list.
#[inline(always)]
fn times_in(
    home: Home,
    lists: Lists<'_>,
    pool: &[Slot],
    kind: WrittenScalar,
    source: Slot,
    slot: Slot,
) -> usize
    requires home { home_named source.list ≡ home }
    requires within { IsInHome (lists_in lists) (length pool.now) source }
    ensures { result ≡ times_among (same_slots (lists_in lists.entry) kind)
        (held_slots (lists_in lists.entry) pool.now source) slot }
{
    let mut count = 0;
    for index in 0..source.count {
        let found = element_in(home, lists, pool, source, index);
        if same_slots(lists, kind, found, slot) {
            count += 1;
        }
    }
    count
}

/// How often an element stands in a collection, with a loop for each list.
#[inline(always)]
fn times_in_list(
    lists: Lists<'_>,
    pool: &[Slot],
    kind: WrittenScalar,
    source: Slot,
    slot: Slot,
) -> usize
    requires { IsInHome (lists_in lists) (length pool.now) source }
    ensures { result ≡ times_among (same_slots (lists_in lists.entry) kind)
        (held_slots (lists_in lists.entry) pool.now source) slot }
{
    match home_named(source.list) {
        Home::Scalars => times_in(Home::Scalars, lists, pool, kind, source, slot),
        Home::Instances => times_in(Home::Instances, lists, pool, kind, source, slot),
        Home::Pool => times_in(Home::Pool, lists, pool, kind, source, slot),
    }
}

/// How often an element stands in a collection. (Kinds that are compared by the same word have loops of their own for it.)
#[inline(never)]
pub(crate) fn times_among(
    lists: Lists<'_>,
    pool: &[Slot],
    kind: WrittenScalar,
    source: Slot,
    slot: Slot,
) -> usize
    requires { IsInHome (lists_in lists) (length pool.now) source }
    ensures { result ≡ times_among (same_slots (lists_in lists.entry) kind)
        (held_slots (lists_in lists.entry) pool.now source) slot }
{
    match kind {
        WrittenScalar::Void | WrittenScalar::Boolean | WrittenScalar::Integer => {
            times_in_list(lists, pool, WrittenScalar::Integer, source, slot)
        }
        WrittenScalar::String => times_in_list(lists, pool, WrittenScalar::String, source, slot),
        WrittenScalar::Enumeration(_) | WrittenScalar::Class(_) | WrittenScalar::AnyObject => {
            times_in_list(lists, pool, WrittenScalar::AnyObject, source, slot)
        }
    }
}

/// Whether an element stands twice in a collection. In one that stands in order, but not strictly, one does.
#[inline(never)]
pub(crate) fn repeats_slot(
    lists: Lists<'_>,
    pool: &[Slot],
    kind: WrittenScalar,
    source: Slot,
) -> bool
    requires { IsInHome (lists_in lists) (length pool.now) source }
    ensures { result ≡ repeats (same_slots (lists_in lists.entry) kind)
        (held_slots (lists_in lists.entry) pool.now source) }
{
    let comparer = Comparer { lists, pool, kind };
    if is_in_order(comparer, source, Order::Strict) {
        return false;
    }
    if is_in_order(comparer, source, Order::Weak) {
        return true;
    }
    for index in 0..source.count {
        let slot = element(lists, pool, source, index);
        if find_from(lists, pool, kind, source, index + 1, slot).is_some() {
            return true;
        }
    }
    false
}
