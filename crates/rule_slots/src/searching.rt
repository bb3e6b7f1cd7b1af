//! Elements of one collection, looked for in another.

ghost use Rattle.std.specs.Prelude.{◌≡◌, length, true, false};
ghost use Rattle.std.specs.List.{list_all};
ghost use Rattle.ocl_base.specs.Lists.{is_among};
ghost use Rattle.rule_slots.specs.Slots.{lists_in, held_slots, IsInHome};
ghost use Rattle.rule_slots.specs.Compared.{same_slots};
ghost use Rattle.rule_slots.specs.Ordered.{compare_slots, is_defined, may_precede, rises};
ghost use Rattle.rule_slots.specs.Sorted.{IsCopyOf};
ghost use Rattle.rule_slots.specs.Comparer.{IsHeldBy, is_ordered, IsSearchable, admits, are_held};

use crate::comparer::{Comparer, Order, Quantifier, Search};
use crate::elements::is_listed;
use crate::lists::Lists;
use crate::ordering::{is_among_ordered, is_in_order};
use crate::own_room::sorted_copies;
use crate::slot::Slot;
use crate::sorting::{has_room, push_sorted};
use rule_code::WrittenScalar;
use std::alloc::Global;

/// In a collection of at most so many elements each is looked for among all, whatever its order.
const SHORT: usize = 24;

/// For so few elements that are looked for no copy is sorted: they are found sooner one by one.
const FEW: usize = 64;

/// How elements are best looked for in a collection as it is.
#[inline(always)]
fn best_search(comparer: Comparer<'_, '_>, source: Slot) -> Search
    requires { IsHeldBy comparer source }
    ensures { IsSearchable comparer.entry result source }
{
    if source.count > SHORT && is_in_order(comparer, source, Order::Weak) {
        return Search::Binary;
    }
    Search::Linear
}

/// A collection in which so many elements are to be looked for, as it is best searched: itself; or a sorted copy at the
/// pool's end, if it is long and in no order, and there is room.
#[inline(never)]
fn searchable(
    lists: Lists<'_>,
    pool: &mut Vec<Slot>,
    kind: WrittenScalar,
    source: Slot,
    searches: usize,
) -> (Slot, Search)
    requires { IsInHome (lists_in lists) (length pool.old.items) source }
    ensures copy { IsCopyOf (lists_in lists.entry) pool.old.items source pool.new.items result.0 }
    ensures order { result.1 ≡ Search.Binary → rises is_defined (λ a b.
        may_precede false (compare_slots (lists_in lists.entry) kind a b))
        (held_slots (lists_in lists.entry) pool.new.items result.0) ≡ true }
{
    let search = best_search(Comparer { lists, pool, kind }, source);
    if source.count <= SHORT || search == Search::Binary {
        return (source, search);
    }
    if searches <= FEW || !has_room(pool, source.count, 0) {
        return (source, search);
    }
    let copy = push_sorted(lists, pool, kind, source);
    let search = best_search(Comparer { lists, pool, kind }, copy);
    (copy, search)
}

/// Whether all elements of the second collection are in the first, or none, each looked for among all of the first.
#[inline(always)]
fn are_listed_of_kind(
    comparer: Comparer<'_, '_>,
    quantifier: Quantifier,
    source: Slot,
    others: Slot,
) -> bool
    requires source { IsHeldBy comparer source }
    requires others { IsHeldBy comparer others }
    ensures { result ≡ are_held comparer.entry quantifier source others }
{
    for index in 0..others.count {
        let slot = comparer.element(others, index);
        let is_there = is_listed(comparer.lists, comparer.pool, comparer.kind, source, slot);
        if !quantifier.admits(is_there) {
            return false;
        }
    }
    true
}

/// The same. (Kinds that are compared by the same word have loops of their own for it.)
#[inline(never)]
fn are_listed(
    comparer: Comparer<'_, '_>,
    quantifier: Quantifier,
    source: Slot,
    others: Slot,
) -> bool
    requires source { IsHeldBy comparer source }
    requires others { IsHeldBy comparer others }
    ensures { result ≡ are_held comparer.entry quantifier source others }
{
    match comparer.kind {
        WrittenScalar::Void | WrittenScalar::Boolean | WrittenScalar::Integer => {
            let comparer = Comparer {
                kind: WrittenScalar::Integer,
                ..comparer
            };
            are_listed_of_kind(comparer, quantifier, source, others)
        }
        WrittenScalar::String => {
            let comparer = Comparer {
                kind: WrittenScalar::String,
                ..comparer
            };
            are_listed_of_kind(comparer, quantifier, source, others)
        }
        WrittenScalar::Enumeration(_) | WrittenScalar::Class(_) | WrittenScalar::AnyObject => {
            let comparer = Comparer {
                kind: WrittenScalar::AnyObject,
                ..comparer
            };
            are_listed_of_kind(comparer, quantifier, source, others)
        }
    }
}

/// Whether all elements of the second collection are in the first, or none. The first is in weak order.
#[inline(never)]
fn are_ordered(
    comparer: Comparer<'_, '_>,
    quantifier: Quantifier,
    source: Slot,
    others: Slot,
) -> bool
    requires source { IsHeldBy comparer source }
    requires others { IsHeldBy comparer others }
    requires order { is_ordered comparer Order.Weak source ≡ true }
    ensures { result ≡ are_held comparer.entry quantifier source others }
{
    for index in 0..others.count {
        let slot = comparer.element(others, index);
        let is_there = is_among_ordered(comparer, source, slot);
        if !quantifier.admits(is_there) {
            return false;
        }
    }
    true
}

/// Whether all elements of the second collection are in the first, or none. The first can be searched so.
#[inline(always)]
fn are_found(
    comparer: Comparer<'_, '_>,
    quantifier: Quantifier,
    source: Slot,
    search: Search,
    others: Slot,
) -> bool
    requires source { IsHeldBy comparer source }
    requires others { IsHeldBy comparer others }
    requires order { IsSearchable comparer search source }
    ensures { result ≡ are_held comparer.entry quantifier source others }
{
    match search {
        Search::Linear => are_listed(comparer, quantifier, source, others),
        Search::Binary => are_ordered(comparer, quantifier, source, others),
    }
}

/// Whether all elements of the second collection are in the first, or none, without a copy.
#[inline(never)]
pub(crate) fn are_in(
    comparer: Comparer<'_, '_>,
    quantifier: Quantifier,
    source: Slot,
    others: Slot,
) -> bool
    requires source { IsHeldBy comparer source }
    requires others { IsHeldBy comparer others }
    ensures { result ≡ are_held comparer.entry quantifier source others }
{
    let search = best_search(comparer, source);
    are_found(comparer, quantifier, source, search, others)
}

/// Whether all elements of the second collection are in the first, or none. The first can be searched so. Where both are
/// long and it is in no order, sorted copies of both are made in room of their own, unless that is refused.
#[inline(never)]
fn are_searched(
    alloc: Global,
    comparer: Comparer<'_, '_>,
    quantifier: Quantifier,
    source: Slot,
    search: Search,
    others: Slot,
) -> bool
    requires source { IsHeldBy comparer source }
    requires others { IsHeldBy comparer others }
    requires order { IsSearchable comparer search source }
    ensures { result ≡ are_held comparer.entry quantifier source others }
{
    if search == Search::Binary || source.count <= SHORT || others.count <= FEW {
        return are_found(comparer, quantifier, source, search, others);
    }
    match sorted_copies(alloc, comparer, source, others) {
        Some(copies) => {
            let copied = Comparer {
                pool: &copies.room,
                ..comparer
            };
            are_in(copied, quantifier, copies.left, copies.right)
        }
        None => are_listed(comparer, quantifier, source, others),
    }
}

/// Whether all elements of the second collection are in the first, or none. The pool stays as it was.
#[inline(never)]
pub(crate) fn are_among(
    lists: Lists<'_>,
    pool: &mut Vec<Slot>,
    kind: WrittenScalar,
    quantifier: Quantifier,
    source: Slot,
    others: Slot,
) -> bool
    requires source { IsInHome (lists_in lists) (length pool.old.items) source }
    requires others { IsInHome (lists_in lists) (length pool.old.items) others }
    ensures told { result ≡ list_all (λ x. admits quantifier (is_among
        (same_slots (lists_in lists.entry) kind)
        (held_slots (lists_in lists.entry) pool.old.items source) x))
        (held_slots (lists_in lists.entry) pool.old.items others) }
    ensures pool { pool.new.items ≡ pool.old.items }
{
    if others.count == 0 {
        return true;
    }
    if source.count == 0 {
        return quantifier.admits(false);
    }
    let start = pool.len();
    let (searched, search) = searchable(lists, pool, kind, source, others.count);
    let alloc = *pool.allocator();
    let comparer = Comparer { lists, pool, kind };
    let all = are_searched(alloc, comparer, quantifier, searched, search, others);
    pool.truncate(start);
    all
}
