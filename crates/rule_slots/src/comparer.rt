//! What a comparison of collections needs: where elements are, of which kind, and what to compare.

ghost use Rattle.std.specs.Prelude.{◌≡◌, ◌<◌, slice_get, Some};
ghost use Rattle.rule_slots.specs.Slots.{lists_in};
ghost use Rattle.rule_slots.specs.Ordered.{compare_slots};
ghost use Rattle.rule_slots.specs.Comparer.{same_by, slots_by, IsHeldBy, is_strict, ignores_repeats, admits};

use crate::elements::same_slots;
use crate::lists::Lists;
use crate::ordering::compare_slots;
use crate::reading::element;
use crate::slot::Slot;
use rule_code::WrittenScalar;
use std::cmp::Ordering;

/// How elements of collections are compared: what slots index, and the kind of the elements.
#[derive(Clone, Copy)]
pub(crate) struct Comparer<'a, 'p> {
    /// The lists that slots index.
    pub(crate) lists: Lists<'a>,
    /// The pool, which they index too.
    pub(crate) pool: &'p [Slot],
    /// The kind of the elements.
    pub(crate) kind: WrittenScalar,
}

impl Comparer<'_, '_> {
    /// An element of a collection.
    #[inline(always)]
    pub(crate) fn element(self, source: Slot, index: usize) -> Slot
        requires within { IsHeldBy self source }
        requires index { index < source.count }
        ensures { slice_get (slots_by self.entry source) index ≡ Some result }
    {
        element(self.lists, self.pool, source, index)
    }

    /// Whether two elements are the same.
    #[inline(always)]
    pub(crate) fn is_same(self, a: Slot, b: Slot) -> bool
        ensures { result ≡ same_by self.entry a b }
    {
        same_slots(self.lists, self.kind, a, b)
    }

    /// How two elements compare: null is less than what has a value.
    #[inline(always)]
    pub(crate) fn compare(self, a: Slot, b: Slot) -> Ordering
        ensures { result ≡ compare_slots (lists_in self.entry.lists) self.entry.kind a b }
    {
        compare_slots(self.lists, self.kind, a, b)
    }
}

/// Whether all elements are to be in a collection, or none.
#[derive(Clone, Copy)]
pub(crate) enum Quantifier {
    /// All.
    All,
    /// None.
    None,
}

impl Quantifier {
    /// Whether an element that is in the collection, or isn't, is as it is to be.
    #[inline(always)]
    pub(crate) fn admits(self, is_there: bool) -> bool
        ensures { result ≡ admits self is_there }
    {
        match self {
            Quantifier::All => is_there,
            Quantifier::None => !is_there,
        }
    }
}

/// Whether equal elements may be beside each other in an order.
#[derive(Clone, Copy)]
pub(crate) enum Order {
    /// They may not: each element is less than the next one.
    Strict,
    /// They may.
    Weak,
}

/// How an element is looked for in a collection.
#[derive(Clone, Copy)]
pub(crate) enum Search {
    /// Among all elements, whatever their order.
    Linear,
    /// By halves, which needs elements in weak order.
    Binary,
}

/// Whether it counts how often an element is in a collection.
#[derive(Clone, Copy)]
pub(crate) enum Repeats {
    /// It does, as in Bags.
    Counted,
    /// It does not, as in Sets.
    Ignored,
}

impl Repeats {
    /// The order in which collections that are not the same pair by pair are not the same at all.
    #[inline(always)]
    pub(crate) fn telling_order(self) -> Order
        ensures { is_strict result ≡ ignores_repeats self }
    {
        match self {
            Repeats::Counted => Order::Weak,
            Repeats::Ignored => Order::Strict,
        }
    }
}
