//! Stacks that have their room before items are put on them.

ghost use Rattle.std.specs.Prelude.{◌≡◌, ℕ, ◌+◌, ◌<◌, ◌≤◌, max, List, [], ◌∷◌, length, drop, reverse, slice_get, vec_capacity, OnOk, OnErr, MatchOption, None, Some};
ghost use Rattle.ocl_base.specs.Lists.{variable_at};

use ocl_base::OutOfMemory;
use std::alloc::Global;
use std::marker::Model;

/// A stack. Contracts see its items, the topmost first, and for how many there is room.
#[derive(Drop)]
pub(crate) struct ReservedStack<T> {
    pub(crate) items: Vec<T>,
}

impl<T> Model for ReservedStack<T> {
    ghost Value = { List T × ℕ };

    ghost view = { λ s. (reverse s.items.items, vec_capacity s.items) };
}

impl<T: Drop> ReservedStack<T> {
    /// The empty stack.
    pub(crate) fn new(alloc: Global) -> Self
        ensures items { result.0 ≡ [] }
        ensures room { result.1 ≡ 0 }
    {
        ReservedStack {
            items: Vec::new(alloc),
        }
    }

    /// Makes room for `count` more items, and for no more than that.
    pub(crate) fn reserve(&mut self, count: usize) -> Result<(), OutOfMemory>
        ensures items { self.new.0 ≡ self.old.0 }
        ensures room { OnOk result (length self.new.0 + count ≤ self.new.1) }
        ensures grows { self.old.1 ≤ self.new.1 }
        ensures exact { OnOk result (self.new.1 ≡ max self.old.1 (length self.old.0 + count)) }
        ensures refused { OnErr result (self.new ≡ self.old) }
    {
        self.items.reserve_exact(count)?;
        Ok(())
    }

    /// Puts an item on top.
    #[inline(always)]
    pub(crate) fn push(&mut self, item: T)
        requires { length self.old.0 < self.old.1 }
        ensures items { self.new.0 ≡ item ∷ self.old.0 }
        ensures room { self.new.1 ≡ self.old.1 }
    {
        self.items.push_reserved(item);
    }

    /// Takes the topmost item.
    #[inline(always)]
    pub(crate) fn pop(&mut self) -> Option<T>
        ensures items { MatchOption result ((self.old.0 ≡ []) × (self.new.0 ≡ []))
            (λ x. self.old.0 ≡ x ∷ self.new.0) }
        ensures room { self.new.1 ≡ self.old.1 }
    {
        self.items.pop()
    }

    /// Takes the `count` topmost items.
    #[inline(always)]
    pub(crate) fn drop_top(&mut self, count: usize)
        ensures items { self.new.0 ≡ drop count self.old.0 }
        ensures room { self.new.1 ≡ self.old.1 }
    {
        self.items.truncate(self.items.len().saturating_sub(count));
    }

    /// Takes all items.
    pub(crate) fn clear(&mut self)
        ensures items { self.new.0 ≡ [] }
        ensures room { self.new.1 ≡ self.old.1 }
    {
        self.items.clear();
    }

    /// The item of this number, where the lowest has number 0, if it is there.
    #[inline(always)]
    pub(crate) fn from_bottom(&self, number: usize) -> Option<&T>
        ensures { MatchOption result (None ≡ variable_at self.now.0 number)
            (λ x. Some x.now ≡ variable_at self.now.0 number) }
    {
        if number < self.items.len() {
            Some(&self.items[number])
        } else {
            None
        }
    }

    /// The topmost item, if there is one.
    #[inline(always)]
    pub(crate) fn top(&self) -> Option<&T>
        ensures { MatchOption result (self.now.0 ≡ [])
            (λ x. (below : List T) × (self.now.0 ≡ x.now ∷ below)) }
    {
        self.items.last()
    }

    /// The item below the `number` topmost ones, if it is there.
    #[inline(always)]
    pub(crate) fn from_top(&self, number: usize) -> Option<&T>
        ensures { MatchOption result (None ≡ slice_get self.now.0 number)
            (λ x. Some x.now ≡ slice_get self.now.0 number) }
    {
        if number < self.items.len() {
            Some(&self.items[self.items.len() - 1 - number])
        } else {
            None
        }
    }
}
