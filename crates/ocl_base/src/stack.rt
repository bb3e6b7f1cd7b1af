//! Stacks, of which contracts see the items, the topmost first.

ghost use Rattle.std.specs.Prelude.{◌≡◌, List, [], ◌∷◌, length, drop, reverse, OnOk, OnErr, MatchOption};
ghost use Rattle.ocl_base.specs.Lists.{variable_at};

use std::alloc::{AllocError, Global};
use std::marker::Model;

/// A stack.
#[derive(Drop)]
pub struct Stack<T> {
    items: Vec<T>,
}

impl<T> Model for Stack<T> {
    ghost Value = { List T };

    ghost view = { λ s. reverse s.items.items };
}

impl<T: Drop> Stack<T> {
    /// The empty stack.
    pub fn new(alloc: Global) -> Self
        ensures { result ≡ [] }
    {
        Stack {
            items: Vec::new(alloc),
        }
    }

    /// How many items there are.
    pub fn len(&self) -> usize
        ensures { result ≡ length self.now }
    {
        self.items.len()
    }

    /// Puts an item on top.
    pub fn push(&mut self, x: T) -> Result<(), AllocError>
        ensures ok { OnOk result (self.new ≡ x ∷ self.old) }
        ensures err { OnErr result (self.new ≡ self.old) }
    {
        self.items.push(x)?;
        Ok(())
    }

    /// Takes the topmost item.
    pub fn pop(&mut self) -> Option<T>
        ensures { MatchOption result ((self.old ≡ []) ×
            (self.new ≡ [])) (λ x. self.old ≡ x ∷ self.new) }
    {
        self.items.pop()
    }
}

impl<T: Copy> Stack<T> {
    /// The item of this number, where the lowest has number 0, if it is there.
    pub fn from_bottom(&self, number: usize) -> Option<T>
        ensures { result ≡ variable_at self.now number }
    {
        if number < self.items.len() {
            Some(self.items[number])
        } else {
            None
        }
    }

    /// The item that has a number of items above it, if it is there.
    pub fn from_top(&self, number: usize) -> Option<T>
        ensures { MatchOption result (drop number self.now ≡ [])
            (λ x. (below : List T) × (drop number self.now ≡ x ∷ below)) }
    {
        let len = self.items.len();
        if number < len {
            Some(self.items[len - 1 - number])
        } else {
            None
        }
    }

    /// The topmost item, if there is one.
    pub fn top(&self) -> Option<T>
        ensures { MatchOption result (self.now ≡ [])
            (λ x. (below : List T) × (self.now ≡ x ∷ below)) }
    {
        self.items.last().copied()
    }
}
