//! Texts that differ, numbered in their order.

ghost use Rattle.std.specs.Prelude.{◌≡◌, ◌++◌, ◌∷◌, [], None, length, map, position, bytes_eq, string_bytes, OnOk, OnErr};

use std::alloc::{AllocError, Global};
use std::collections::BTreeMap;
use std::marker::Model;

/// Texts that differ, numbered in the order in which they were added. A text is found by comparison, so no choice of
/// texts makes a search slow.
#[derive(Drop)]
pub(crate) struct Texts {
    texts: Vec<String>,
    numbers: BTreeMap<String, usize>,
}

impl Model for Texts {
    ghost use Rattle.std.specs.Prelude.{List, ℕ, map, bytes_eq, string_bytes};
    ghost use Rattle.std.specs.BTreeMap.{get_by_text};
    ghost use Rattle.ocl_compile.specs.NumbersView.{FindsPlaces};

    ghost Value = { List (List ℕ) };

    ghost view = { λ t. map string_bytes t.texts.items };

    ghost invariant = { λ t. FindsPlaces bytes_eq (map string_bytes t.texts.items)
        (get_by_text t.numbers) };
}

impl Texts {
    /// None yet.
    pub(crate) fn new(alloc: Global) -> Texts
        ensures { result ≡ [] }
    {
        Texts {
            texts: Vec::new(alloc),
            numbers: BTreeMap::new(alloc),
        }
    }

    /// How many there are.
    pub(crate) fn len(&self) -> usize
        ensures { result ≡ length self.now }
    {
        self.texts.len()
    }

    /// The number of a text.
    pub(crate) fn number_of(&self, text: &str) -> Option<usize>
        ensures { result ≡ position (bytes_eq text.now) self.now }
    {
        self.numbers.get(text).copied()
    }

    /// Adds a text that isn't there.
    pub(crate) fn push(&mut self, alloc: Global, text: &str) -> Result<(), AllocError>
        requires { position (bytes_eq text.now) self.now ≡ None }
        ensures ok { OnOk result (self.new ≡ self.old ++ text.now ∷ []) }
        ensures err { OnErr result (self.new ≡ self.old) }
    {
        let key = String::from_str(alloc, text)?;
        let text = String::from_str(alloc, text)?;
        self.texts.reserve(1)?;
        self.numbers.insert(key, self.texts.len())?;
        self.texts.push(text)?;
        Ok(())
    }

    /// The texts, in the order of their numbers.
    pub(crate) fn into_vec(self) -> Vec<String>
        ensures { map string_bytes result.items ≡ self }
    {
        self.texts
    }
}
