//! Names that differ, numbered in their order.

ghost use Rattle.std.specs.Prelude.{◌≡◌, ◌<◌, [], not, length, map, position, bytes_eq, slice_index_or, string_bytes, is_some, IfOk, IfSome, Decides};
ghost use Rattle.ocl_base.specs.Lists.{repeats};

use crate::sorted_texts::{in_order, rank_of};
use indexmap::IndexSet;
use std::alloc::{AllocError, Global};
use std::marker::Model;

/// Names that differ, in their order.
///
/// A name is looked up by the order of bytes, and then by its rank. Only ranks are hashed, so no choice of names makes
/// their hashes collide.
#[derive(Drop)]
pub struct Names {
    /// The names in order of their bytes.
    sorted: Vec<String>,
    /// The rank of each name among these.
    ranks: IndexSet<usize>,
}

impl Model for Names {
    ghost use Rattle.std.specs.Prelude.{List, ℕ, map, string_bytes};
    ghost use Rattle.imkl_model.specs.Ranks.{named, HoldsNames};

    ghost Value = { List (List ℕ) };

    ghost view = { λ n. map (named (map string_bytes n.sorted.items)) n.ranks.keys };

    ghost invariant = { λ n. HoldsNames n.sorted.items n.ranks.keys };
}

impl Names {
    /// These names in their order, if they differ.
    pub(crate) fn of(alloc: Global, texts: &[String]) -> Result<Option<Names>, AllocError>
        ensures names { IfOk result (λ found. IfSome found (λ n. n ≡ map string_bytes texts.now)) }
        ensures differ { IfOk result (λ found. is_some found
            ≡ not (repeats bytes_eq (map string_bytes texts.now))) }
    {
        let sorted = in_order(alloc, texts)?;
        let mut ranks = IndexSet::new(alloc);
        for text in texts {
            let Some(rank) = rank_of(sorted.as_slice(), text.as_str()) else {
                return Ok(None);
            };
            if !ranks.insert(rank)? {
                return Ok(None);
            }
        }
        Ok(Some(Names { sorted, ranks }))
    }

    /// The index of a name.
    pub(crate) fn number_of(&self, name: &str) -> Option<usize>
        ensures { result ≡ position (bytes_eq name.now) self.now }
    {
        match rank_of(self.sorted.as_slice(), name) {
            Some(rank) => self.ranks.get_index_of(&rank),
            None => None,
        }
    }

    /// The name at an index.
    pub(crate) fn at(&self, index: usize) -> &str
        requires { index < length self.now }
        ensures { result.now ≡ slice_index_or self.now index [] }
    {
        self.sorted[self.ranks[index]].as_str()
    }

    /// How many names there are.
    pub(crate) fn len(&self) -> usize
        ensures { result ≡ length self.now }
    {
        self.ranks.len()
    }

    /// Whether two lists have the same names in the same order.
    pub(crate) fn same_as(&self, other: &Names) -> bool
        ensures { Decides result (self.now ≡ other.now) }
    {
        if self.len() != other.len() {
            return false;
        }
        for i in 0..self.len() {
            if self.at(i) != other.at(i) {
                return false;
            }
        }
        true
    }
}
