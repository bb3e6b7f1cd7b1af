//! The features of one name.

ghost use Rattle.std.specs.Prelude.{◌≡◌, ◌++◌, ◌∷◌, ◌==◌, [], ℕ, IfOk, OnOk, Some, None, if◌then◌else◌};
ghost use Rattle.std.specs.Option.{option_or};
ghost use Rattle.imkl_model.specs.Held.{Group, MarksOwners, no_group, own_in};

use crate::numbers::{ClassNo, FeatureNo};
use crate::row::Row;
use std::alloc::{AllocError, Global};
use std::collections::BTreeMap;
use std::marker::Model;

/// The numbers of the features of one name, in order, and for each owner the first that it has. The owners are marked
/// in a row too, so that those above a class are found without a look at each.
#[derive(Drop)]
pub(crate) struct FeatureGroup {
    numbers: Vec<FeatureNo>,
    by_owner: BTreeMap<usize, FeatureNo>,
    owners: Row,
}

impl Model for FeatureGroup {
    ghost use Rattle.imkl_model.specs.Held.{Group, MarksOwners};

    ghost Value = { Group };

    ghost view = { λ g. record { numbers = g.numbers.items; own = g.by_owner.entries } };

    ghost invariant = { λ g. MarksOwners g.owners (record {
      numbers = g.numbers.items;
      own = g.by_owner.entries;
    }) };
}

impl FeatureGroup {
    /// No features, in a class model with this number of classes.
    pub(crate) fn new(alloc: Global, classes: usize) -> Result<FeatureGroup, AllocError>
        ensures { IfOk result (λ g. g ≡ no_group) }
    {
        Ok(FeatureGroup {
            numbers: Vec::new(alloc),
            by_owner: BTreeMap::new(alloc),
            owners: Row::new(alloc, classes)?,
        })
    }

    /// Adds a feature after the others.
    pub(crate) fn push(&mut self, owner: ClassNo, number: FeatureNo) -> Result<(), AllocError>
        ensures numbers { OnOk result (self.new.numbers ≡ self.old.numbers ++ number ∷ []) }
        ensures own { OnOk result ((c : ℕ) → own_in self.new c
            ≡ option_or (own_in self.old c) (if owner == c then Some number else None)) }
    {
        self.numbers.push(number)?;
        self.by_owner.entry(owner.index())?.or_insert(number);
        self.owners.add_within(owner.index());
        Ok(())
    }

    /// The numbers of the features, in order.
    pub(crate) fn numbers(&self) -> &[FeatureNo]
        ensures { result.now ≡ self.now.numbers }
    {
        self.numbers.as_slice()
    }

    /// The feature that the class itself has.
    pub(crate) fn own(&self, class: ClassNo) -> Option<FeatureNo>
        ensures { result ≡ own_in self.now class }
    {
        self.by_owner.get(&class.index()).copied()
    }

    /// The owners, as marks.
    pub(crate) fn owners(&self) -> &Row
        ensures { MarksOwners result.now self.now }
    {
        &self.owners
    }
}
