//! The enumerations of a class model.

ghost use Rattle.std.specs.Prelude.{◌≡◌, ◌<◌, length, position, bytes_eq, slice_index_or};
ghost use Rattle.imkl_model.specs.ClassModel.{names_of_enumerations, no_enumeration};

use crate::entry::Enumeration;
use crate::names::Names;
use crate::numbers::EnumNo;
use std::marker::Model;

/// Enumerations, and their names in order.
#[derive(Drop)]
pub(crate) struct EnumerationTable {
    enumerations: Vec<Enumeration>,
    names: Names,
}

impl Model for EnumerationTable {
    ghost use Rattle.std.specs.Prelude.{◌≡◌, List};
    ghost use Rattle.imkl_model.specs.declared.entry.Enumeration.{Enumeration};
    ghost use Rattle.imkl_model.specs.ClassModel.{names_of_enumerations};

    ghost Value = { List Enumeration };

    ghost view = { λ t. t.enumerations.items };

    ghost invariant = { λ t. t.names ≡ names_of_enumerations t.enumerations.items };
}

impl EnumerationTable {
    /// The table of these enumerations.
    pub(crate) fn new(enumerations: Vec<Enumeration>, names: Names) -> EnumerationTable
        requires { names ≡ names_of_enumerations enumerations.items }
        ensures { result ≡ enumerations.items }
    {
        EnumerationTable {
            enumerations,
            names,
        }
    }

    /// How many there are.
    pub(crate) fn len(&self) -> usize
        ensures { result ≡ length self.now }
    {
        self.enumerations.len()
    }

    /// All of them, by their numbers.
    pub(crate) fn entries(&self) -> &[Enumeration]
        ensures { result.now ≡ self.now }
    {
        self.enumerations.as_slice()
    }

    /// The one of this number.
    pub(crate) fn at(&self, enumeration: EnumNo) -> &Enumeration
        requires { enumeration < length self.now }
        ensures { result.now ≡ slice_index_or self.now enumeration no_enumeration }
    {
        &self.enumerations[enumeration.index()]
    }

    /// The number of the one of this name.
    pub(crate) fn number_of(&self, name: &str) -> Option<EnumNo>
        ensures { result ≡ position (bytes_eq name.now) (names_of_enumerations self.now) }
    {
        match self.names.number_of(name) {
            Some(index) => Some(EnumNo::new(index)),
            None => None,
        }
    }
}
