//! The classes of a class model, with tables for look-ups.

ghost use Rattle.std.specs.Prelude.{◌≡◌, ◌<◌, ℕ, length, position, bytes_eq, slice_index_or, IfOk};
ghost use Rattle.imkl_model.specs.Chains.{is_or_reaches, reaches, is_cyclic};
ghost use Rattle.imkl_model.specs.Tables.{AreWithin, has_mark};
ghost use Rattle.imkl_model.specs.ClassModel.{supers_in, names_of_classes, no_class};

use crate::ancestors::{ancestor_rows, reaches_itself};
use crate::entry::Class;
use crate::names::Names;
use crate::numbers::ClassNo;
use crate::row::Row;
use std::alloc::{AllocError, Global};
use std::marker::Model;

/// Classes, their names in order, and the classes that each class reaches.
#[derive(Drop)]
pub(crate) struct ClassTable {
    classes: Vec<Class>,
    names: Names,
    reached: Vec<Row>,
}

impl Model for ClassTable {
    ghost use Rattle.std.specs.Prelude.{List};
    ghost use Rattle.imkl_model.specs.declared.entry.Class.{Class};
    ghost use Rattle.imkl_model.specs.Held.{ClassesHold};

    ghost Value = { List Class };

    ghost view = { λ t. t.classes.items };

    ghost invariant = { λ t. ClassesHold t.classes.items t.names t.reached.items };
}

impl ClassTable {
    /// The table of these classes.
    pub(crate) fn new(
        alloc: Global,
        classes: Vec<Class>,
        names: Names,
    ) -> Result<ClassTable, AllocError>
        requires names { names ≡ names_of_classes classes.items }
        requires supers { AreWithin (length classes.items) (supers_in classes.items) }
        ensures { IfOk result (λ t. t ≡ classes.items) }
    {
        let reached = ancestor_rows(alloc, &classes)?;
        Ok(ClassTable {
            classes,
            names,
            reached,
        })
    }

    /// How many there are.
    pub(crate) fn len(&self) -> usize
        ensures { result ≡ length self.now }
    {
        self.classes.len()
    }

    /// All of them, by their numbers.
    pub(crate) fn entries(&self) -> &[Class]
        ensures { result.now ≡ self.now }
    {
        self.classes.as_slice()
    }

    /// The one of this number.
    pub(crate) fn at(&self, class: ClassNo) -> &Class
        requires { class < length self.now }
        ensures { result.now ≡ slice_index_or self.now class no_class }
    {
        &self.classes[class.index()]
    }

    /// The number of the one of this name.
    pub(crate) fn number_of(&self, name: &str) -> Option<ClassNo>
        ensures { result ≡ position (bytes_eq name.now) (names_of_classes self.now) }
    {
        match self.names.number_of(name) {
            Some(index) => Some(ClassNo::new(index)),
            None => None,
        }
    }

    /// Whether zero or more superclass steps lead from one class to the other.
    pub(crate) fn conforms(&self, from: ClassNo, to: ClassNo) -> bool
        requires from { from < length self.now }
        requires to { to < length self.now }
        ensures { result ≡ is_or_reaches (supers_in self.now) from to }
    {
        let row = &self.reached[from.index()];
        from.index() == to.index() || row.has(to.index())
    }

    /// The classes above a class, as marks.
    pub(crate) fn above(&self, class: ClassNo) -> &Row
        requires { class < length self.now }
        ensures long { length result.now ≡ length self.now }
        ensures marks { (d : ℕ) → has_mark result.now d ≡ reaches (supers_in self.now) class d }
    {
        &self.reached[class.index()]
    }

    /// Whether a class is above itself.
    pub(crate) fn is_cyclic(&self) -> bool
        ensures { result ≡ is_cyclic (supers_in self.now) }
    {
        reaches_itself(self.reached.as_slice())
    }
}
