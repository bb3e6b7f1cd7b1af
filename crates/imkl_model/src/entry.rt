//! What a class model lists beside its features.

use crate::items::Items;
use crate::names::Names;
use crate::numbers::{ClassNo, FeatureNo};
use ocl_base::Text;

/// An enumeration, with its literals as written.
#[derive(Drop)]
pub struct Enumeration {
    pub name: Text,
    /// The names of its literals. A literal's number is the index of its name here.
    pub literals: Names,
}

/// A class, with its direct superclasses as written.
#[derive(Drop)]
pub struct Class {
    pub name: Text,
    /// Whether no object is directly of it.
    pub is_abstract: bool,
    /// The numbers of its direct superclasses.
    pub supers: Items<ClassNo>,
}

/// A class that had another name.
#[derive(Drop)]
pub struct ClassRename {
    /// The name that the class had.
    pub old: Text,
    pub class: ClassNo,
}

/// A feature that had another name, in its owner and in each class that conforms to it.
#[derive(Drop)]
pub struct FeatureRename {
    /// The feature's owner.
    pub class: ClassNo,
    /// The name that the feature had.
    pub old: Text,
    pub feature: FeatureNo,
}
