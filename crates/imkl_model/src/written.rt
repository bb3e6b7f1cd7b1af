//! A class model as it is written, with names where the class model has numbers.

use crate::feature::Role;
use crate::items::Items;
use ocl_base::Text;

/// An attribute, with the name of its type.
#[derive(Drop)]
pub struct WrittenAttribute {
    pub name: Text,
    /// The name of its type: a predefined one, or an enumeration's.
    pub element: Text,
    /// The least number of values.
    pub lower: u32,
    /// The greatest number of values, if there is one.
    pub upper: Option<u32>,
    /// Whether its values have an order. Ignored where the upper bound is 1.
    pub ordered: bool,
    /// Whether no value may stand twice. Ignored where the upper bound is 1.
    pub unique: bool,
}

/// A class, with the names of its direct superclasses.
#[derive(Drop)]
pub struct WrittenClass {
    pub name: Text,
    /// Whether no object is directly of it.
    pub is_abstract: bool,
    /// The names of its direct superclasses.
    pub supers: Items<Text>,
    /// The attributes that it owns itself.
    pub attributes: Items<WrittenAttribute>,
}

/// An enumeration.
#[derive(Drop)]
pub struct WrittenEnumeration {
    pub name: Text,
    /// The names of its literals.
    pub literals: Items<Text>,
}

/// One end of an association.
#[derive(Drop)]
pub struct WrittenEnd {
    pub name: Text,
    /// The least number of objects that it holds.
    pub lower: u32,
    /// The greatest number of objects that it holds, if there is one.
    pub upper: Option<u32>,
    /// Whether its objects have an order. Ignored where the upper bound is 1.
    pub ordered: bool,
}

/// An association from a class to a class: the class `from` owns `end`, the class `to` owns `opposite`.
#[derive(Drop)]
pub struct WrittenAssociation {
    pub name: Text,
    /// The name of the class that owns `end`.
    pub from: Text,
    /// The name of the class that owns `opposite`.
    pub to: Text,
    /// The source end: it holds objects of `to`, and a delivery writes it.
    pub end: WrittenEnd,
    /// The opposite end: it holds objects of `from`, and follows from the source ends.
    pub opposite: WrittenEnd,
}

/// An old name of a class.
#[derive(Drop)]
pub struct WrittenClassRename {
    /// The name that the class had.
    pub old: Text,
    /// The name of the class.
    pub new: Text,
}

/// An old name of a feature.
#[derive(Drop)]
pub struct WrittenFeatureRename {
    /// The name of the class that owns the feature.
    pub class: Text,
    /// The name that the feature had.
    pub old: Text,
    /// The name of the feature.
    pub new: Text,
}

/// An old name.
#[derive(Drop)]
pub enum WrittenRename {
    /// Of a class.
    Class(WrittenClassRename),
    /// Of a feature.
    Feature(WrittenFeatureRename),
}

/// A class model.
#[derive(Drop)]
pub struct Written {
    /// The class model's own name.
    pub name: Text,
    pub enumerations: Items<WrittenEnumeration>,
    pub classes: Items<WrittenClass>,
    pub associations: Items<WrittenAssociation>,
    /// The old names of classes.
    pub class_renames: Items<WrittenClassRename>,
    /// The old names of features.
    pub feature_renames: Items<WrittenFeatureRename>,
}

/// A feature with names for its owner and its type: an attribute, or an end of an association.
#[derive(Drop)]
pub struct WrittenFeature {
    /// The name of the class that owns it.
    pub owner: Text,
    pub name: Text,
    /// The name of its type; for an end, of the class whose objects it holds.
    pub element: Text,
    /// The least number of elements.
    pub lower: u32,
    /// The greatest number of elements, if there is one.
    pub upper: Option<u32>,
    /// Whether its elements have an order. Ignored where the upper bound is 1.
    pub ordered: bool,
    /// Whether nothing may stand in it twice; so it is for each end. Ignored where the upper bound is 1.
    pub unique: bool,
    /// Attribute or association end.
    pub role: Role,
}
