//! Equal content.

ghost use Rattle.std.specs.Prelude.{◌≡◌, Decides};

use crate::entry::{Class, ClassRename, Enumeration, FeatureRename};
use crate::feature::FeatureInfo;
use crate::names::Names;
use crate::numbers::ClassNo;
use ocl_base::Text;

/// What has content to compare.
pub(crate) trait Same {
    ghost use Rattle.std.specs.Prelude.{◌≡◌, Decides};

    /// Whether both have equal content.
    fn is_same(&self, other: &Self) -> bool
        ensures { Decides result (self.now ≡ other.now) };
}

/// Whether two lists have the same elements in the same order.
pub(crate) fn all_same<T: Same>(left: &[T], right: &[T]) -> bool
    ensures { Decides result (left.now ≡ right.now) }
{
    if left.len() != right.len() {
        return false;
    }
    for i in 0..left.len() {
        if !left[i].is_same(&right[i]) {
            return false;
        }
    }
    true
}

impl Same for Text {
    fn is_same(&self, other: &Text) -> bool {
        self.same_as(other)
    }
}

impl Same for ClassNo {
    fn is_same(&self, other: &ClassNo) -> bool {
        self.index() == other.index()
    }
}

impl Same for Class {
    fn is_same(&self, other: &Class) -> bool {
        self.name.same_as(&other.name)
            && self.is_abstract == other.is_abstract
            && all_same(self.supers.as_slice(), other.supers.as_slice())
    }
}

impl Same for Enumeration {
    fn is_same(&self, other: &Enumeration) -> bool {
        self.name.same_as(&other.name) && self.literals.same_as(&other.literals)
    }
}

impl Same for ClassRename {
    fn is_same(&self, other: &ClassRename) -> bool {
        self.old.same_as(&other.old) && self.class == other.class
    }
}

impl Same for FeatureRename {
    fn is_same(&self, other: &FeatureRename) -> bool {
        self.class == other.class && self.old.same_as(&other.old) && self.feature == other.feature
    }
}

impl Same for FeatureInfo {
    fn is_same(&self, other: &FeatureInfo) -> bool {
        self.name.same_as(&other.name)
            && self.owner == other.owner
            && self.element == other.element
            && self.lower == other.lower
            && self.upper == other.upper
            && self.kind == other.kind
            && self.role == other.role
    }
}
