//! Features that belong to a class.

ghost use Rattle.std.specs.Prelude.{◌≡◌, ◌<◌, length, find, All, IfSome};
ghost use Rattle.imkl_model.specs.ClassModel.{belongs, feature_number};
ghost use Rattle.imkl_model.specs.Groups.{model_with, AreOwned, AreDistinct, IsInherited};

use crate::class_table::ClassTable;
use crate::feature_group::FeatureGroup;
use crate::feature_table::FeatureTable;
use crate::numbers::{ClassNo, FeatureNo};

/// The first of some features that belongs to a class.
pub(crate) fn first_of_class(
    classes: &ClassTable,
    features: &FeatureTable,
    class: ClassNo,
    numbers: &[FeatureNo],
) -> Option<FeatureNo>
    requires class { class < length classes.now }
    requires numbers { All (λ f. f < length features.now) numbers.now }
    requires owners { AreOwned classes.now features.now }
    ensures within { IfSome result (λ f. f < length features.now) }
    ensures found { result
        ≡ find (belongs (model_with classes.now features.now) class) numbers.now }
{
    for number in numbers {
        if classes.conforms(class, features.at(*number).owner) {
            return Some(*number);
        }
    }
    None
}

/// The feature of a group that a class has from a class above it. The class has none of its own. (The row of owners has a
/// mark for each class; no invariant says so, so its length is compared, and otherwise each feature is looked at.)
pub(crate) fn feature_above(
    classes: &ClassTable,
    features: &FeatureTable,
    class: ClassNo,
    group: &FeatureGroup,
) -> Option<FeatureNo>
    requires class { class < length classes.now }
    requires numbers { All (λ f. f < length features.now) group.now.numbers }
    requires owners { AreOwned classes.now features.now }
    ensures { IsInherited (model_with classes.now features.now) class group.now result }
{
    let owners = group.owners();
    if owners.len() != classes.len() {
        return first_of_class(classes, features, class, group.numbers());
    }
    let owner = classes.above(class).common(owners)?;
    group.own(ClassNo::new(owner))
}

/// The feature of this name that belongs to the class: its own, or else that of a class above it.
pub(crate) fn feature_of(
    classes: &ClassTable,
    features: &FeatureTable,
    class: ClassNo,
    name: &str,
) -> Option<FeatureNo>
    requires class { class < length classes.now }
    requires distinct { AreDistinct classes.now features.now }
    ensures { result ≡ feature_number (model_with classes.now features.now) class name.now }
{
    let group = features.group(name)?;
    match group.own(class) {
        Some(own) => Some(own),
        None => feature_above(classes, features, class, group),
    }
}
