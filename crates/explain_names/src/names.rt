//! Reads that take any number: one that is not of the class model has nothing.

use imkl_model::{ClassModel, ClassNo, EnumNo, FeatureInfo, FeatureNo, LiteralNo};

/// The name of a class.
pub fn class_name(model: &ClassModel, class: ClassNo) -> &str {
    if class.index() < model.class_count() {
        model.class_name(class)
    } else {
        ""
    }
}

/// The name of an enumeration.
pub fn enumeration_name(model: &ClassModel, enumeration: EnumNo) -> &str {
    if enumeration.index() < model.enumeration_count() {
        model.enum_name(enumeration)
    } else {
        ""
    }
}

/// How many literals an enumeration has.
pub fn literal_count(model: &ClassModel, enumeration: EnumNo) -> usize {
    if enumeration.index() < model.enumeration_count() {
        model.literal_count(enumeration)
    } else {
        0
    }
}

/// The name of a literal, by its index.
pub fn literal_name(model: &ClassModel, enumeration: EnumNo, index: usize) -> &str {
    if enumeration.index() < model.enumeration_count() && index < model.literal_count(enumeration) {
        model.literal_name(enumeration, LiteralNo::new(index))
    } else {
        ""
    }
}

/// Whether an enumeration has a literal of this name.
pub fn is_literal(model: &ClassModel, enumeration: EnumNo, name: &str) -> bool {
    enumeration.index() < model.enumeration_count() && model.literal(enumeration, name).is_some()
}

/// A feature.
pub fn feature_info(model: &ClassModel, feature: FeatureNo) -> Option<&FeatureInfo> {
    if feature.index() < model.feature_count() {
        Some(model.feature_info(feature))
    } else {
        None
    }
}

/// The feature of a name that belongs to a class.
pub fn feature_named(model: &ClassModel, class: ClassNo, name: &str) -> Option<FeatureNo> {
    if class.index() < model.class_count() {
        model.feature(class, name)
    } else {
        None
    }
}

/// Whether a feature belongs to a class.
pub fn belongs(model: &ClassModel, class: ClassNo, feature: FeatureNo) -> bool {
    class.index() < model.class_count()
        && feature.index() < model.feature_count()
        && model.belongs(class, feature)
}

/// Whether a class is another, or below it.
pub fn is_class_below(model: &ClassModel, class: ClassNo, above: ClassNo) -> bool {
    class.index() < model.class_count()
        && above.index() < model.class_count()
        && model.conforms(class, above)
}

/// Whether a class is abstract.
pub fn is_abstract(model: &ClassModel, class: ClassNo) -> bool {
    class.index() < model.class_count() && model.is_abstract(class)
}
