//! The names of a class model, offered to find the one that a misspelled name may have been meant to be.

use crate::names::{belongs, literal_count, literal_name};
use explain_notes::Nearest;
use imkl_model::{ClassModel, ClassNo, EnumNo, FeatureNo};
use std::alloc::{AllocError, Global};

/// Offers the names of all classes.
pub fn offer_classes<'n>(
    alloc: Global,
    model: &'n ClassModel,
    nearest: &mut Nearest<'n>,
) -> Result<(), AllocError> {
    for index in 0..model.class_count() {
        nearest.offer(alloc, model.class_name(ClassNo::new(index)))?;
    }
    Ok(())
}

/// Offers the names of all enumerations.
pub fn offer_enumerations<'n>(
    alloc: Global,
    model: &'n ClassModel,
    nearest: &mut Nearest<'n>,
) -> Result<(), AllocError> {
    for index in 0..model.enumeration_count() {
        nearest.offer(alloc, model.enum_name(EnumNo::new(index)))?;
    }
    Ok(())
}

/// Offers the names of the features that belong to a class.
pub fn offer_features<'n>(
    alloc: Global,
    model: &'n ClassModel,
    class: ClassNo,
    nearest: &mut Nearest<'n>,
) -> Result<(), AllocError> {
    for index in 0..model.feature_count() {
        let feature = FeatureNo::new(index);
        if belongs(model, class, feature) {
            nearest.offer(alloc, model.feature_info(feature).name.as_str())?;
        }
    }
    Ok(())
}

/// Offers the names of the literals of an enumeration.
pub fn offer_literals<'n>(
    alloc: Global,
    model: &'n ClassModel,
    enumeration: EnumNo,
    nearest: &mut Nearest<'n>,
) -> Result<(), AllocError> {
    for index in 0..literal_count(model, enumeration) {
        nearest.offer(alloc, literal_name(model, enumeration, index))?;
    }
    Ok(())
}
