//! The classes right above a class.

use explain_names::is_class_below;
use imkl_model::{ClassModel, ClassNo};
use std::alloc::{AllocError, Global};

/// Whether one of some classes is another class, or below it.
fn is_one_below(model: &ClassModel, classes: &[ClassNo], above: ClassNo) -> bool {
    classes.iter().any(|it| is_class_below(model, *it, above))
}

/// Those of some classes that a class isn't below.
fn not_above(
    alloc: Global,
    model: &ClassModel,
    classes: &[ClassNo],
    class: ClassNo,
) -> Result<Vec<ClassNo>, AllocError> {
    let mut left = Vec::new(alloc);
    for it in classes {
        if !is_class_below(model, class, *it) {
            left.push(*it)?;
        }
    }
    Ok(left)
}

/// The classes above a class that are above no other of them, so that what these have is all that it inherits.
pub(crate) fn superclasses(
    alloc: Global,
    model: &ClassModel,
    class: ClassNo,
) -> Result<Vec<ClassNo>, AllocError> {
    let mut nearest = Vec::new(alloc);
    for index in 0..model.class_count() {
        let above = ClassNo::new(index);
        let is_above = above != class && is_class_below(model, class, above);
        if is_above && !is_one_below(model, &nearest, above) {
            nearest = not_above(alloc, model, &nearest, above)?;
            nearest.push(above)?;
        }
    }
    Ok(nearest)
}
