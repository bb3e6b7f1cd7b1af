//! The features of classes that are made.

use explain_names::{belongs, is_abstract, is_class_below};
use imkl_model::{ClassModel, ClassNo, FeatureNo};
use std::alloc::{AllocError, Global};

/// The features of a class, its superclasses' too, in the class model's order.
#[derive(Drop)]
struct Shape {
    class: ClassNo,
    features: Vec<FeatureNo>,
}

/// The features of the classes that were looked up.
#[derive(Drop)]
pub(crate) struct Shapes<'m> {
    pub(crate) model: &'m ClassModel,
    known: Vec<Shape>,
}

impl<'m> Shapes<'m> {
    pub(crate) fn new(alloc: Global, model: &'m ClassModel) -> Shapes<'m> {
        Shapes {
            model,
            known: Vec::new(alloc),
        }
    }

    fn shape(&self, class: ClassNo) -> Option<&Shape> {
        self.known.iter().find(|it| it.class == class)
    }

    /// Looks up the features of a class.
    pub(crate) fn learn(&mut self, alloc: Global, class: ClassNo) -> Result<(), AllocError> {
        if self.shape(class).is_some() {
            return Ok(());
        }
        let mut features = Vec::new(alloc);
        for index in 0..self.model.feature_count() {
            let feature = FeatureNo::new(index);
            if belongs(self.model, class, feature) {
                features.push(feature)?;
            }
        }
        self.known.push(Shape { class, features })?;
        Ok(())
    }

    /// The features of a class that was looked up.
    pub(crate) fn features(&self, class: ClassNo) -> &[FeatureNo] {
        match self.shape(class) {
            Some(shape) => &shape.features,
            None => &[],
        }
    }

    /// The classes that have objects of their own and are another or below it.
    pub(crate) fn below(&self, alloc: Global, above: ClassNo) -> Result<Vec<ClassNo>, AllocError> {
        let mut classes = Vec::new(alloc);
        for index in 0..self.model.class_count() {
            let class = ClassNo::new(index);
            if is_class_below(self.model, class, above) && !is_abstract(self.model, class) {
                classes.push(class)?;
            }
        }
        Ok(classes)
    }
}
