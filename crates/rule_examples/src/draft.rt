//! Deliveries that are being made.

use imkl_model::{ClassNo, FeatureNo};
use std::alloc::{AllocError, Global};

/// A value of a feature.
#[derive(Clone, Copy, PartialEq, Eq)]
pub(crate) enum DraftValue {
    Boolean(bool),
    Integer(i64),
    /// A text of the rule's constants, by its number.
    Text(usize),
    /// A literal of the feature's enumeration, by its number.
    Literal(usize),
    /// An object, by its index.
    Object(usize),
}

/// That a feature of an object has a value.
#[derive(Clone, Copy)]
pub(crate) struct Fact {
    pub(crate) object: usize,
    pub(crate) feature: FeatureNo,
    pub(crate) value: DraftValue,
}

/// A delivery: the classes of its objects, and what is written of them.
#[derive(Drop)]
pub(crate) struct Draft {
    pub(crate) classes: Vec<ClassNo>,
    pub(crate) facts: Vec<Fact>,
}

impl Draft {
    pub(crate) fn new(alloc: Global) -> Draft {
        Draft {
            classes: Vec::new(alloc),
            facts: Vec::new(alloc),
        }
    }

    pub(crate) fn copy(&self, alloc: Global) -> Result<Draft, AllocError> {
        Ok(Draft {
            classes: Vec::from_slice(alloc, &self.classes)?,
            facts: Vec::from_slice(alloc, &self.facts)?,
        })
    }

    pub(crate) fn object_count(&self) -> usize {
        self.classes.len()
    }

    pub(crate) fn class_of(&self, object: usize) -> Option<ClassNo> {
        self.classes.get(object).copied()
    }

    /// Whether a feature of an object has a value.
    pub(crate) fn has_value(&self, object: usize, feature: FeatureNo, value: DraftValue) -> bool {
        self.facts.iter().any(|it| it.object == object
            && it.feature == feature
            && it.value == value)
    }

    /// How many values a feature of an object has.
    pub(crate) fn value_count(&self, object: usize, feature: FeatureNo) -> usize {
        self.facts
            .iter()
            .filter(|it| it.object == object && it.feature == feature)
            .count()
    }

    /// How many objects hold another by a feature.
    pub(crate) fn holder_count(&self, held: usize, feature: FeatureNo) -> usize {
        self.facts
            .iter()
            .filter(|it| it.feature == feature && it.value == DraftValue::Object(held))
            .count()
    }

    pub(crate) fn remove_fact(&mut self, index: usize) {
        if index < self.facts.len() {
            self.facts.remove(index);
        }
    }

    /// The delivery without an object, and without what is written of it.
    pub(crate) fn without(&self, alloc: Global, object: usize) -> Result<Draft, AllocError> {
        let mut draft = Draft::new(alloc);
        for (index, class) in self.classes.iter().enumerate() {
            if index != object {
                draft.classes.push(*class)?;
            }
        }
        for fact in &self.facts {
            if let Some(kept) = fact.without(object) {
                draft.facts.push(kept)?;
            }
        }
        Ok(draft)
    }
}

impl Fact {
    /// The fact where an object is left out; none of a fact about it.
    fn without(self, object: usize) -> Option<Fact> {
        let value = match self.value {
            DraftValue::Object(held) => DraftValue::Object(moved(held, object)?),
            other => other,
        };
        Some(Fact {
            object: moved(self.object, object)?,
            value,
            ..self
        })
    }
}

/// The index of an object where another is left out.
fn moved(index: usize, left_out: usize) -> Option<usize> {
    if index == left_out {
        None
    } else if index > left_out {
        Some(index.saturating_sub(1))
    } else {
        Some(index)
    }
}
