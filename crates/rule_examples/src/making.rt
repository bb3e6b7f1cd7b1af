//! Drafts made at random, within the bounds of the class model.

use crate::choosing::Choices;
use crate::constants::Constants;
use crate::draft::{Draft, DraftValue, Fact};
use crate::shapes::Shapes;
use explain_names::{feature_info, is_class_below, literal_count, literal_name};
use imkl_model::{ClassNo, ElementType, EnumNo, FeatureInfo, FeatureNo, Role};
use std::alloc::{AllocError, Global};

/// The most values of a feature that are made for its lower bound.
const MAX_VALUES: usize = 64;

/// How often a literal is looked for that the rule names.
const LITERAL_TRIES: usize = 4;

/// Makes drafts.
#[derive(Drop)]
pub(crate) struct Maker<'a> {
    pub(crate) shapes: Shapes<'a>,
    pub(crate) constants: Constants<'a>,
    pub(crate) choices: Choices,
    /// The most objects of a draft.
    pub(crate) objects: usize,
}

/// Whether one value more is within an upper bound.
fn has_room(info: &FeatureInfo, count: usize) -> bool {
    match info.upper {
        Some(upper) => count < upper as usize,
        None => true,
    }
}

impl<'a> Maker<'a> {
    fn literal(&mut self, enumeration: EnumNo) -> DraftValue {
        let count = literal_count(self.shapes.model, enumeration);
        let mut number = self.choices.below(count);
        for _ in 0..LITERAL_TRIES {
            if self
                .constants
                .has_name(literal_name(self.shapes.model, enumeration, number))
            {
                break;
            }
            number = self.choices.below(count);
        }
        DraftValue::Literal(number)
    }

    /// A value of an attribute.
    fn new_value(&mut self, element: ElementType) -> Option<DraftValue> {
        match element {
            ElementType::Boolean => Some(DraftValue::Boolean(self.choices.one_in(2))),
            ElementType::Integer => {
                let number = self.choices.one_of(&self.constants.numbers)?;
                Some(DraftValue::Integer(number))
            }
            ElementType::String => {
                let count = self.constants.texts.len();
                Some(DraftValue::Text(self.choices.below(count)))
            }
            ElementType::Enumeration(enumeration) => Some(self.literal(enumeration)),
            ElementType::Class(_) => None,
        }
    }

    /// A value of an attribute that is like one that another object has, or new.
    fn value_like_others(&mut self, draft: &Draft, element: ElementType) -> Option<DraftValue> {
        let new = self.new_value(element)?;
        if !self.choices.one_in(4) {
            return Some(new);
        }
        match (new, self.choices.one_of(&draft.facts)?.value) {
            (DraftValue::Integer(_), DraftValue::Integer(other)) => Some(DraftValue::Integer(
                other,
            )),
            (DraftValue::Text(_), DraftValue::Text(other)) => Some(DraftValue::Text(other)),
            _ => Some(new),
        }
    }

    /// Writes one value more of an attribute, if there is room.
    fn add_value(
        &mut self,
        draft: &mut Draft,
        object: usize,
        feature: FeatureNo,
    ) -> Result<(), AllocError> {
        let Some(info) = feature_info(self.shapes.model, feature) else {
            return Ok(());
        };
        let Some(value) = self.value_like_others(draft, info.element) else {
            return Ok(());
        };
        let is_new = !(info.is_unique() && draft.has_value(object, feature, value));
        if is_new && has_room(info, draft.value_count(object, feature)) {
            draft.facts.push(Fact {
                object,
                feature,
                value,
            })?;
        }
        Ok(())
    }

    /// Links two objects by a source end, if their classes fit and there is room.
    fn add_link(
        &mut self,
        draft: &mut Draft,
        object: usize,
        feature: FeatureNo,
        held: usize,
    ) -> Result<(), AllocError> {
        if self.is_link(draft, object, feature, held) {
            draft.facts.push(Fact {
                object,
                feature,
                value: DraftValue::Object(held),
            })?;
        }
        Ok(())
    }

    /// Whether an object is of a class or one below it.
    fn is_of(&self, draft: &Draft, object: usize, above: ClassNo) -> bool {
        match draft.class_of(object) {
            Some(class) => is_class_below(self.shapes.model, class, above),
            None => false,
        }
    }

    /// Whether an object may be held by one more, of which this is the opposite end.
    fn may_be_held(
        &self,
        draft: &Draft,
        held: usize,
        opposite: FeatureNo,
        feature: FeatureNo,
    ) -> bool {
        match feature_info(self.shapes.model, opposite) {
            Some(info) => has_room(info, draft.holder_count(held, feature)),
            None => false,
        }
    }

    /// Whether a link is new, and fits the class model's classes and upper bounds.
    fn is_link(&self, draft: &Draft, object: usize, feature: FeatureNo, held: usize) -> bool {
        let Some(info) = feature_info(self.shapes.model, feature) else {
            return false;
        };
        let is_held = match info.role {
            Role::SourceEnd { opposite } => self.may_be_held(draft, held, opposite, feature),
            Role::Attribute | Role::OppositeEnd { .. } => false,
        };
        let is_of_class = match info.element {
            ElementType::Class(class) => self.is_of(draft, held, class),
            _ => false,
        };
        is_held
            && is_of_class
            && self.is_of(draft, object, info.owner)
            && has_room(info, draft.value_count(object, feature))
            && !draft.has_value(object, feature, DraftValue::Object(held))
    }

    /// Adds an object of a class or one below it, if there is room; its index.
    pub(crate) fn add_object(
        &mut self,
        alloc: Global,
        draft: &mut Draft,
        above: ClassNo,
    ) -> Result<Option<usize>, AllocError> {
        if draft.object_count() >= self.objects {
            return Ok(None);
        }
        let classes = self.shapes.below(alloc, above)?;
        let Some(class) = self.choices.one_of(&classes) else {
            return Ok(None);
        };
        self.shapes.learn(alloc, class)?;
        let object = draft.object_count();
        draft.classes.push(class)?;
        Ok(Some(object))
    }

    /// An object of a class for one end of a link: one that is there, or where none fits a new one.
    fn other_end(
        &mut self,
        alloc: Global,
        draft: &mut Draft,
        class: ClassNo,
    ) -> Result<Option<usize>, AllocError> {
        let count = draft.object_count();
        let begin = self.choices.below(count);
        if !self.choices.one_in(4) {
            for step in 0..count {
                let object = begin.saturating_add(step).checked_rem(count).unwrap_or(0);
                if let Some(found) = draft.class_of(object)
                    && is_class_below(self.shapes.model, found, class)
                {
                    return Ok(Some(object));
                }
            }
        }
        self.add_object(alloc, draft, class)
    }

    /// Gives a feature of an object one value more, if there is room. That of an opposite end is an object that holds this one.
    pub(crate) fn add_any(
        &mut self,
        alloc: Global,
        draft: &mut Draft,
        object: usize,
        feature: FeatureNo,
    ) -> Result<(), AllocError> {
        let Some(info) = feature_info(self.shapes.model, feature) else {
            return Ok(());
        };
        let ElementType::Class(class) = info.element else {
            return self.add_value(draft, object, feature);
        };
        let Some(other) = self.other_end(alloc, draft, class)? else {
            return Ok(());
        };
        match info.role {
            Role::OppositeEnd { source } => self.add_link(draft, other, source, object),
            Role::Attribute | Role::SourceEnd { .. } => self.add_link(
                draft, object, feature, other,
            ),
        }
    }

    /// How many values a feature of an object lacks.
    fn lacking(&self, draft: &Draft, object: usize, feature: FeatureNo) -> usize {
        let Some(info) = feature_info(self.shapes.model, feature) else {
            return 0;
        };
        let count = match info.role {
            Role::OppositeEnd { source } => draft.holder_count(object, source),
            Role::Attribute | Role::SourceEnd { .. } => draft.value_count(object, feature),
        };
        (info.lower as usize).saturating_sub(count).min(MAX_VALUES)
    }

    /// Brings the features of an object to their lower bounds, as far as that is found.
    fn complete_object(
        &mut self,
        alloc: Global,
        draft: &mut Draft,
        object: usize,
        class: ClassNo,
    ) -> Result<(), AllocError> {
        let features = Vec::from_slice(alloc, self.shapes.features(class))?;
        for feature in &features {
            for _ in 0..self.lacking(draft, object, *feature).saturating_mul(2) {
                if self.lacking(draft, object, *feature) > 0 {
                    self.add_any(alloc, draft, object, *feature)?;
                }
            }
        }
        Ok(())
    }

    /// Brings all features to their lower bounds, as far as that is found.
    pub(crate) fn complete(&mut self, alloc: Global, draft: &mut Draft) -> Result<(), AllocError> {
        for object in 0..self.objects {
            if let Some(class) = draft.class_of(object) {
                self.complete_object(alloc, draft, object, class)?;
            }
        }
        Ok(())
    }

    /// Gives some features of an object one value more than they must have.
    fn enrich(
        &mut self,
        alloc: Global,
        draft: &mut Draft,
        object: usize,
    ) -> Result<(), AllocError> {
        let Some(class) = draft.class_of(object) else {
            return Ok(());
        };
        let features = Vec::from_slice(alloc, self.shapes.features(class))?;
        for feature in &features {
            if self.choices.one_in(2) {
                self.add_any(alloc, draft, object, *feature)?;
            }
        }
        Ok(())
    }

    /// A new draft with an object of a class, and about so many objects in all.
    pub(crate) fn new_draft(
        &mut self,
        alloc: Global,
        context: ClassNo,
        size: usize,
    ) -> Result<Draft, AllocError> {
        let mut draft = Draft::new(alloc);
        self.add_object(alloc, &mut draft, context)?;
        for object in 0..size {
            if object < draft.object_count() {
                self.enrich(alloc, &mut draft, object)?;
            } else if self.choices.one_in(2) {
                self.add_object(alloc, &mut draft, context)?;
            }
        }
        self.complete(alloc, &mut draft)?;
        Ok(draft)
    }
}
