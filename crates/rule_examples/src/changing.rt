//! Changes of a draft, where what decides a verdict stands.

use crate::draft::{Draft, DraftValue};
use crate::making::Maker;
use explain_names::{class_name, feature_info};
use imkl_model::{ClassNo, FeatureNo, Role};
use std::alloc::{AllocError, Global};

/// How often a feature is chosen anew that an explanation doesn't name.
const NAMED_TRIES: usize = 8;

impl Maker<'_> {
    /// Whether an explanation has the name of a feature.
    fn has_name(&self, why: &str, feature: FeatureNo) -> bool {
        feature_info(self.shapes.model, feature).is_some_and(|info| why.contains(
            info.name.as_str(),
        ))
    }

    /// Whether an explanation names a feature, or the other end of the same association.
    fn is_named(&self, why: &str, feature: FeatureNo) -> bool {
        let Some(info) = feature_info(self.shapes.model, feature) else {
            return false;
        };
        let is_other_named = match info.role {
            Role::SourceEnd { opposite } => self.has_name(why, opposite),
            Role::OppositeEnd { source } => self.has_name(why, source),
            Role::Attribute => false,
        };
        is_other_named || why.contains(info.name.as_str())
    }

    /// A fact, of a feature that an explanation names if one is found.
    fn chosen_fact(&mut self, draft: &Draft, why: &str) -> usize {
        let count = draft.facts.len();
        let mut chosen = self.choices.below(count);
        for _ in 0..NAMED_TRIES {
            let feature = draft.facts.get(chosen).map(|fact| fact.feature);
            if feature.is_some_and(|it| self.is_named(why, it)) {
                break;
            }
            chosen = self.choices.below(count);
        }
        chosen
    }

    /// An object and a feature of it, one that an explanation names if one is found.
    fn chosen_feature(&mut self, draft: &Draft, why: &str) -> Option<(usize, FeatureNo)> {
        let mut chosen = None;
        for _ in 0..NAMED_TRIES {
            let object = self.choices.below(draft.object_count());
            let class = draft.class_of(object)?;
            if let Some(feature) = self.choices.one_of(self.shapes.features(class)) {
                chosen = Some((object, feature));
                if self.is_named(why, feature) {
                    break;
                }
            }
        }
        chosen
    }

    /// A number beside another.
    fn number_beside(&mut self, number: i64) -> i64 {
        match self.choices.below(3) {
            0 => number.saturating_sub(1),
            1 => number.saturating_add(1),
            _ => number.saturating_mul(2),
        }
    }

    /// Writes another value in place of one.
    fn replace(&mut self, alloc: Global, draft: &mut Draft, why: &str) -> Result<(), AllocError> {
        let index = self.chosen_fact(draft, why);
        let Some(fact) = draft.facts.get(index).copied() else {
            return Ok(());
        };
        if let DraftValue::Integer(number) = fact.value
            && self.choices.one_in(3)
        {
            let value = DraftValue::Integer(self.number_beside(number));
            if let Some(place) = draft.facts.get_mut(index) {
                place.value = value;
            }
            return Ok(());
        }
        draft.remove_fact(index);
        self.add_any(alloc, draft, fact.object, fact.feature)
    }

    /// Writes one value more.
    fn extend(&mut self, alloc: Global, draft: &mut Draft, why: &str) -> Result<(), AllocError> {
        match self.chosen_feature(draft, why) {
            Some((object, feature)) => self.add_any(alloc, draft, object, feature),
            None => Ok(()),
        }
    }

    /// A class of which the rule has objects: its context class, or one that it names.
    fn chosen_class(&mut self, context: ClassNo) -> ClassNo {
        let mut chosen = context;
        for _ in 0..NAMED_TRIES {
            let class = ClassNo::new(self.choices.below(self.shapes.model.class_count()));
            if self
                .constants
                .has_name(class_name(self.shapes.model, class))
            {
                chosen = class;
            }
        }
        if self.choices.one_in(2) {
            context
        } else {
            chosen
        }
    }

    /// The draft with one change, within the bounds of the class model as far as that is found.
    pub(crate) fn changed(
        &mut self,
        alloc: Global,
        draft: &Draft,
        context: ClassNo,
        why: &str,
    ) -> Result<Draft, AllocError> {
        let mut changed = draft.copy(alloc)?;
        match self.choices.below(10) {
            0 | 1 => {
                let index = self.chosen_fact(&changed, why);
                changed.remove_fact(index);
            }
            2 | 3 => self.extend(alloc, &mut changed, why)?,
            4 => {
                let class = self.chosen_class(context);
                self.add_object(alloc, &mut changed, class)?;
            }
            5 => {
                let object = self.choices.below(changed.object_count());
                changed = changed.without(alloc, object)?;
            }
            _ => self.replace(alloc, &mut changed, why)?,
        }
        self.complete(alloc, &mut changed)?;
        Ok(changed)
    }
}
