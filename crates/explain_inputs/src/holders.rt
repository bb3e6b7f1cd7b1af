//! Which objects hold which others, as a delivery writes it at source ends.

use crate::entries::Entry;
use crate::values::values_of;
use explain_names::{belongs, feature_info};
use imkl_model::{ClassModel, FeatureNo, Role};
use serde_json::Value;
use std::alloc::{AllocError, Global};
use std::collections::BTreeMap;

/// What the source ends of a delivery write, for the opposite ends.
#[derive(Drop)]
pub(crate) struct Holders {
    /// How many objects write an object at the source end of an opposite end, by that end and the object's index.
    counts: BTreeMap<(usize, usize), usize>,
    /// The opposite ends for which an object is written that isn't there.
    lost: BTreeMap<usize, ()>,
}

impl Holders {
    /// Those of a delivery's objects; of each id the first object is known.
    pub(crate) fn of_entries(
        alloc: Global,
        model: &ClassModel,
        entries: &[Entry<'_>],
        ids: &BTreeMap<&str, usize>,
    ) -> Result<Holders, AllocError> {
        let mut holders = Holders {
            counts: BTreeMap::new(alloc),
            lost: BTreeMap::new(alloc),
        };
        for entry in entries {
            if let Some(class) = model.class(entry.class) {
                for (name, value) in entry.features {
                    if let Some(feature) = model.feature(class, name.as_str())
                        && let Some(info) = feature_info(model, feature)
                        && let Role::SourceEnd { opposite } = info.role
                        && belongs(model, class, feature)
                    {
                        holders.add(ids, opposite, value)?;
                    }
                }
            }
        }
        Ok(holders)
    }

    /// Adds an object as a holder of all that it writes at a source end.
    fn add(
        &mut self,
        ids: &BTreeMap<&str, usize>,
        opposite: FeatureNo,
        value: &Value,
    ) -> Result<(), AllocError> {
        for target in values_of(value) {
            if let Some(id) = target.as_str() {
                match ids.get(id) {
                    Some(index) => self.count_one(opposite, *index)?,
                    None => {
                        self.lost.insert(opposite.index(), ())?;
                    }
                }
            }
        }
        Ok(())
    }

    /// Counts one more holder of an object.
    fn count_one(&mut self, opposite: FeatureNo, object: usize) -> Result<(), AllocError> {
        let key = (opposite.index(), object);
        let count = self.counts.get(&key).copied().unwrap_or(0);
        self.counts.insert(key, count.saturating_add(1))?;
        Ok(())
    }

    /// How many objects hold an object, by an opposite end.
    pub(crate) fn count(&self, opposite: FeatureNo, object: usize) -> usize {
        let key = (opposite.index(), object);
        self.counts.get(&key).copied().unwrap_or(0)
    }

    /// Whether an object is written for an opposite end that isn't there.
    pub(crate) fn is_lost(&self, opposite: FeatureNo) -> bool {
        self.lost.contains_key(&opposite.index())
    }
}
