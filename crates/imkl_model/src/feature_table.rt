//! The features of a class model, grouped by name.

ghost use Rattle.std.specs.Prelude.{◌≡◌, ◌<◌, length, unwrap_or, IfOk};
ghost use Rattle.std.specs.Option.{option_copied};
ghost use Rattle.std.specs.BTreeMap.{get_by_text};
ghost use Rattle.imkl_model.specs.ClassModel.{feature_in, own_feature_number};
ghost use Rattle.imkl_model.specs.Held.{IsGroup, AreGroups, no_group};

use crate::feature::FeatureInfo;
use crate::feature_group::FeatureGroup;
use crate::numbers::{ClassNo, FeatureNo};
use std::alloc::{AllocError, Global};
use std::collections::BTreeMap;
use std::marker::Model;

/// Features, and a group of those of each name.
#[derive(Drop)]
pub(crate) struct FeatureTable {
    features: Vec<FeatureInfo>,
    groups: BTreeMap<String, FeatureGroup>,
}

impl Model for FeatureTable {
    ghost use Rattle.std.specs.Prelude.{List, length};
    ghost use Rattle.std.specs.BTreeMap.{get_by_text};
    ghost use Rattle.imkl_model.specs.declared.feature.FeatureInfo.{FeatureInfo};
    ghost use Rattle.imkl_model.specs.Held.{AreGroups};

    ghost Value = { List FeatureInfo };

    ghost view = { λ t. t.features.items };

    ghost invariant = { λ t. AreGroups t.features.items (length t.features.items)
        (get_by_text t.groups) };
}

impl FeatureTable {
    /// The table of these features, in a class model with this number of classes.
    pub(crate) fn new(
        alloc: Global,
        features: Vec<FeatureInfo>,
        classes: usize,
    ) -> Result<FeatureTable, AllocError>
        ensures { IfOk result (λ t. t ≡ features.items) }
    {
        let groups = groups_of(alloc, &features, classes)?;
        Ok(FeatureTable { features, groups })
    }

    /// How many there are.
    pub(crate) fn len(&self) -> usize
        ensures { result ≡ length self.now }
    {
        self.features.len()
    }

    /// All of them, by their numbers.
    pub(crate) fn entries(&self) -> &[FeatureInfo]
        ensures { result.now ≡ self.now }
    {
        self.features.as_slice()
    }

    /// The one of this number.
    pub(crate) fn at(&self, feature: FeatureNo) -> &FeatureInfo
        requires { feature < length self.now }
        ensures { result.now ≡ feature_in self.now feature }
    {
        &self.features[feature.index()]
    }

    /// The feature of this name that the class itself owns.
    pub(crate) fn own(&self, class: ClassNo, name: &str) -> Option<FeatureNo>
        ensures { result ≡ own_feature_number self.now class name.now }
    {
        self.group(name)?.own(class)
    }

    /// The group of the features of this name, if there are any.
    pub(crate) fn group(&self, name: &str) -> Option<&FeatureGroup>
        ensures { IsGroup self.now (length self.now) name.now
            (unwrap_or (option_copied result) no_group) }
    {
        self.groups.get(name)
    }
}

/// A group for each name.
fn groups_of(
    alloc: Global,
    features: &[FeatureInfo],
    classes: usize,
) -> Result<BTreeMap<String, FeatureGroup>, AllocError>
    ensures { IfOk result (λ m. AreGroups features.now (length features.now) (get_by_text m)) }
{
    let mut groups: BTreeMap<String, FeatureGroup> = BTreeMap::new(alloc);
    for (number, feature) in features.iter().enumerate() {
        let name = String::from_str(alloc, feature.name.as_str())?;
        let none = FeatureGroup::new(alloc, classes)?;
        let group = groups.entry(name)?.or_insert(none);
        let place = FeatureNo::new(number);
        group.push(feature.owner, place)?;
    }
    Ok(groups)
}
