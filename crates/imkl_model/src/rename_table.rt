//! The old names of a class model.

ghost use Rattle.std.specs.Prelude.{◌≡◌, ◌<◌, [], false, length, map, position, option_map, slice_index_or, bytes_eq, IfOk};
ghost use Rattle.ocl_base.specs.Lists.{repeats};
ghost use Rattle.imkl_model.specs.Renames.{old_names_of, no_class_rename, no_feature_rename, feature_rename_at, feature_rename_number};
ghost use Rattle.imkl_model.specs.Groups.{model_with, model_renaming, AreDistinct};
ghost use Rattle.imkl_model.specs.Held.{alias_of};

use crate::belonging::feature_of;
use crate::class_table::ClassTable;
use crate::duplicates::distinct_names;
use crate::entry::{ClassRename, FeatureRename};
use crate::feature::{ElementType, FeatureInfo, Role};
use crate::feature_table::FeatureTable;
use crate::names::Names;
use crate::numbers::{ClassNo, FeatureNo};
use ocl_base::CollectionKind;
use std::alloc::{AllocError, Global};
use std::marker::Model;

/// The old names of classes and of features, with tables for look-ups: the old names of classes in order, and for each old
/// name of a feature a feature of that name, which its class owns.
#[derive(Drop)]
pub(crate) struct RenameTable {
    classes: Vec<ClassRename>,
    names: Names,
    features: Vec<FeatureRename>,
    aliases: FeatureTable,
}

impl Model for RenameTable {
    ghost use Rattle.imkl_model.specs.ClassModel.{Renames};
    ghost use Rattle.imkl_model.specs.Held.{RenamesHold};

    ghost Value = { Renames };

    ghost view = { λ t. record { classes = t.classes.items; features = t.features.items } };

    ghost invariant = { λ t. RenamesHold (record {
      classes = t.classes.items;
      features = t.features.items;
    }) t.names t.aliases };
}

impl RenameTable {
    /// The table of these old names, in a class model with this number of classes.
    pub(crate) fn new(
        alloc: Global,
        classes: Vec<ClassRename>,
        features: Vec<FeatureRename>,
        count: usize,
    ) -> Result<RenameTable, AllocError>
        requires { repeats bytes_eq (old_names_of classes.items) ≡ false }
        ensures { IfOk result (λ t. t ≡ record {
          classes = classes.items;
          features = features.items;
        }) }
    {
        let names = distinct_names(alloc, classes.as_slice())?;
        let aliases = aliases_of(alloc, features.as_slice())?;
        let aliases = FeatureTable::new(alloc, aliases, count)?;
        Ok(RenameTable {
            classes,
            names,
            features,
            aliases,
        })
    }

    /// The old names of classes.
    pub(crate) fn classes(&self) -> &[ClassRename]
        ensures { result.now ≡ self.now.classes }
    {
        self.classes.as_slice()
    }

    /// The old names of features.
    pub(crate) fn features(&self) -> &[FeatureRename]
        ensures { result.now ≡ self.now.features }
    {
        self.features.as_slice()
    }

    /// For each old name of a feature, a feature of that name.
    pub(crate) fn aliases(&self) -> &FeatureTable
        ensures { result.now ≡ map alias_of self.now.features }
    {
        &self.aliases
    }

    /// The class that had this name.
    pub(crate) fn class(&self, name: &str) -> Option<ClassNo>
        ensures { result ≡ option_map
            (λ i. (slice_index_or self.now.classes i no_class_rename).class)
            (position (bytes_eq name.now) (old_names_of self.now.classes)) }
    {
        let index = self.names.number_of(name)?;
        Some(self.classes[index].class)
    }

    /// The feature that had this name in the class, or in one above it.
    pub(crate) fn feature(
        &self,
        classes: &ClassTable,
        class: ClassNo,
        name: &str,
    ) -> Option<FeatureNo>
        requires class { class < length classes.now }
        requires distinct { AreDistinct classes.now (map alias_of self.now.features) }
        ensures { let m = model_renaming classes.now [] self.now in result ≡ option_map
            (λ i. (feature_rename_at m i).feature) (feature_rename_number m class name.now) }
    {
        let alias = feature_of(classes, &self.aliases, class, name)?;
        Some(self.entry(alias.index()).feature)
    }

    /// The old name of a feature at this index.
    fn entry(&self, index: usize) -> &FeatureRename
        requires { index < length self.now.features }
        ensures { result.now ≡ slice_index_or self.now.features index no_feature_rename }
    {
        &self.features[index]
    }
}

/// An old name of a feature as a feature of its class: only its name and its owner mean something.
fn alias_of(alloc: Global, rename: &FeatureRename) -> Result<FeatureInfo, AllocError>
    ensures { IfOk result (λ f. f ≡ alias_of rename.now) }
{
    Ok(FeatureInfo {
        name: rename.old.copy(alloc)?,
        owner: rename.class,
        element: ElementType::Boolean,
        lower: 0,
        upper: None,
        kind: CollectionKind::Set,
        role: Role::Attribute,
    })
}

/// The same of each.
fn aliases_of(alloc: Global, renames: &[FeatureRename]) -> Result<Vec<FeatureInfo>, AllocError>
    ensures { IfOk result (λ v. v.items ≡ map alias_of renames.now) }
{
    let mut aliases = Vec::new(alloc);
    for rename in renames {
        aliases.push(alias_of(alloc, rename)?)?;
    }
    Ok(aliases)
}
