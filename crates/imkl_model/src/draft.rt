//! A class model before its last checks.

ghost use Rattle.std.specs.Prelude.{◌≡◌, false};
ghost use Rattle.ocl_base.specs.Steps.{Gives};
ghost use Rattle.imkl_model.specs.Faults.{model_fault};
ghost use Rattle.imkl_model.specs.Checks.{repeats_name};
ghost use Rattle.imkl_model.specs.WrittenFeatures.{written_features};
ghost use Rattle.imkl_model.specs.Numbering.{renames_in_scope, numbered_model};
ghost use Rattle.imkl_model.specs.Drafts.{model_of_draft};

use crate::class_table::ClassTable;
use crate::enumeration_table::EnumerationTable;
use crate::fault::ModelFault;
use crate::feature_table::FeatureTable;
use crate::items::Items;
use crate::numbering::{
    Scope, association_names, class_renames_of, classes_of, enumerations_of, feature_renames_of,
    features_of, scope_of,
};
use crate::rename_table::RenameTable;
use crate::written::{Written, WrittenFeature};
use ocl_base::Text;
use std::alloc::Global;

/// The parts of a class model, with numbers for names.
#[derive(Drop)]
pub(crate) struct Draft {
    pub(crate) name: Text,
    pub(crate) enumerations: EnumerationTable,
    pub(crate) classes: ClassTable,
    pub(crate) features: FeatureTable,
    pub(crate) associations: Items<Text>,
    pub(crate) renames: RenameTable,
}

/// The old names that are written, in a class model with this number of classes, or `UnknownName`.
#[tactic(auto, unfolding(crate::specs::Numbering::renames_in_scope))]
fn renames_of(
    alloc: Global,
    scope: &Scope,
    features: &FeatureTable,
    count: usize,
    written: &Written,
) -> Result<RenameTable, ModelFault>
    requires { repeats_name written.now ≡ false }
    ensures { Gives model_fault (λ t. t) result
        (renames_in_scope scope.now features.now written.now) }
{
    let old_classes = class_renames_of(alloc, scope, written.class_renames.as_slice())?;
    let old_features = feature_renames_of(
        alloc,
        scope,
        features,
        written.feature_renames.as_slice(),
    )?;
    Ok(RenameTable::new(alloc, old_classes, old_features, count)?)
}

/// The class model that is written, or `UnknownName`.
#[tactic(auto, unfolding(crate::specs::Numbering::numbered_model))]
pub(crate) fn draft_of(
    alloc: Global,
    written: &Written,
    features: &[WrittenFeature],
) -> Result<Draft, ModelFault>
    requires features { features.now ≡ written_features written.now }
    requires distinct { repeats_name written.now ≡ false }
    ensures { Gives model_fault model_of_draft result (numbered_model written.now) }
{
    let scope = scope_of(alloc, written)?;
    let classes = classes_of(alloc, &scope, written.classes.as_slice())?;
    let features = features_of(alloc, &scope, features)?;
    let features = FeatureTable::new(alloc, features, classes.len())?;
    let renames = renames_of(alloc, &scope, &features, classes.len(), written)?;
    let enumerations = enumerations_of(alloc, written.enumerations.as_slice())?;
    let associations = association_names(alloc, written.associations.as_slice())?;
    let name = written.name.copy(alloc)?;
    let classes = ClassTable::new(alloc, classes, scope.classes)?;
    let enumerations = EnumerationTable::new(enumerations, scope.enumerations);
    Ok(Draft {
        name,
        enumerations,
        classes,
        features,
        associations: Items::new(associations),
        renames,
    })
}
