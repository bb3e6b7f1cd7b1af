//! From bytes to a class model.

ghost use Rattle.serde_json.specs.View.{view};
ghost use Rattle.ocl_base.specs.Steps.{Gives};
ghost use Rattle.imkl_model.specs.Faults.{model_fault};
ghost use Rattle.imkl_model.specs.Description.{ModelAnswers, describes_model};

use crate::checks::is_within_limits;
use crate::draft::draft_of;
use crate::duplicates::repeats_name;
use crate::fault::ModelFault;
use crate::feature_list::written_features;
use crate::model::ClassModel;
use crate::tree::written_of;
use imkl_json::tree;
use serde_json::Value;
use std::alloc::Global;

/// The class model that a JSON tree describes, or its first fault.
#[tactic(auto, unfolding(crate::specs::Description::describes_model))]
fn model_from(alloc: Global, value: &Value) -> Result<ClassModel, ModelFault>
    ensures { Gives model_fault (λ m. m) result (describes_model (view value.now)) }
{
    let written = written_of(alloc, value)?;
    let features = written_features(alloc, &written)?;
    if !is_within_limits(&written, &features) {
        return Err(ModelFault::Limit);
    }
    if repeats_name(alloc, &written, &features)? {
        return Err(ModelFault::DuplicateName);
    }
    let draft = draft_of(alloc, &written, &features)?;
    ClassModel::new(alloc, draft)
}

/// The class model that the bytes describe, or their first fault.
pub(crate) fn read(alloc: Global, bytes: &[u8]) -> Result<ClassModel, ModelFault>
    ensures { ModelAnswers bytes.now result }
{
    let value = tree(alloc, bytes)?;
    model_from(alloc, &value)
}
