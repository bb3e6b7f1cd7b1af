//! What the features of a class's objects may be: its own, and those of the classes above it.

use crate::features::{feature_schema, is_required, reference};
use crate::superclasses::superclasses;
use explain_names::class_name;
use imkl_model::{ClassModel, ClassNo, FeatureNo};
use serde_json::{Map, Value, json};
use std::alloc::{AllocError, Global};

/// The features that a class owns: what each may be, by its name, and the names of those that can't be left out.
#[derive(Drop)]
pub(crate) struct OwnFeatures {
    members: Map<String, Value>,
    required: Vec<Value>,
}

impl OwnFeatures {
    fn new(alloc: Global) -> OwnFeatures {
        OwnFeatures {
            members: Map::new(alloc),
            required: Vec::new(alloc),
        }
    }

    fn add(&mut self, alloc: Global, name: &str, schema: Value) -> Result<(), AllocError> {
        self.members.insert(String::from_str(alloc, name)?, schema)?;
        Ok(())
    }

    fn require(&mut self, alloc: Global, name: &str) -> Result<(), AllocError> {
        let name = Value::String(String::from_str(alloc, name)?);
        self.required.push(name)?;
        Ok(())
    }
}

/// The features that each class owns, by the class's number.
pub(crate) fn own_features(
    alloc: Global,
    model: &ClassModel,
) -> Result<Vec<OwnFeatures>, AllocError> {
    let mut owned = Vec::new(alloc);
    for _ in 0..model.class_count() {
        owned.push(OwnFeatures::new(alloc))?;
    }
    for index in 0..model.feature_count() {
        let info = model.feature_info(FeatureNo::new(index));
        let schema = feature_schema(alloc, model, info)?;
        let name = info.name.as_str();
        if let Some(own) = owned.get_mut(info.owner.index()) {
            own.add(alloc, name, schema)?;
            if is_required(info) {
                own.require(alloc, name)?;
            }
        }
    }
    Ok(owned)
}

/// That the features are a JSON object, and have what those of each class right above a class have.
fn inherited(alloc: Global, model: &ClassModel, class: ClassNo) -> Result<Value, AllocError> {
    let mut references = Vec::new(alloc);
    references.push(json!(in alloc; {"type": "object"})?)?;
    for above in superclasses(alloc, model, class)? {
        references.push(reference(alloc, "class", class_name(model, above))?)?;
    }
    Ok(Value::Array(references))
}

/// What the features of a class's objects may be, those of the classes above it by reference.
pub(crate) fn class_schema(
    alloc: Global,
    model: &ClassModel,
    class: ClassNo,
    own: OwnFeatures,
) -> Result<Value, AllocError> {
    let OwnFeatures { members, required } = own;
    let inherited = inherited(alloc, model, class)?;
    let (members, required) = (Value::Object(members), Value::Array(required));
    json!(in alloc; {
        "allOf": inherited,
        "properties": members,
        "required": required
    })
}
