//! What an object of a delivery may be.

use crate::features::path_of;
use explain_names::{class_name, is_abstract};
use imkl_model::{ClassModel, ClassNo};
use serde_json::{Value, json};
use std::alloc::{AllocError, Global};

/// That an object of a class has the features of that class, and no others.
fn features_of_class(alloc: Global, name: &str) -> Result<Value, AllocError> {
    let path = path_of(alloc, "class", name)?;
    json!(in alloc; {
        "if": {"properties": {"class": {"const": name}}},
        "then": {"properties": {"features": {"$ref": path, "unevaluatedProperties": false}}}
    })
}

/// What an object may be.
pub(crate) fn object_schema(alloc: Global, model: &ClassModel) -> Result<Value, AllocError> {
    let (mut names, mut cases) = (Vec::new(alloc), Vec::new(alloc));
    cases.push(json!(in alloc; {"type": "object"})?)?;
    for index in 0..model.class_count() {
        let class = ClassNo::new(index);
        if !is_abstract(model, class) {
            let name = class_name(model, class);
            names.push(Value::String(String::from_str(alloc, name)?))?;
            cases.push(features_of_class(alloc, name)?)?;
        }
    }
    let (names, cases) = (Value::Array(names), Value::Array(cases));
    json!(in alloc; {
        "properties": {
            "id": {"$ref": "#/$defs/id"},
            "class": {"enum": names},
            "features": {"type": "object"}
        },
        "required": ["id", "class", "features"],
        "additionalProperties": false,
        "allOf": cases
    })
}
