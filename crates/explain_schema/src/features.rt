//! What a feature's member may be.

use explain_names::{class_name, enumeration_name, feature_info};
use imkl_model::{ClassModel, ElementType, FeatureInfo, FeatureNo, Role};
use serde_json::{Value, json};
use std::alloc::{AllocError, Global};

/// Where the schema defines something of this sort, by its name.
pub(crate) fn path_of(alloc: Global, sort: &str, name: &str) -> Result<String, AllocError> {
    format!(in alloc; "#/$defs/{sort}.{name}")
}

/// A reference to a definition of the schema: of something of this sort, by its name.
pub(crate) fn reference(alloc: Global, sort: &str, name: &str) -> Result<Value, AllocError> {
    let path = path_of(alloc, sort, name)?;
    json!(in alloc; {"$ref": path})
}

/// What one element may be.
fn element_schema(
    alloc: Global,
    model: &ClassModel,
    element: ElementType,
) -> Result<Value, AllocError> {
    match element {
        ElementType::Boolean => json!(in alloc; {"type": "boolean"}),
        ElementType::Integer => json!(in alloc; {"$ref": "#/$defs/integer"}),
        ElementType::String => json!(in alloc; {"type": "string"}),
        ElementType::Enumeration(enumeration) => {
            reference(alloc, "enumeration", enumeration_name(model, enumeration))
        }
        ElementType::Class(_) => json!(in alloc; {"$ref": "#/$defs/id"}),
    }
}

/// What a list of elements may be.
fn list_schema(alloc: Global, element: Value, info: &FeatureInfo) -> Result<Value, AllocError> {
    let (lower, unique) = (info.lower, info.is_unique());
    match info.upper {
        Some(upper) => json!(in alloc; {
            "type": "array",
            "items": element,
            "minItems": lower,
            "maxItems": upper,
            "uniqueItems": unique
        }),
        None => json!(in alloc; {
            "type": "array",
            "items": element,
            "minItems": lower,
            "uniqueItems": unique
        }),
    }
}

/// What one element is called.
fn element_words(
    alloc: Global,
    model: &ClassModel,
    element: ElementType,
) -> Result<String, AllocError> {
    match element {
        ElementType::Boolean => String::from_str(alloc, "Boolean"),
        ElementType::Integer => String::from_str(alloc, "Integer"),
        ElementType::String => String::from_str(alloc, "String"),
        ElementType::Enumeration(enumeration) => {
            String::from_str(alloc, enumeration_name(model, enumeration))
        }
        ElementType::Class(class) => {
            let name = class_name(model, class);
            format!(in alloc; "the id of an object of {name}")
        }
    }
}

/// A feature in words: what its elements are, and how many it has.
fn words(alloc: Global, model: &ClassModel, info: &FeatureInfo) -> Result<String, AllocError> {
    let element = element_words(alloc, model, info.element)?;
    let lower = info.lower;
    match info.upper {
        Some(upper) => format!(in alloc; "{element}, {lower}..{upper}"),
        None => format!(in alloc; "{element}, {lower}..*"),
    }
}

/// What an opposite end may be: nothing, since it follows from the source ends.
fn opposite_schema(
    alloc: Global,
    model: &ClassModel,
    source: FeatureNo,
) -> Result<Value, AllocError> {
    let (class, end) = match feature_info(model, source) {
        Some(info) => (class_name(model, info.owner), info.name.as_str()),
        None => ("", ""),
    };
    let words = format!(in alloc; "left out: it follows from {class}.{end}")?;
    json!(in alloc; {"description": words, "type": "null"})
}

/// What an attribute or a source end may be: of one element, the element alone too, and of none, `null` too.
fn written_schema(
    alloc: Global,
    model: &ClassModel,
    info: &FeatureInfo,
) -> Result<Value, AllocError> {
    let words = words(alloc, model, info)?;
    let list = list_schema(alloc, element_schema(alloc, model, info.element)?, info)?;
    let mut forms = Vec::new(alloc);
    if info.lower <= 1 {
        forms.push(element_schema(alloc, model, info.element)?)?;
    }
    forms.push(list)?;
    if info.lower == 0 {
        forms.push(json!(in alloc; {"type": "null"})?)?;
    }
    json!(in alloc; {"description": words, "anyOf": forms})
}

/// What a feature's member may be.
pub(crate) fn feature_schema(
    alloc: Global,
    model: &ClassModel,
    info: &FeatureInfo,
) -> Result<Value, AllocError> {
    match info.role {
        Role::OppositeEnd { source } => opposite_schema(alloc, model, source),
        Role::Attribute | Role::SourceEnd { .. } => written_schema(alloc, model, info),
    }
}

/// Whether a feature's member can't be left out.
pub(crate) fn is_required(info: &FeatureInfo) -> bool {
    info.lower > 0 && !info.role.is_opposite()
}
