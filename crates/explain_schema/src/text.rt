//! The schema as a text.

use crate::classes::{class_schema, own_features};
use crate::objects::object_schema;
use explain_names::{class_name, literal_count, literal_name};
use explain_notes::steers;
use imkl_model::{ClassModel, ClassNo, EnumNo};
use imkl_population::{MAX_ID_LENGTH, MAX_OBJECTS};
use serde_json::{Map, Value, json};
use std::alloc::{AllocError, Global};

/// What a value of an enumeration may be.
fn enumeration_schema(
    alloc: Global,
    model: &ClassModel,
    enumeration: EnumNo,
) -> Result<Value, AllocError> {
    let mut literals = Vec::new(alloc);
    for index in 0..literal_count(model, enumeration) {
        let name = literal_name(model, enumeration, index);
        literals.push(Value::String(String::from_str(alloc, name)?))?;
    }
    json!(in alloc; {"enum": literals})
}

/// Adds the definitions of the class model's enumerations.
fn add_enumerations(
    alloc: Global,
    model: &ClassModel,
    definitions: &mut Map<String, Value>,
) -> Result<(), AllocError> {
    for index in 0..model.enumeration_count() {
        let enumeration = EnumNo::new(index);
        let name = model.enum_name(enumeration);
        let schema = enumeration_schema(alloc, model, enumeration)?;
        definitions.insert(format!(in alloc; "enumeration.{name}")?, schema)?;
    }
    Ok(())
}

/// Adds the definitions of the features of each class.
fn add_classes(
    alloc: Global,
    model: &ClassModel,
    definitions: &mut Map<String, Value>,
) -> Result<(), AllocError> {
    for (index, own) in own_features(alloc, model)?.into_iter().enumerate() {
        let class = ClassNo::new(index);
        let name = class_name(model, class);
        let schema = class_schema(alloc, model, class, own)?;
        definitions.insert(format!(in alloc; "class.{name}")?, schema)?;
    }
    Ok(())
}

/// The definitions that the schema refers to.
fn definitions(alloc: Global, model: &ClassModel) -> Result<Value, AllocError> {
    let mut definitions = Map::new(alloc);
    let pattern = format!(in alloc; "^[A-Za-z0-9._:-]{{1,{MAX_ID_LENGTH}}}$")?;
    let id = json!(in alloc; {"type": "string", "pattern": pattern})?;
    definitions.insert(String::from_str(alloc, "id")?, id)?;
    let integer = json!(in alloc; {"type": "integer", "minimum": i64::MIN, "maximum": i64::MAX})?;
    definitions.insert(String::from_str(alloc, "integer")?, integer)?;
    let object = object_schema(alloc, model)?;
    definitions.insert(String::from_str(alloc, "object")?, object)?;
    add_enumerations(alloc, model, &mut definitions)?;
    add_classes(alloc, model, &mut definitions)?;
    Ok(Value::Object(definitions))
}

/// The schema of a delivery.
fn delivery_schema(alloc: Global, model: &ClassModel) -> Result<Value, AllocError> {
    let name = model.name();
    let title = format!(in alloc; "Deliveries of the class model {name}")?;
    let definitions = definitions(alloc, model)?;
    json!(in alloc; {
        "$schema": "https://json-schema.org/draft/2020-12/schema",
        "title": title,
        "type": "object",
        "properties": {
            "model": {"const": name},
            "objects": {
                "type": "array",
                "items": {"$ref": "#/$defs/object"},
                "maxItems": MAX_OBJECTS
            }
        },
        "required": ["model", "objects"],
        "additionalProperties": false,
        "$defs": definitions
    })
}

/// A JSON text of which nothing steers a terminal: in its strings characters that would are escapes.
pub fn visible_json(alloc: Global, text: &str) -> Result<String, AllocError> {
    let mut out = String::new(alloc);
    for character in text.chars() {
        if steers(character) && character != '\n' {
            let number = u32::from(character);
            write!(out, "\\u{number:04x}")?;
        } else {
            out.push(character)?;
        }
    }
    Ok(out)
}

/// The JSON Schema (2020-12) of the deliveries of a class model, a text that ends with a line feed. Each delivery that
/// `imkl_delivery::load` takes validates. What it refuses for its shape, a kind, a number of values or a class doesn't;
/// `docs/use/schema.md` has what a schema can't say.
pub fn schema_of(alloc: Global, model: &ClassModel) -> Result<String, AllocError> {
    let schema = delivery_schema(alloc, model)?;
    let mut text = visible_json(alloc, schema.to_string_pretty(alloc)?.as_str())?;
    text.push_str("\n")?;
    Ok(text)
}
