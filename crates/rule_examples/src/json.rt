//! The text of a delivery that is being made.

use crate::constants::Constants;
use crate::draft::{Draft, DraftValue};
use crate::shapes::Shapes;
use explain_names::{class_name, feature_info, literal_name};
use explain_schema::visible_json;
use imkl_model::{ClassNo, ElementType, FeatureNo};
use serde_json::Value;
use std::alloc::{AllocError, Global};

/// The id of an object of a draft: the first letter of its class, and its number from 1.
pub(crate) fn id_of(
    alloc: Global,
    shapes: &Shapes<'_>,
    draft: &Draft,
    object: usize,
) -> Result<String, AllocError> {
    let letter = match draft.class_of(object) {
        Some(class) => class_name(shapes.model, class)
            .chars()
            .next()
            .unwrap_or('O'),
        None => 'O',
    };
    let number = object.saturating_add(1);
    format!(in alloc; "{letter}{number}")
}

/// A text as a JSON string.
fn put_string(alloc: Global, out: &mut String, text: &str) -> Result<(), AllocError> {
    let quoted = Value::String(String::from_str(alloc, text)?).to_string(alloc)?;
    out.push_str(quoted.as_str())
}

/// What a draft's text is made of.
#[derive(Clone, Copy)]
pub(crate) struct Writing<'a, 'm> {
    pub(crate) shapes: &'a Shapes<'m>,
    pub(crate) constants: &'a Constants<'a>,
    pub(crate) draft: &'a Draft,
}

impl Writing<'_, '_> {
    fn put_value(
        self,
        alloc: Global,
        out: &mut String,
        element: ElementType,
        value: DraftValue,
    ) -> Result<(), AllocError> {
        match (value, element) {
            (DraftValue::Boolean(value), _) => write!(out, "{value}"),
            (DraftValue::Integer(value), _) => write!(out, "{value}"),
            (DraftValue::Text(number), _) => put_string(alloc, out, self.constants.text(number)),
            (DraftValue::Literal(number), ElementType::Enumeration(enumeration)) => {
                put_string(
                    alloc,
                    out,
                    literal_name(self.shapes.model, enumeration, number),
                )
            }
            (DraftValue::Literal(_), _) => out.push_str("null"),
            (DraftValue::Object(object), _) => {
                put_string(
                    alloc,
                    out,
                    id_of(alloc, self.shapes, self.draft, object)?.as_str(),
                )
            }
        }
    }

    /// The values of a feature: one alone, or a list.
    fn put_feature(
        self,
        alloc: Global,
        out: &mut String,
        object: usize,
        feature: FeatureNo,
    ) -> Result<(), AllocError> {
        let count = self.draft.value_count(object, feature);
        let Some(info) = feature_info(self.shapes.model, feature) else {
            return Ok(());
        };
        if count == 0 {
            return Ok(());
        }
        if !out.ends_with('{') {
            out.push_str(", ")?;
        }
        put_string(alloc, out, info.name.as_str())?;
        let is_list = count > 1 || !info.is_single();
        out.push_str(if is_list { ": [" } else { ": " })?;
        let facts = self.draft.facts.iter();
        let values = facts.filter(|it| it.object == object && it.feature == feature);
        for (index, fact) in values.enumerate() {
            if index > 0 {
                out.push_str(", ")?;
            }
            self.put_value(alloc, out, info.element, fact.value)?;
        }
        out.push_str(if is_list { "]" } else { "" })
    }

    fn put_object(
        self,
        alloc: Global,
        out: &mut String,
        object: usize,
        class: ClassNo,
    ) -> Result<(), AllocError> {
        out.push_str(if object == 0 {
            "\n{\"id\": "
        } else {
            ",\n{\"id\": "
        })?;
        put_string(
            alloc,
            out,
            id_of(alloc, self.shapes, self.draft, object)?.as_str(),
        )?;
        out.push_str(", \"class\": ")?;
        put_string(alloc, out, class_name(self.shapes.model, class))?;
        out.push_str(", \"features\": {")?;
        for feature in self.shapes.features(class) {
            self.put_feature(alloc, out, object, *feature)?;
        }
        out.push_str("}}")
    }

    /// The delivery, an object in each line. Nothing in it steers a terminal.
    pub(crate) fn text(self, alloc: Global) -> Result<String, AllocError> {
        let mut out = String::from_str(alloc, "{\"model\": ")?;
        put_string(alloc, &mut out, self.shapes.model.name())?;
        out.push_str(", \"objects\": [")?;
        for (object, class) in self.draft.classes.iter().enumerate() {
            self.put_object(alloc, &mut out, object, *class)?;
        }
        out.push_str("]}\n")?;
        visible_json(alloc, out.as_str())
    }
}
