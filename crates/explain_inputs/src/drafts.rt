//! A class model as its document writes it, once it has the shape of one.

use crate::places::Step;
use crate::stop::Stop;
use serde_json::Value;
use std::alloc::{AllocError, Global};

/// A class.
#[derive(Drop)]
pub(crate) struct DraftClass<'v> {
    pub(crate) name: &'v str,
    /// The names of its direct superclasses.
    pub(crate) supers: Vec<&'v str>,
}

/// Where a class model writes a feature.
#[derive(Clone, Copy, Drop)]
pub(crate) enum Written {
    /// The attribute of this index, of the class of this index.
    Attribute(usize, usize),
    /// This member of the association of this index.
    End(usize, &'static str),
}

/// A feature: an attribute, or an end of an association.
#[derive(Clone, Copy, Drop)]
pub(crate) struct DraftFeature<'v> {
    pub(crate) name: &'v str,
    /// The name of the class that owns it.
    pub(crate) owner: &'v str,
    /// The name of the type of an attribute.
    pub(crate) element: Option<&'v str>,
    pub(crate) written: Written,
    pub(crate) lower: u64,
    pub(crate) upper: Option<u64>,
}

impl DraftFeature<'_> {
    /// Something is wrong with a member of the feature, in words.
    pub(crate) fn stop(
        &self,
        alloc: Global,
        member: &'static str,
        words: String,
    ) -> Result<Stop, AllocError> {
        let last = Step::Member(member);
        match self.written {
            Written::Attribute(class, index) => {
                let (classes, attributes) = (Step::Member("classes"), Step::Member("attributes"));
                let (class, index) = (Step::Element(class), Step::Element(index));
                Stop::at(alloc, &[classes, class, attributes, index, last], words)
            }
            Written::End(index, end) => {
                let (associations, index) = (Step::Member("associations"), Step::Element(index));
                Stop::at(
                    alloc,
                    &[associations, index, Step::Member(end), last],
                    words,
                )
            }
        }
    }
}

/// Classes and features.
#[derive(Drop)]
pub(crate) struct Draft<'v> {
    pub(crate) classes: Vec<DraftClass<'v>>,
    pub(crate) features: Vec<DraftFeature<'v>>,
}

/// The values of a member that is a list.
pub(crate) fn items<'v>(value: &'v Value, member: &str) -> &'v [Value] {
    match value.get(member).and_then(Value::as_array) {
        Some(values) => values.as_slice(),
        None => &[],
    }
}

/// A member that is a text.
pub(crate) fn text<'v>(value: &'v Value, member: &str) -> &'v str {
    value.get(member).and_then(Value::as_str).unwrap_or("")
}

/// The texts of a list.
pub(crate) fn texts<'v>(alloc: Global, values: &'v [Value]) -> Result<Vec<&'v str>, AllocError> {
    let mut found = Vec::new(alloc);
    for value in values {
        if let Some(text) = value.as_str() {
            found.push(text)?;
        }
    }
    Ok(found)
}

/// The feature that a value writes, which a class owns.
fn feature<'v>(value: &'v Value, owner: &'v str, written: Written) -> DraftFeature<'v> {
    DraftFeature {
        name: text(value, "name"),
        owner,
        element: value.get("type").and_then(Value::as_str),
        written,
        lower: value.get("lower").and_then(Value::as_u64).unwrap_or(0),
        upper: value.get("upper").and_then(Value::as_u64),
    }
}

/// The classes, and the attributes of each.
fn classes_of<'v>(
    alloc: Global,
    document: &'v Value,
    draft: &mut Draft<'v>,
) -> Result<(), AllocError> {
    for (number, class) in items(document, "classes").iter().enumerate() {
        let name = text(class, "name");
        let supers = texts(alloc, items(class, "supers"))?;
        draft.classes.push(DraftClass { name, supers })?;
        for (index, attribute) in items(class, "attributes").iter().enumerate() {
            let written = Written::Attribute(number, index);
            draft.features.push(feature(attribute, name, written))?;
        }
    }
    Ok(())
}

/// The ends of an association, and the member that names the class which owns each.
const ENDS: [(&str, &str); 2] = [("end", "from"), ("opposite", "to")];

/// The class model that a document writes.
pub(crate) fn draft_of(alloc: Global, document: &Value) -> Result<Draft<'_>, AllocError> {
    let mut draft = Draft {
        classes: Vec::new(alloc),
        features: Vec::new(alloc),
    };
    classes_of(alloc, document, &mut draft)?;
    for (index, association) in items(document, "associations").iter().enumerate() {
        for (member, class) in ENDS {
            if let Some(end) = association.get(member) {
                let written = Written::End(index, member);
                let owner = text(association, class);
                draft.features.push(feature(end, owner, written))?;
            }
        }
    }
    Ok(draft)
}
