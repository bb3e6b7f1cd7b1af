//! The objects of a delivery as they are written, and where.

use crate::places::{document_offset, element_offsets, list_offset};
use serde_json::{Map, Value};
use std::alloc::{AllocError, Global};

/// An object as it is written.
#[derive(Clone, Copy, Drop)]
pub(crate) struct Entry<'v> {
    /// Its id.
    pub(crate) id: &'v str,
    /// The name of its class.
    pub(crate) class: &'v str,
    /// Its features.
    pub(crate) features: &'v Map<String, Value>,
}

/// The object that a value writes.
fn entry_of(value: &Value) -> Option<Entry<'_>> {
    Some(Entry {
        id: value.get("id")?.as_str()?,
        class: value.get("class")?.as_str()?,
        features: value.get("features")?.as_object()?,
    })
}

/// The objects that a document writes, as far as they have the shape of objects.
pub(crate) fn entries_of(alloc: Global, document: &Value) -> Result<Vec<Entry<'_>>, AllocError> {
    let mut entries = Vec::new(alloc);
    if let Some(objects) = document.get("objects")
        && let Some(objects) = objects.as_array()
    {
        for object in objects {
            match entry_of(object) {
                Some(entry) => entries.push(entry)?,
                None => break,
            }
        }
    }
    Ok(entries)
}

/// Where each object of a document begins, in bytes from 0: the elements of the document's list, of the last where its
/// member stands twice.
pub(crate) fn offsets_of(alloc: Global, bytes: &[u8]) -> Result<Vec<usize>, AllocError> {
    match list_offset(alloc, bytes, document_offset(bytes))? {
        Some(list) => element_offsets(alloc, bytes, list),
        None => Ok(Vec::new(alloc)),
    }
}
