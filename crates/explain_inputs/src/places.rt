//! Places of values in a JSON text, in bytes from 0, and the pointers to them.

use crate::walk::Walk;
use explain_faults::{ROOT, element_pointer, member_pointer};
use serde_json::{Category, Value};
use std::alloc::{AllocError, Global};

/// Whether a byte is a space between values.
fn is_space(byte: u8) -> bool {
    matches!(byte, b' ' | b'\t' | b'\n' | b'\r')
}

/// Where the names and values right in an object begin, in turn, or the elements right in a list. The object or list begins
/// at an offset.
fn begins_in(alloc: Global, bytes: &[u8], at: usize) -> Result<Vec<usize>, AllocError> {
    let mut begins = Vec::new(alloc);
    let mut walk = Walk::new();
    let mut is_awaited = false;
    for (index, byte) in bytes.get(at..).unwrap_or(&[]).iter().enumerate() {
        if walk.is_in_string() || is_space(*byte) {
            walk = walk.after(*byte);
            continue;
        }
        let next = walk.after(*byte);
        if next.depth() == 0 {
            break;
        }
        if walk.depth() == 1 && matches!(*byte, b',' | b':') {
            is_awaited = true;
        } else if walk.depth() == 0 {
            is_awaited = true;
        } else if is_awaited {
            begins.push(at.saturating_add(index))?;
            is_awaited = false;
        }
        walk = next;
    }
    Ok(begins)
}

/// Where each element of a list begins. The list begins at an offset.
pub(crate) fn element_offsets(
    alloc: Global,
    bytes: &[u8],
    list: usize,
) -> Result<Vec<usize>, AllocError> {
    begins_in(alloc, bytes, list)
}

/// Whether a string begins at an offset, and is a name written without escapes.
fn is_name_at(bytes: &[u8], offset: usize, name: &str) -> bool {
    match bytes.get(offset..) {
        Some([b'"', rest @ ..]) => {
            rest.starts_with(name.as_bytes()) && rest.get(name.len()) == Some(&b'"')
        }
        _ => false,
    }
}

/// Where the value of a member begins, of the last one of its name as it is written. The object begins at an offset.
pub(crate) fn member_offset(
    alloc: Global,
    bytes: &[u8],
    object: usize,
    name: &str,
) -> Result<Option<usize>, AllocError> {
    let mut found = None;
    let mut is_named = false;
    for (index, begin) in begins_in(alloc, bytes, object)?.iter().enumerate() {
        if index % 2 == 0 {
            is_named = is_name_at(bytes, *begin, name);
        } else if is_named {
            found = Some(*begin);
        }
    }
    Ok(found)
}

/// Where the last list begins that is a member of an object, whatever the member's name, which may be written with escapes.
/// The object begins at an offset.
pub(crate) fn list_offset(
    alloc: Global,
    bytes: &[u8],
    object: usize,
) -> Result<Option<usize>, AllocError> {
    let mut found = None;
    for begin in begins_in(alloc, bytes, object)? {
        if bytes.get(begin) == Some(&b'[') {
            found = Some(begin);
        }
    }
    Ok(found)
}

/// Where a document's value begins.
pub(crate) fn document_offset(bytes: &[u8]) -> usize {
    bytes.iter().position(|byte| !is_space(*byte)).unwrap_or(0)
}

/// Where a value begins, and the pointer to it, if it has one.
#[derive(Drop)]
pub(crate) struct Located {
    pub(crate) offset: usize,
    pub(crate) pointer: Option<String>,
}

impl Located {
    /// The same value.
    pub(crate) fn copied(&self) -> Result<Located, AllocError> {
        let pointer = match &self.pointer {
            Some(pointer) => Some(pointer.clone()?),
            None => None,
        };
        let offset = self.offset;
        Ok(Located { offset, pointer })
    }
}

/// A document's own value.
pub(crate) fn located_document(alloc: Global, bytes: &[u8]) -> Result<Located, AllocError> {
    Ok(Located {
        offset: document_offset(bytes),
        pointer: Some(String::from_str(alloc, ROOT)?),
    })
}

/// Whether this is a member's name, which may be written with escapes. It is written between two offsets, with what may stand
/// behind it.
fn is_name_between(
    alloc: Global,
    bytes: &[u8],
    begin: usize,
    end: usize,
    name: &str,
) -> Result<bool, AllocError> {
    let written = bytes.get(begin..end).unwrap_or(&[]);
    if !written.iter().any(|byte| *byte == b'\\') {
        return Ok(is_name_at(bytes, begin, name));
    }
    let quote = written.iter().rposition(|byte| *byte == b'"').unwrap_or(0);
    let string = written.get(..quote.saturating_add(1)).unwrap_or(written);
    match Value::from_slice(alloc, string) {
        Ok(value) => Ok(value.as_str() == Some(name)),
        Err(error) => match error.classify() {
            Category::Memory => Err(AllocError),
            _ => Ok(false),
        },
    }
}

/// Whether the value at an offset is that of the last member of a name, however the name is written.
fn is_last_member(
    alloc: Global,
    bytes: &[u8],
    object: usize,
    name: &str,
    value: usize,
) -> Result<bool, AllocError> {
    let mut last = None;
    let mut before = object;
    for (index, begin) in begins_in(alloc, bytes, object)?.iter().enumerate() {
        if index % 2 == 1 && is_name_between(alloc, bytes, before, *begin, name)? {
            last = Some(*begin);
        }
        before = *begin;
    }
    Ok(last == Some(value))
}

/// The pointer to a member of an object, whose value begins at an offset. None where the object has none, and where the member
/// is written once more, with escapes, so that another value counts.
fn pointer_of_member(
    alloc: Global,
    bytes: &[u8],
    object: &Located,
    name: &str,
    value: usize,
) -> Result<Option<String>, AllocError> {
    let Some(pointer) = &object.pointer else {
        return Ok(None);
    };
    if !is_last_member(alloc, bytes, object.offset, name, value)? {
        return Ok(None);
    }
    member_pointer(alloc, pointer.as_str(), name)
}

/// The member of an object, where it is found.
pub(crate) fn located_member(
    alloc: Global,
    bytes: &[u8],
    object: &Located,
    name: &str,
) -> Result<Option<Located>, AllocError> {
    match member_offset(alloc, bytes, object.offset, name)? {
        Some(offset) => Ok(Some(Located {
            offset,
            pointer: pointer_of_member(alloc, bytes, object, name, offset)?,
        })),
        None => Ok(None),
    }
}

/// An element that begins at an offset, of a list.
pub(crate) fn located_element(
    alloc: Global,
    list: &Located,
    index: usize,
    offset: usize,
) -> Result<Located, AllocError> {
    let pointer = match &list.pointer {
        Some(pointer) => Some(element_pointer(alloc, pointer.as_str(), index)?),
        None => None,
    };
    Ok(Located { offset, pointer })
}

/// The element of a list at an index, where it is found.
pub(crate) fn located_at(
    alloc: Global,
    bytes: &[u8],
    list: &Located,
    index: usize,
) -> Result<Option<Located>, AllocError> {
    let offsets = element_offsets(alloc, bytes, list.offset)?;
    match offsets.get(index) {
        Some(offset) => Ok(Some(located_element(alloc, list, index, *offset)?)),
        None => Ok(None),
    }
}

/// A step from a value to one in it.
#[derive(Clone, Copy, Drop)]
pub(crate) enum Step {
    /// To a member of an object.
    Member(&'static str),
    /// To an element of a list, by its index from 0.
    Element(usize),
}

/// The value to which steps lead from a document's own. Where the value of a step isn't found, or is written once more, with
/// escapes, the one before it.
pub(crate) fn located_part(
    alloc: Global,
    bytes: &[u8],
    steps: &[Step],
) -> Result<Located, AllocError> {
    let mut part = located_document(alloc, bytes)?;
    for step in steps {
        let next = match *step {
            Step::Member(name) => located_member(alloc, bytes, &part, name)?,
            Step::Element(index) => located_at(alloc, bytes, &part, index)?,
        };
        match next {
            Some(next) if next.pointer.is_some() => part = next,
            _ => break,
        }
    }
    Ok(part)
}
