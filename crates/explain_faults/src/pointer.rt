//! Pointers to the values of a JSON document (RFC 6901).

use explain_notes::visible_text;
use std::alloc::{AllocError, Global};

/// The longest name of a member that stands in a pointer, in bytes.
const MAX_NAME: usize = 512;

/// The pointer to a document's own value.
pub const ROOT: &str = "";

/// Whether all of a name is shown as it is, and it isn't long.
fn is_shown(alloc: Global, name: &str) -> Result<bool, AllocError> {
    if name.len() > MAX_NAME {
        return Ok(false);
    }
    let shown = visible_text(alloc, name.as_bytes())?;
    Ok(shown.as_str() == name)
}

/// The pointer to a member of the object that a pointer is to. None where the name has what steers a terminal or isn't seen,
/// or is long.
pub fn member_pointer(
    alloc: Global,
    object: &str,
    name: &str,
) -> Result<Option<String>, AllocError> {
    if !is_shown(alloc, name)? {
        return Ok(None);
    }
    let mut pointer = String::from_str(alloc, object)?;
    pointer.push_str("/")?;
    for character in name.chars() {
        match character {
            '~' => pointer.push_str("~0")?,
            '/' => pointer.push_str("~1")?,
            _ => pointer.push(character)?,
        }
    }
    Ok(Some(pointer))
}

/// The pointer to an element of the list that a pointer is to.
pub fn element_pointer(alloc: Global, list: &str, index: usize) -> Result<String, AllocError> {
    format!(in alloc; "{list}/{index}")
}
