//! Messages for faults of types, and how they write names.

use explain_notes::{Nearest, quote};
use std::alloc::{AllocError, Global};

/// What is said of a fault.
#[derive(Drop)]
pub(crate) struct Words {
    /// What is wrong.
    pub(crate) message: String,
    /// What stands there.
    pub(crate) label: String,
    /// How it can be mended.
    pub(crate) help: String,
}

/// Asks whether a name was meant that is near a wanted one, where one is.
pub(crate) fn suggest(label: &mut String, nearest: &Nearest<'_>) -> Result<(), AllocError> {
    match nearest.name() {
        Some(name) => write!(label, "did you mean `{name}`?"),
        None => Ok(()),
    }
}

/// Writes a name as it is quoted, behind some words and a backquote, and then what closes that.
pub(crate) fn write_quoted(
    alloc: Global,
    out: &mut String,
    before: &str,
    name: &str,
    after: &str,
) -> Result<(), AllocError> {
    let name = quote(alloc, name)?;
    write!(out, "{before}`{name}{after}")
}

/// Writes a name after others, with a comma between them.
pub(crate) fn list(out: &mut String, is_first: bool, name: &str) -> Result<(), AllocError> {
    if !is_first {
        out.push_str(", ")?;
    }
    out.push_str(name)
}
