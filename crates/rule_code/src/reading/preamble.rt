//! The part of a code file before its rules.

use crate::symbol::Symbol;
use crate::version::Version;

/// What stands before the rules of a code file, by which they are read.
#[derive(Clone, Copy)]
pub(super) struct Preamble<'u> {
    pub version: Version,
    pub texts: &'u [String],
    pub symbols: &'u [Symbol],
}
