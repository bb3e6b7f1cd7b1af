//! The result of elaborating an expression.

use ocl_core::Core;
use ocl_kinds::Kind;

/// A core tree with the kind of its value.
#[derive(Drop)]
pub(crate) struct Typed {
    pub(crate) core: Core,
    pub(crate) kind: Kind,
}
