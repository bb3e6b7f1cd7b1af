//! What the names of an expression can mean at its place.

use imkl_model::{ClassModel, ClassNo};

/// What the names of a rule can mean, beside its variables: by the class model and the context class.
#[derive(Clone, Copy)]
pub(crate) struct Environment<'e> {
    pub(crate) model: &'e ClassModel,
    pub(crate) context: ClassNo,
}
