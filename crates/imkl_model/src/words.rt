//! The names of a class model, and the predefined types.

ghost use Rattle.std.specs.Prelude.{◌≡◌};
ghost use Rattle.imkl_model.specs.Words.{is_model_name, is_title, is_predefined};

use crate::limits::MAX_NAME_LENGTH;
use ocl_base::is_name;

/// Whether a text may name a class, an enumeration, a literal, a feature or an association.
#[tactic(auto, unfolding(crate::specs::Words::is_model_name))]
pub(crate) fn is_model_name(text: &str) -> bool
    ensures { result ≡ is_model_name text.now }
{
    text.len() <= MAX_NAME_LENGTH && is_name(text)
}

/// Whether a text may name a class model: it has one or more characters, up to the limit.
#[tactic(auto, unfolding(crate::specs::Words::is_title))]
pub(crate) fn is_title(text: &str) -> bool
    ensures { result ≡ is_title text.now }
{
    let count = text.chars().count();
    1 <= count && count <= MAX_NAME_LENGTH
}

/// Whether a name is that of a predefined type.
pub(crate) fn is_predefined(text: &str) -> bool
    ensures { result ≡ is_predefined text.now }
{
    matches!(
        text,
        "Boolean" | "Integer" | "String" | "Set" | "OrderedSet" | "Bag" | "Sequence"
    )
}
