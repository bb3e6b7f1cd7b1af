//! The members of each JSON object of a class model, and what each is. Readers and explanations
//! share this one table.

ghost use Rattle.std.specs.Prelude.{◌≡◌, ◌≤◌, true, is_ok, IfSome, option_map};
ghost use Rattle.serde_json.specs.View.{view};
ghost use Rattle.ocl_base.specs.Steps.{found};
ghost use Rattle.imkl_model.specs.declared.fault.ModelFault.TheVariants.{Shape};
ghost use Rattle.std.specs.List.{list_all};
ghost use Rattle.imkl_model.specs.declared.members.Is.TheVariants as is;
ghost use Rattle.imkl_model.specs.Members.{holds};
ghost use Rattle.imkl_model.specs.Shape.{title_from, name_from, lower_from, upper_from};
ghost use Rattle.imkl_model.specs.Words.{is_title};
ghost use Rattle.imkl_model.specs.WellFormed.{IsModelName};

use crate::limits::MAX_BOUND;
use crate::words::{is_model_name, is_title};
use imkl_json::list_of;
use serde_json::Value;

/// What the value of a member is.
#[derive(Clone, Copy)]
pub enum Is {
    /// A text.
    Text,
    /// The name of a class model: a text of 1 to [`MAX_NAME_LENGTH`](crate::MAX_NAME_LENGTH) characters.
    Title,
    /// A name of anything else in a class model.
    Name,
    /// True or false.
    Truth,
    /// A whole number from 0 to [`MAX_BOUND`].
    Lower,
    /// The same, or null for none.
    Upper,
    /// A list.
    List,
    /// A list of names.
    Names,
    /// A JSON object.
    Object,
}

/// A member of a JSON object: its name, and what its value is.
#[derive(Clone, Copy)]
pub struct Member(pub &'static str, pub Is);

/// The members of a class model.
pub const MODEL: [Member; 4] = [
    Member("model", Is::Title),
    Member("enums", Is::List),
    Member("classes", Is::List),
    Member("associations", Is::List),
];

/// The member that a class model may have besides.
pub const RENAMES: Member = Member("renames", Is::List);

/// The members of an enumeration.
pub const ENUMERATION: [Member; 2] = [Member("name", Is::Name), Member("literals", Is::Names)];

/// The members of a class.
pub const CLASS: [Member; 4] = [
    Member("name", Is::Name),
    Member("abstract", Is::Truth),
    Member("supers", Is::Names),
    Member("attributes", Is::List),
];

/// The members of an attribute.
pub const ATTRIBUTE: [Member; 6] = [
    Member("name", Is::Name),
    Member("type", Is::Name),
    Member("lower", Is::Lower),
    Member("upper", Is::Upper),
    Member("ordered", Is::Truth),
    Member("unique", Is::Truth),
];

/// The members of an association.
pub const ASSOCIATION: [Member; 5] = [
    Member("name", Is::Name),
    Member("from", Is::Name),
    Member("to", Is::Name),
    Member("end", Is::Object),
    Member("opposite", Is::Object),
];

/// The members of an end of an association.
pub const END: [Member; 4] = [
    Member("name", Is::Name),
    Member("lower", Is::Lower),
    Member("upper", Is::Upper),
    Member("ordered", Is::Truth),
];

/// The members of an old name of a class.
pub const CLASS_RENAME: [Member; 2] = [Member("old", Is::Name), Member("new", Is::Name)];

/// The members of an old name of a feature.
pub const FEATURE_RENAME: [Member; 3] = [
    Member("class", Is::Name),
    Member("old", Is::Name),
    Member("new", Is::Name),
];

/// The text of a value that names a class model.
#[tactic(auto, unfolding(crate::specs::Shape::title_from))]
pub(crate) fn title_in(value: &Value) -> Option<&str>
    ensures tree { found (option_map (λ t. t.now) result) Shape ≡ title_from (view value.now) }
    ensures fits { IfSome result (λ t. is_title t.now ≡ true) }
{
    match value.as_str() {
        Some(title) if is_title(title) => Some(title),
        _ => None,
    }
}

/// The text of a value that names anything else.
#[tactic(auto, unfolding(crate::specs::Shape::name_from))]
pub(crate) fn name_in(value: &Value) -> Option<&str>
    ensures tree { found (option_map (λ n. n.now) result) Shape ≡ name_from (view value.now) }
    ensures fits { IfSome result (λ n. IsModelName n.now) }
{
    match value.as_str() {
        Some(name) if is_model_name(name) => Some(name),
        _ => None,
    }
}

/// The bound that a value is.
#[tactic(auto, unfolding(crate::specs::Shape::lower_from))]
pub(crate) fn lower_in(value: &Value) -> Option<u32>
    ensures tree { found result Shape ≡ lower_from (view value.now) }
    ensures fits { IfSome result (λ n. n ≤ MAX_BOUND) }
{
    match value.as_u64() {
        Some(bound) if bound <= MAX_BOUND => Some(bound as u32),
        _ => None,
    }
}

/// The upper bound that a value is.
#[tactic(auto, unfolding(crate::specs::Shape::upper_from))]
pub(crate) fn upper_in(value: &Value) -> Option<Option<u32>>
    ensures tree { found result Shape ≡ upper_from (view value.now) }
    ensures fits { IfSome result (λ upper. IfSome upper (λ u. u ≤ MAX_BOUND)) }
{
    match value {
        Value::Null => Some(None),
        _ => Some(Some(lower_in(value)?)),
    }
}

fn is_name(value: &Value) -> bool
    ensures { result ≡ is_ok (name_from (view value.now)) }
{
    name_in(value).is_some()
}

fn all_names(values: &[Value]) -> bool
    ensures { result ≡ list_all (λ v. is_ok (name_from (view v))) values.now }
{
    values.iter().all(is_name)
}

/// Whether a value is a list of names.
fn are_names(value: &Value) -> bool
    ensures { result ≡ holds is.Names (view value.now) }
{
    match list_of(value) {
        Some(values) => all_names(values),
        None => false,
    }
}

impl Is {
    /// Whether a value is so.
    pub fn holds(self, value: &Value) -> bool
        ensures { result ≡ holds self (view value.now) }
    {
        match self {
            Is::Text => value.is_string(),
            Is::Title => title_in(value).is_some(),
            Is::Name => is_name(value),
            Is::Truth => value.is_boolean(),
            Is::Lower => lower_in(value).is_some(),
            Is::Upper => upper_in(value).is_some(),
            Is::List => list_of(value).is_some(),
            Is::Names => are_names(value),
            Is::Object => value.is_object(),
        }
    }
}
