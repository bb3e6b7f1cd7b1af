//! The lists of JSON objects that a class model and a delivery have, and in words what a member is.

use imkl_delivery::members::ENTRY;
use imkl_model::members::{ASSOCIATION, ATTRIBUTE, CLASS, ENUMERATION, Is, Member};

/// A list of objects.
#[derive(Clone, Copy, Drop)]
pub(crate) struct List {
    /// The member that it is.
    pub(crate) member: &'static str,
    /// What each object is called.
    pub(crate) sort: &'static str,
    /// Their members.
    pub(crate) members: &'static [Member],
    /// The member that names an object.
    pub(crate) name: &'static str,
}

/// The objects of a delivery.
pub(crate) fn objects() -> List {
    List {
        member: "objects",
        sort: "object",
        members: &ENTRY,
        name: "id",
    }
}

/// The enumerations of a class model.
pub(crate) fn enumerations() -> List {
    List {
        member: "enums",
        sort: "enumeration",
        members: &ENUMERATION,
        name: "name",
    }
}

/// The classes of a class model.
pub(crate) fn classes() -> List {
    List {
        member: "classes",
        sort: "class",
        members: &CLASS,
        name: "name",
    }
}

/// The attributes of a class.
pub(crate) fn attributes() -> List {
    List {
        member: "attributes",
        sort: "attribute",
        members: &ATTRIBUTE,
        name: "name",
    }
}

/// The associations of a class model.
pub(crate) fn associations() -> List {
    List {
        member: "associations",
        sort: "association",
        members: &ASSOCIATION,
        name: "name",
    }
}

/// What the value of a member is, in words.
pub(crate) fn words(is: Is) -> &'static str {
    match is {
        Is::Text => "a text",
        Is::Title => "a text of 1 to 128 characters",
        Is::Name => "a name: letters, digits and _, at most 128, none of OCL's reserved words",
        Is::Truth => "true or false",
        Is::Lower => "a whole number from 0 to 1,000,000",
        Is::Upper => "a whole number up to 1,000,000, or null",
        Is::List => "a list",
        Is::Names => "a list of names",
        Is::Object => "a JSON object",
    }
}

/// The member of a name.
pub(crate) fn member_of<'m>(members: &'m [Member], name: &str) -> Option<&'m Member> {
    members.iter().find(|member| member.0 == name)
}
