//! The members of each JSON object of a delivery, and what each is.

use imkl_model::members::{Is, Member};

/// The members of a delivery.
pub const DELIVERY: [Member; 2] = [Member("model", Is::Text), Member("objects", Is::List)];

/// The members of an entry, which writes an object.
pub const ENTRY: [Member; 3] = [
    Member("id", Is::Text),
    Member("class", Is::Text),
    Member("features", Is::Object),
];
