//! Types as OCL writes them.

use explain_names::{class_name, enumeration_name};
use imkl_model::{ClassModel, CollectionKind};
use ocl_kinds::{Kind, ScalarKind};
use std::fmt;

/// The name of a type, as `Bag(Integer)`.
#[derive(Clone, Copy)]
pub struct TypeName<'m> {
    model: &'m ClassModel,
    kind: Kind,
}

/// The name of a type with its article, as `an Integer`.
#[derive(Clone, Copy)]
pub(crate) struct WithArticle<'m> {
    model: &'m ClassModel,
    kind: Kind,
}

/// The name of a kind of collections.
fn collection_name(kind: CollectionKind) -> &'static str {
    match kind {
        CollectionKind::Set => "Set",
        CollectionKind::OrderedSet => "OrderedSet",
        CollectionKind::Bag => "Bag",
        CollectionKind::Sequence => "Sequence",
    }
}

fn scalar_name<'m>(model: &'m ClassModel, kind: &ScalarKind) -> &'m str {
    match kind {
        ScalarKind::Void => "Void",
        ScalarKind::Boolean => "Boolean",
        ScalarKind::Integer => "Integer",
        ScalarKind::String => "String",
        ScalarKind::Enumeration(enumeration) => enumeration_name(model, *enumeration),
        ScalarKind::Class(class) => class_name(model, *class),
        ScalarKind::AnyObject => "object",
    }
}

/// The article before a name.
fn article(name: &str) -> &'static str {
    match name.as_bytes().first() {
        Some(b'A' | b'E' | b'I' | b'O' | b'o') => "an",
        _ => "a",
    }
}

impl fmt::Display for TypeName<'_> {
    fn fmt<W: fmt::Write>(&self, f: &mut fmt::Formatter<W>) -> fmt::Result {
        match &self.kind {
            Kind::Scalar(scalar) => f.write_str(scalar_name(self.model, scalar)),
            Kind::Collection(collection, element) => {
                let (outer, inner) = (
                    collection_name(*collection),
                    scalar_name(self.model, element),
                );
                write!(f, "{outer}({inner})")
            }
        }
    }
}

impl fmt::Display for WithArticle<'_> {
    fn fmt<W: fmt::Write>(&self, f: &mut fmt::Formatter<W>) -> fmt::Result {
        let name = type_name(self.model, &self.kind);
        let article = article(match &self.kind {
            Kind::Scalar(scalar) => scalar_name(self.model, scalar),
            Kind::Collection(collection, _) => collection_name(*collection),
        });
        write!(f, "{article} {name}")
    }
}

/// The name of a type.
pub fn type_name<'m>(model: &'m ClassModel, kind: &Kind) -> TypeName<'m> {
    TypeName { model, kind: *kind }
}

/// The name of a type with its article.
pub(crate) fn a_type<'m>(model: &'m ClassModel, kind: &Kind) -> WithArticle<'m> {
    WithArticle { model, kind: *kind }
}
