//! Kinds of trees where they don't depend on the types of variables.

use crate::kinds::{constant_kind, iteration_kind, operator_kind};
use imkl_model::{ClassModel, CollectionKind, FeatureNo};
use ocl_core::{Core, CoreLink, ElementOperator, Iteration, Operator};
use ocl_kinds::{Kind, ScalarKind, feature_kind};

/// What is known of kinds.
#[derive(Clone, Copy)]
pub(crate) struct Known<'a> {
    pub(crate) model: &'a ClassModel,
    /// Of variables the kind, where they can't have another.
    pub(crate) fixed: &'a [Option<Kind>],
}

impl Known<'_> {
    /// The kind of a tree, if it is known.
    #[cycle(known)]
    pub(crate) fn kind(self, core: &Core) -> Option<Kind> {
        match core {
            Core::Constant { value } => Some(constant_kind(value)),
            Core::Variable { number } => match self.fixed.get(*number) {
                Some(kind) => *kind,
                None => None,
            },
            Core::AllInstances { class } => Some(Kind::Collection(
                CollectionKind::Set,
                ScalarKind::Class(*class),
            )),
            Core::Spine { first, links } => {
                let before = self.kind(first);
                self.behind(links, before)
            }
            Core::Let { body, .. } => self.kind(body),
            Core::If { kind, .. } => Some(*kind),
        }
    }

    /// The same of links on what may be known to be of a kind.
    #[cycle(known)]
    fn behind(self, links: &[CoreLink], before: Option<Kind>) -> Option<Kind> {
        let mut kind = before;
        for link in links {
            kind = self.after(link, kind);
        }
        kind
    }

    /// The same of one link.
    #[cycle(known)]
    fn after(self, link: &CoreLink, before: Option<Kind>) -> Option<Kind> {
        match link {
            CoreLink::Feature { feature } => known_feature(self.model, *feature),
            CoreLink::Operation { operator, .. } => known_operation(*operator, before),
            CoreLink::AsCollection {
                collection,
                element,
            } => Some(Kind::Collection(*collection, *element)),
            CoreLink::Iterate { iteration, body } => {
                known_iteration(*iteration, before, self.kind(body))
            }
            CoreLink::Fold { kind, .. } => Some(Kind::Scalar(*kind)),
        }
    }

    /// The same of a first operand with these links.
    pub(crate) fn before(self, first: &Core, links: &[CoreLink]) -> Option<Kind> {
        self.behind(links, self.kind(first))
    }

    /// Whether a tree is null that is made an empty collection.
    pub(crate) fn is_empty_collection(self, core: &Core) -> bool {
        let Core::Spine { first, links } = core else {
            return false;
        };
        let Some(CoreLink::AsCollection { .. }) = links.last() else {
            return false;
        };
        let before = links.len().saturating_sub(1);
        self.before(first, &links[..before]) == Some(Kind::Scalar(ScalarKind::Void))
    }
}

/// The kind of a feature of the class model.
pub(crate) fn known_feature(model: &ClassModel, feature: FeatureNo) -> Option<Kind> {
    if feature.index() < model.feature_count() {
        Some(feature_kind(model.feature_info(feature)))
    } else {
        None
    }
}

/// The kind of an operation on what may be known to be of a kind.
fn known_operation(operator: Operator, first: Option<Kind>) -> Option<Kind> {
    match (operator, first) {
        (Operator::OfElements(ElementOperator::AsSet, _), None) => None,
        (_, Some(kind)) => Some(operator_kind(operator, kind)),
        (_, None) => Some(operator_kind(operator, Kind::Scalar(ScalarKind::Void))),
    }
}

/// The kind of an iteration over a source with a body whose kinds may be known.
fn known_iteration(iteration: Iteration, source: Option<Kind>, body: Option<Kind>) -> Option<Kind> {
    match iteration {
        Iteration::Select | Iteration::Reject => source,
        Iteration::Collect | Iteration::CollectFlat => match (source, body) {
            (Some(source), Some(body)) => Some(iteration_kind(iteration, source, body)),
            _ => None,
        },
        _ => Some(Kind::Scalar(ScalarKind::Boolean)),
    }
}
