//! The kind that is wanted of a variable: what the first of its uses in a tree has to be. A variable whose value is null gets
//! its type by this.

ghost use Rattle.std.specs.Prelude.{◌≡◌, map, None};
ghost use Rattle.ocl_core.specs.Core.{cores_of, lets_of};
ghost use Rattle.ocl_core.specs.CoreView.{core_view};
ghost use Rattle.ocl_core.specs.declared.operator.Operator.TheVariants.{Plain};
ghost use Rattle.ocl_semantics.specs.Evaluated.{on_null};
ghost use Rattle.code_as_ocl.specs.WantedKinds as uses;
ghost use Rattle.code_as_ocl.specs.WantedLinks as of_links;

use imkl_model::{ClassModel, FeatureNo};
use ocl_core::{Core, CoreLink, Iteration, Operator, PlainOperator};
use ocl_kinds::{Kind, ScalarKind};

/// A wanted kind that a variable can be given: not that of null, nor that of any object.
fn wanting(wanted: Option<ScalarKind>) -> Option<ScalarKind>
    ensures { result ≡ uses.wanting wanted }
{
    match wanted {
        None | Some(ScalarKind::Void) | Some(ScalarKind::AnyObject) => None,
        Some(kind) => Some(kind),
    }
}

/// The kind of a single value.
fn single_wanted(kind: Kind) -> Option<ScalarKind>
    ensures { result ≡ uses.single_wanted kind }
{
    match kind {
        Kind::Scalar(scalar) => Some(scalar),
        Kind::Collection(..) => None,
    }
}

/// What an operator wants of its first operand which its name alone describes.
fn plain_first(operator: PlainOperator) -> Option<ScalarKind>
    ensures { result ≡ uses.first_wanted (Plain operator) }
{
    match operator {
        PlainOperator::CharacterCount | PlainOperator::Substring => Some(ScalarKind::String),
        PlainOperator::Not | PlainOperator::And | PlainOperator::Or => Some(ScalarKind::Boolean),
        PlainOperator::Xor | PlainOperator::Implies => Some(ScalarKind::Boolean),
        PlainOperator::IsUndefined | PlainOperator::IsInvalid | PlainOperator::BothNull => None,
        PlainOperator::ElementCount | PlainOperator::IsEmpty | PlainOperator::Sum => None,
        _ => Some(ScalarKind::Integer),
    }
}

/// What it wants of its second operand and of a third.
fn plain_others(operator: PlainOperator) -> Option<ScalarKind>
    ensures { result ≡ uses.others_wanted (Plain operator) }
{
    match operator {
        PlainOperator::Add | PlainOperator::Subtract | PlainOperator::Multiply => Some(
            ScalarKind::Integer,
        ),
        PlainOperator::Divide | PlainOperator::Modulo => Some(ScalarKind::Integer),
        PlainOperator::Minimum | PlainOperator::Maximum => Some(ScalarKind::Integer),
        PlainOperator::Less | PlainOperator::LessEqual => Some(ScalarKind::Integer),
        PlainOperator::Greater | PlainOperator::GreaterEqual => Some(ScalarKind::Integer),
        PlainOperator::Substring => Some(ScalarKind::Integer),
        PlainOperator::And | PlainOperator::Or => Some(ScalarKind::Boolean),
        PlainOperator::Xor | PlainOperator::Implies => Some(ScalarKind::Boolean),
        _ => None,
    }
}

/// What an operator wants of its first operand.
pub(crate) fn first_wanted(operator: Operator) -> Option<ScalarKind>
    ensures { result ≡ uses.first_wanted operator }
{
    match operator {
        Operator::Plain(plain) => plain_first(plain),
        Operator::OfClass(_, class) => Some(ScalarKind::Class(class)),
        Operator::OfElements(..) => None,
        Operator::Equal(kind) => single_wanted(kind),
    }
}

/// What it wants of each other.
pub(crate) fn others_wanted(operator: Operator) -> Option<ScalarKind>
    ensures { result ≡ uses.others_wanted operator }
{
    match operator {
        Operator::Plain(plain) => plain_others(plain),
        Operator::OfClass(..) => None,
        Operator::OfElements(_, element) => Some(element),
        Operator::Equal(kind) => single_wanted(kind),
    }
}

/// What an iteration wants of its body.
fn body_wanted(iteration: Iteration) -> Option<ScalarKind>
    ensures { result ≡ uses.body_wanted iteration }
{
    match iteration {
        Iteration::Collect | Iteration::CollectFlat => None,
        Iteration::IsUnique(kind) => Some(kind),
        _ => Some(ScalarKind::Boolean),
    }
}

/// What is wanted of the object whose feature is read: its owner. A number that the class model doesn't have wants nothing.
pub(crate) fn owner_wanted(model: &ClassModel, feature: FeatureNo) -> Option<ScalarKind>
    ensures { result ≡ uses.owner_wanted model.now feature }
{
    if feature.index() < model.feature_count() {
        Some(ScalarKind::Class(model.feature_info(feature).owner))
    } else {
        None
    }
}

/// What a link wants of what stands before it.
fn source_wanted(model: &ClassModel, link: &CoreLink) -> Option<ScalarKind>
    ensures { result ≡ of_links.source_wanted model.now (on_null link.now) }
{
    match link {
        CoreLink::Feature { feature } => owner_wanted(model, *feature),
        CoreLink::Operation { operator, .. } => first_wanted(*operator),
        CoreLink::AsCollection { element, .. } => Some(*element),
        CoreLink::Iterate { .. } | CoreLink::Fold { .. } => None,
    }
}

/// What links want of what stands before them, if this is wanted of the whole.
fn before_links(
    model: &ClassModel,
    links: &[CoreLink],
    wanted: Option<ScalarKind>,
) -> Option<ScalarKind>
    ensures { result ≡ of_links.before_links model.now links.now wanted }
{
    match links {
        [] => wanted,
        [link, ..] => source_wanted(model, link),
    }
}

/// The kind that is wanted of a variable in a tree of which this kind is wanted: that of its first use, if any has one.
#[cycle(wanted)]
#[tactic(auto, using(ocl_core::proofs::ForAbove::views))]
pub(crate) fn wanted_of(
    model: &ClassModel,
    core: &Core,
    variable: usize,
    wanted: Option<ScalarKind>,
) -> Option<ScalarKind>
    ensures { result ≡ uses.wanted_of model.now variable (core_view core.now) wanted }
{
    match core {
        Core::Constant { .. } | Core::AllInstances { .. } => None,
        Core::Variable { number } if *number == variable => wanting(wanted),
        Core::Variable { .. } => None,
        Core::Spine { first, links } => {
            let of_first = before_links(model, links, wanted);
            match wanted_of(model, first, variable, of_first) {
                Some(kind) => Some(kind),
                None => wanted_in_links(model, links, variable),
            }
        }
        Core::Let { values, body } => match wanted_of_each(model, values, variable, &None) {
            Some(kind) => Some(kind),
            None => wanted_of(model, body, variable, wanted),
        },
        Core::If {
            kind,
            condition,
            then_branch,
            else_branch,
        } => {
            let truth = Some(ScalarKind::Boolean);
            if let Some(found) = wanted_of(model, condition, variable, truth) {
                return Some(found);
            }
            match wanted_of(model, then_branch, variable, single_wanted(*kind)) {
                Some(found) => Some(found),
                None => wanted_of(model, else_branch, variable, single_wanted(*kind)),
            }
        }
    }
}

/// The kind that is wanted of a variable in trees of each of which this kind is wanted.
#[cycle(wanted)]
fn wanted_of_each(
    model: &ClassModel,
    cores: &[Core],
    variable: usize,
    wanted: &Option<ScalarKind>,
) -> Option<ScalarKind>
    ensures { result ≡ uses.wanted_of_each model.now variable
        (cores_of (map core_view cores.now)) wanted.now }
{
    'cores: for core in cores {
        if let Some(kind) = wanted_of(model, core, variable, *wanted) {
            return Some(kind);
        }
    }
    None
}

/// The kind that is wanted of a variable in the other operands and the bodies of links.
#[cycle(wanted)]
fn wanted_in_links(model: &ClassModel, links: &[CoreLink], variable: usize) -> Option<ScalarKind>
    ensures { result ≡ of_links.wanted_in_links model.now variable links.now }
{
    'links: for link in links {
        if let Some(kind) = wanted_beside(model, link, variable) {
            return Some(kind);
        }
    }
    None
}

/// The same in those of one link.
#[cycle(wanted)]
#[tactic(auto, using(ocl_core::proofs::ForAbove::views))]
fn wanted_beside(model: &ClassModel, link: &CoreLink, variable: usize) -> Option<ScalarKind>
    ensures { result ≡ of_links.wanted_beside model.now variable (on_null link.now) }
{
    match link {
        CoreLink::Feature { .. } | CoreLink::AsCollection { .. } => None,
        CoreLink::Operation { operator, others } => {
            let wanted = others_wanted(*operator);
            wanted_of_each(model, others, variable, &wanted)
        }
        CoreLink::Iterate { iteration, body } => {
            wanted_of(model, body, variable, body_wanted(*iteration))
        }
        CoreLink::Fold { kind, start, body } => {
            match wanted_of(model, start, variable, Some(*kind)) {
                Some(found) => Some(found),
                None => wanted_of(model, body, variable, Some(*kind)),
            }
        }
    }
}

/// The kind that is wanted of a variable in values and the body that sees them, of which nothing is wanted.
fn wanted_in_lets(
    model: &ClassModel,
    values: &[Core],
    body: &Core,
    variable: usize,
) -> Option<ScalarKind>
    ensures { result ≡ uses.wanted_of model.now variable
        (lets_of (map core_view values.now) (core_view body.now)) None }
{
    match wanted_of_each(model, values, variable, &None) {
        Some(kind) => Some(kind),
        None => wanted_of(model, body, variable, None),
    }
}

/// The kind of the variable of a value of this kind: of null the one that is wanted of the variable in the values after it and
/// in the body, or that of truth values where none is.
pub(crate) fn let_kind(
    model: &ClassModel,
    variable: usize,
    kind: Kind,
    later: &[Core],
    body: &Core,
) -> Kind
    ensures { result ≡ uses.let_kind model.now variable kind
        (lets_of (map core_view later.now) (core_view body.now)) }
{
    match kind {
        Kind::Scalar(ScalarKind::Void) => {
            let wanted = wanted_in_lets(model, later, body, variable);
            Kind::Scalar(wanted.unwrap_or(ScalarKind::Boolean))
        }
        _ => kind,
    }
}
