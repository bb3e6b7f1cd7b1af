//! Names, words and features.

ghost use Rattle.std.specs.Prelude.{◌≡◌, ◌<◌, length, IfOk, Ok};
ghost use Rattle.imkl_model.specs.ClassModel.{Model, feature_at};
ghost use Rattle.ocl_base.specs.Steps.{Gives};
ghost use Rattle.ocl_kinds.specs.Kinds.{IsKindOf, feature_kind};
ghost use Rattle.ocl_core.specs.Core as tree;
ghost use Rattle.ocl_types.specs.TypedTrees.{typed};
ghost use Rattle.ocl_core.specs.CoreView.{core_view};
ghost use Rattle.ocl_types.specs.TypedView.{typed_in, typed_of};
ghost use Rattle.ocl_types.specs.Elaboration as spec;
ghost use Rattle.ocl_types.specs.Faults.{type_fault};
ghost use Rattle.ocl_core.specs.declared.operator.BasicType.TheVariants as type;
ghost use Rattle.ocl_core.specs.OperatorKinds.{basic};
ghost use Rattle.ocl_types.specs.ScopeView.{AreKnownVariables};

use crate::fault::{TypeFault, TypeFlaw};
use crate::nodes;
use crate::scope::Scope;
use crate::typed::Typed;
use imkl_model::{ClassModel, ClassNo, FeatureNo};
use ocl_core::{ConstantValue, Core};
use ocl_kinds::{Kind, ScalarKind, feature_kind};
use ocl_text::{Keyword, WholeNumber};
use std::alloc::{AllocError, Global};

/// A whole number.
#[inline(never)]
pub(crate) fn number_value(alloc: Global, number: &WholeNumber) -> Result<Box<Typed>, TypeFault>
    ensures gives { Gives type_fault typed_in result
        (Ok (typed (tree.Value (tree.Integer number.now)) (basic type.Integer))) }
    ensures known { (m : Model) → IfOk result (λ b. IsKindOf m b.value.kind) }
{
    let core = nodes::constant(ConstantValue::Integer(number.copy()));
    let kind = Kind::Scalar(ScalarKind::Integer);
    Ok(Box::new(alloc, Typed { core, kind })?)
}

/// A text.
#[inline(never)]
pub(crate) fn text_value(alloc: Global, text: &str) -> Result<Box<Typed>, TypeFault>
    ensures gives { Gives type_fault typed_in result
        (Ok (typed (tree.Value (tree.Text text.now)) (basic type.String))) }
    ensures known { (m : Model) → IfOk result (λ b. IsKindOf m b.value.kind) }
{
    let text = String::from_str(alloc, text)?;
    let core = nodes::constant(ConstantValue::Text(text));
    let kind = Kind::Scalar(ScalarKind::String);
    Ok(Box::new(alloc, Typed { core, kind })?)
}

/// What a word stands for in a rule of this context class.
#[tactic(auto, unfolding(crate::specs::Elaboration::keyword_value))]
#[inline(never)]
pub(crate) fn keyword_value(
    alloc: Global,
    context: ClassNo,
    keyword: Keyword,
) -> Result<Box<Typed>, TypeFault>
    ensures gives { Gives type_fault typed_in result (Ok (spec.keyword_value context keyword)) }
    ensures known { (m : Model) → context < length m.classes
        → IfOk result (λ b. IsKindOf m b.value.kind) }
{
    let (core, kind) = match keyword {
        Keyword::True => (
            nodes::constant(ConstantValue::Boolean(true)),
            ScalarKind::Boolean,
        ),
        Keyword::False => (
            nodes::constant(ConstantValue::Boolean(false)),
            ScalarKind::Boolean,
        ),
        Keyword::Null => (nodes::constant(ConstantValue::Null), ScalarKind::Void),
        Keyword::Invalid => (nodes::constant(ConstantValue::Invalid), ScalarKind::Void),
        Keyword::SelfObject => (nodes::variable(0), ScalarKind::Class(context)),
    };
    let kind = Kind::Scalar(kind);
    Ok(Box::new(alloc, Typed { core, kind })?)
}

/// A feature of an object.
#[tactic(auto, using(ocl_kinds::proofs::ForAbove::features_have_kinds))]
pub(crate) fn feature_value(
    alloc: Global,
    model: &ClassModel,
    source: Core,
    feature: FeatureNo,
) -> Result<Typed, AllocError>
    requires { feature < length model.now.features }
    ensures value { IfOk result (λ t. typed_of t
        ≡ typed (tree.Feature (core_view source) feature)
        (feature_kind (feature_at model.now feature))) }
    ensures known { IfOk result (λ t. IsKindOf model.now t.kind) }
{
    model.well_formed();
    let kind = feature_kind(model.feature_info(feature));
    let core = nodes::feature(alloc, source, feature)?;
    Ok(Typed { core, kind })
}

/// What a bare name stands for: a variable, or else a feature of one that needn't be named.
#[tactic(auto, unfolding(crate::specs::Elaboration::name_value))]
#[inline(never)]
pub(crate) fn name_value(
    alloc: Global,
    model: &ClassModel,
    scope: &Scope<'_>,
    name: &str,
    offset: usize,
) -> Result<Box<Typed>, TypeFault>
    requires { AreKnownVariables model.now scope.now }
    ensures gives { Gives type_fault typed_in result
        (spec.name_value model.now scope.now name.now offset) }
    ensures known { IfOk result (λ b. IsKindOf model.now b.value.kind) }
{
    if let Some((number, kind)) = scope.variable_named(name) {
        let core = nodes::variable(number);
        return Ok(Box::new(alloc, Typed { core, kind })?);
    }
    match scope.feature_named(model, name) {
        Some((number, feature)) => {
            let source = nodes::variable(number);
            let value = feature_value(alloc, model, source, feature)?;
            Ok(Box::new(alloc, value)?)
        }
        None => Err(TypeFault::At {
            flaw: TypeFlaw::UnknownName,
            offset,
        }),
    }
}

/// A literal of an enumeration.
#[tactic(auto, unfolding(crate::specs::Elaboration::literal_value))]
#[inline(never)]
pub(crate) fn literal_value(
    alloc: Global,
    model: &ClassModel,
    enumeration: &str,
    literal: &str,
    offset: usize,
) -> Result<Box<Typed>, TypeFault>
    ensures gives { Gives type_fault typed_in result
        (spec.literal_value model.now enumeration.now literal.now offset) }
    ensures known { IfOk result (λ b. IsKindOf model.now b.value.kind) }
{
    let unknown = TypeFault::At {
        flaw: TypeFlaw::UnknownName,
        offset,
    };
    let Some(number) = model.enumeration(enumeration) else {
        return Err(unknown);
    };
    let Some(literal) = model.literal(number, literal) else {
        return Err(unknown);
    };
    let core = nodes::constant(ConstantValue::Literal(number, literal));
    let kind = Kind::Scalar(ScalarKind::Enumeration(number));
    Ok(Box::new(alloc, Typed { core, kind })?)
}
