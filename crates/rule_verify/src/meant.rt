//! The kinds that symbols and kinds of a code file mean in the class model.

ghost use Rattle.std.specs.Prelude.{◌≡◌, ◌<◌, length};
ghost use Rattle.rule_verify.specs.InstrKinds as spec;
ghost use Rattle.rule_verify.specs.Symbols.{named_at};
ghost use Rattle.rule_verify.specs.Walk.{surroundings_of};

use crate::code::RuleCode;
use crate::named::Named;
use ocl_kinds::{Kind, ScalarKind, feature_kind};
use rule_code::{SymbolNumber, WrittenKind, WrittenScalar};

/// The kind of the objects of the class that a symbol names.
pub(crate) fn class_kind(rule: &RuleCode<'_, '_>, symbol: SymbolNumber) -> ScalarKind
    ensures { result ≡ spec.class_kind (named_at rule.now.resolved.now.model
        rule.now.resolved.now.unit symbol.0) }
{
    let Some(name) = rule.resolved.named(symbol) else {
        return ScalarKind::Void;
    };
    match name {
        Named::Class(class) => ScalarKind::Class(class),
        _ => ScalarKind::Void,
    }
}

/// The kind of the literals of the enumeration that a symbol names.
fn enumeration_kind(rule: &RuleCode<'_, '_>, symbol: SymbolNumber) -> ScalarKind
    ensures { result ≡ spec.enumeration_kind (named_at rule.now.resolved.now.model
        rule.now.resolved.now.unit symbol.0) }
{
    let Some(name) = rule.resolved.named(symbol) else {
        return ScalarKind::Void;
    };
    match name {
        Named::Enumeration(enumeration) => ScalarKind::Enumeration(enumeration),
        _ => ScalarKind::Void,
    }
}

/// The kind of the literal that a symbol names.
pub(crate) fn literal_kind(rule: &RuleCode<'_, '_>, symbol: SymbolNumber) -> ScalarKind
    ensures { result ≡ spec.literal_kind (named_at rule.now.resolved.now.model
        rule.now.resolved.now.unit symbol.0) }
{
    let Some(name) = rule.resolved.named(symbol) else {
        return ScalarKind::Void;
    };
    match name {
        Named::Literal(enumeration, _) => ScalarKind::Enumeration(enumeration),
        _ => ScalarKind::Void,
    }
}

/// The kind of the objects of the class that a feature's symbol names.
pub(crate) fn owner_kind(rule: &RuleCode<'_, '_>, symbol: SymbolNumber) -> ScalarKind
    ensures { result ≡ spec.owner_kind (named_at rule.now.resolved.now.model
        rule.now.resolved.now.unit symbol.0) }
{
    let Some(name) = rule.resolved.named(symbol) else {
        return ScalarKind::Void;
    };
    match name {
        Named::Feature(class, _) => ScalarKind::Class(class),
        _ => ScalarKind::Void,
    }
}

/// The kind of the feature that a symbol names.
pub(crate) fn feature_read(rule: &RuleCode<'_, '_>, symbol: SymbolNumber) -> Kind
    ensures { result ≡ spec.feature_read rule.now.resolved.now.model
        (named_at rule.now.resolved.now.model rule.now.resolved.now.unit symbol.0) }
{
    let Some(name) = rule.resolved.named(symbol) else {
        return Kind::Scalar(ScalarKind::Void);
    };
    match name {
        Named::Feature(_, feature) => feature_kind(rule.resolved.model().feature_info(feature)),
        _ => Kind::Scalar(ScalarKind::Void),
    }
}

/// The kind that the kind of a single value in a code file means.
pub(crate) fn scalar_meant(rule: &RuleCode<'_, '_>, kind: WrittenScalar) -> ScalarKind
    ensures { result ≡ spec.scalar_meant (surroundings_of rule.now) kind }
{
    match kind {
        WrittenScalar::Void => ScalarKind::Void,
        WrittenScalar::Boolean => ScalarKind::Boolean,
        WrittenScalar::Integer => ScalarKind::Integer,
        WrittenScalar::String => ScalarKind::String,
        WrittenScalar::Enumeration(symbol) => enumeration_kind(rule, symbol),
        WrittenScalar::Class(symbol) => class_kind(rule, symbol),
        WrittenScalar::AnyObject => ScalarKind::AnyObject,
    }
}

/// The kind that a kind of a code file means.
pub(crate) fn kind_meant(rule: &RuleCode<'_, '_>, kind: WrittenKind) -> Kind
    ensures { result ≡ spec.kind_meant (surroundings_of rule.now) kind }
{
    match kind {
        WrittenKind::Scalar(element) => Kind::Scalar(scalar_meant(rule, element)),
        WrittenKind::Collection(collection, element) => {
            Kind::Collection(collection, scalar_meant(rule, element))
        }
    }
}
