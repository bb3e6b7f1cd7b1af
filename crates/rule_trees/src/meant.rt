//! What symbols name in the class model, and the kinds that kinds of a code file mean.

ghost use Rattle.std.specs.Prelude.{◌≡◌, ℕ, Some};
ghost use Rattle.rule_verify.specs.InstrKinds as spec;
ghost use Rattle.rule_verify.specs.Symbols.{named_at};
ghost use Rattle.rule_trees.specs.InstrTrees.{symbol_meant};
ghost use Rattle.rule_trees.specs.TreeWalk.{surroundings_in};

use crate::code::RuleCode;
use imkl_model::{ClassNo, EnumNo, FeatureNo, LiteralNo};
use ocl_kinds::{Kind, ScalarKind};
use rule_code::{SymbolNumber, WrittenKind, WrittenScalar};
use rule_verify::Named;

/// The class that a symbol names.
pub(crate) fn class_named(code: &RuleCode<'_>, symbol: SymbolNumber) -> ClassNo
    requires { (class : ℕ) × (symbol_meant (surroundings_in code.now) symbol.0
        ≡ Some (Named.Class class)) }
    ensures { symbol_meant (surroundings_in code.now) symbol.0 ≡ Some (Named.Class result) }
{
    let Some(name) = code.accepted.named(symbol) else {
        unreachable!()
    };
    let Named::Class(class) = name else {
        unreachable!()
    };
    class
}

/// The feature that a symbol names.
pub(crate) fn feature_named(code: &RuleCode<'_>, symbol: SymbolNumber) -> FeatureNo
    requires { (class : ℕ) × (feature : ℕ) × (symbol_meant (surroundings_in code.now) symbol.0
        ≡ Some (Named.Feature class feature)) }
    ensures { (class : ℕ) × (symbol_meant (surroundings_in code.now) symbol.0
        ≡ Some (Named.Feature class result)) }
{
    let Some(name) = code.accepted.named(symbol) else {
        unreachable!()
    };
    let Named::Feature(_, feature) = name else {
        unreachable!()
    };
    feature
}

/// The literal that a symbol names, with its enumeration.
pub(crate) fn literal_named(code: &RuleCode<'_>, symbol: SymbolNumber) -> (EnumNo, LiteralNo)
    requires { (enumeration : ℕ) × (literal : ℕ) × (symbol_meant (surroundings_in code.now) symbol.0
        ≡ Some (Named.Literal enumeration literal)) }
    ensures { symbol_meant (surroundings_in code.now) symbol.0
        ≡ Some (Named.Literal result.0 result.1) }
{
    let Some(name) = code.accepted.named(symbol) else {
        unreachable!()
    };
    let Named::Literal(enumeration, literal) = name else {
        unreachable!()
    };
    (enumeration, literal)
}

/// The kind of the objects of the class that a symbol names.
fn class_kind(code: &RuleCode<'_>, symbol: SymbolNumber) -> ScalarKind
    ensures { result ≡ spec.class_kind (named_at code.now.accepted.now.model
        code.now.accepted.now.unit symbol.0) }
{
    let Some(name) = code.accepted.named(symbol) else {
        return ScalarKind::Void;
    };
    match name {
        Named::Class(class) => ScalarKind::Class(class),
        _ => ScalarKind::Void,
    }
}

/// The kind of the literals of the enumeration that a symbol names.
fn enumeration_kind(code: &RuleCode<'_>, symbol: SymbolNumber) -> ScalarKind
    ensures { result ≡ spec.enumeration_kind (named_at code.now.accepted.now.model
        code.now.accepted.now.unit symbol.0) }
{
    let Some(name) = code.accepted.named(symbol) else {
        return ScalarKind::Void;
    };
    match name {
        Named::Enumeration(enumeration) => ScalarKind::Enumeration(enumeration),
        _ => ScalarKind::Void,
    }
}

/// The kind that the kind of a single value in a code file means.
pub(crate) fn scalar_meant(code: &RuleCode<'_>, kind: WrittenScalar) -> ScalarKind
    ensures { result ≡ spec.scalar_meant (surroundings_in code.now) kind }
{
    match kind {
        WrittenScalar::Void => ScalarKind::Void,
        WrittenScalar::Boolean => ScalarKind::Boolean,
        WrittenScalar::Integer => ScalarKind::Integer,
        WrittenScalar::String => ScalarKind::String,
        WrittenScalar::Enumeration(symbol) => enumeration_kind(code, symbol),
        WrittenScalar::Class(symbol) => class_kind(code, symbol),
        WrittenScalar::AnyObject => ScalarKind::AnyObject,
    }
}

/// The kind that a kind of a code file means.
pub(crate) fn kind_meant(code: &RuleCode<'_>, kind: WrittenKind) -> Kind
    ensures { result ≡ spec.kind_meant (surroundings_in code.now) kind }
{
    match kind {
        WrittenKind::Scalar(element) => Kind::Scalar(scalar_meant(code, element)),
        WrittenKind::Collection(collection, element) => {
            Kind::Collection(collection, scalar_meant(code, element))
        }
    }
}
