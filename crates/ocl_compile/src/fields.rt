//! The fields of instructions: what they name, by its number in the unit, and lengths.

ghost use Rattle.std.specs.Prelude.{◌≡◌, ◌<◌, ◌≤◌, length};
ghost use Rattle.ocl_compile.specs.declared.limits.TheConstants.{MAX_COUNTED};
ghost use Rattle.ocl_compile.specs.Numbering.{owned_feature};
ghost use Rattle.ocl_compile.specs.NumberWalk.{IsNamedIn};
ghost use Rattle.ocl_compile.specs.Translation.{translate_symbol};
ghost use Rattle.ocl_compile.specs.Translation as spec;

use crate::numbers::Numbers;
use imkl_model::{ClassModel, FeatureNo};
use ocl_kinds::{Kind, ScalarKind};
use rule_code::{Instr, Symbol, SymbolNumber, TextNumber, WrittenKind, WrittenScalar};
use rule_verify::Named;

/// The field that names a text.
pub(crate) fn text_of_unit(numbers: &Numbers, text: &str) -> TextNumber
    ensures { result ≡ spec.text_of_unit numbers.now text.now }
{
    TextNumber(numbers.text_number(text) as u16)
}

/// The field that names a symbol.
pub(crate) fn symbol_of_unit(numbers: &Numbers, symbol: Named) -> SymbolNumber
    ensures { result ≡ spec.symbol_of_unit numbers.now symbol }
{
    SymbolNumber(numbers.symbol_number(symbol) as u16)
}

/// The field that names a feature, as one of its owner.
pub(crate) fn feature_of_unit(
    model: &ClassModel,
    numbers: &Numbers,
    feature: FeatureNo,
) -> SymbolNumber
    requires { feature < length model.now.features }
    ensures { result ≡ spec.symbol_of_unit numbers.now (owned_feature model.now feature) }
{
    let owner = model.feature_info(feature).owner;
    symbol_of_unit(numbers, Named::Feature(owner, feature))
}

/// What is named, as a symbol of the unit.
pub(crate) fn symbol_of_names(model: &ClassModel, numbers: &Numbers, symbol: Named) -> Symbol
    requires { IsNamedIn model.now symbol }
    ensures { result ≡ translate_symbol model.now numbers.now symbol }
{
    match symbol {
        Named::Class(class) => Symbol::Class(text_of_unit(numbers, model.class_name(class))),
        Named::Enumeration(enumeration) => {
            Symbol::Enumeration(text_of_unit(numbers, model.enum_name(enumeration)))
        }
        Named::Feature(class, feature) => {
            model.well_formed();
            let name = model.feature_info(feature).name.as_str();
            Symbol::Feature {
                class: text_of_unit(numbers, model.class_name(class)),
                feature: text_of_unit(numbers, name),
            }
        }
        Named::Literal(enumeration, literal) => Symbol::Literal {
            enumeration: text_of_unit(numbers, model.enum_name(enumeration)),
            literal: text_of_unit(numbers, model.literal_name(enumeration, literal)),
        },
    }
}

/// The kind of a single value, as a code file has it.
pub(crate) fn written_scalar(numbers: &Numbers, kind: ScalarKind) -> WrittenScalar
    ensures { result ≡ spec.written_scalar numbers.now kind }
{
    match kind {
        ScalarKind::Void => WrittenScalar::Void,
        ScalarKind::Boolean => WrittenScalar::Boolean,
        ScalarKind::Integer => WrittenScalar::Integer,
        ScalarKind::String => WrittenScalar::String,
        ScalarKind::Enumeration(enumeration) => {
            WrittenScalar::Enumeration(symbol_of_unit(numbers, Named::Enumeration(enumeration)))
        }
        ScalarKind::Class(class) => {
            WrittenScalar::Class(symbol_of_unit(numbers, Named::Class(class)))
        }
        ScalarKind::AnyObject => WrittenScalar::AnyObject,
    }
}

/// The kind of a value, as a code file has it.
pub(crate) fn written_kind(numbers: &Numbers, kind: Kind) -> WrittenKind
    ensures { result ≡ spec.written_kind numbers.now kind }
{
    match kind {
        Kind::Scalar(element) => WrittenKind::Scalar(written_scalar(numbers, element)),
        Kind::Collection(collection, element) => {
            WrittenKind::Collection(collection, written_scalar(numbers, element))
        }
    }
}

/// The field that has the length of a body, in instructions.
pub(crate) fn body_length(body: &[Instr]) -> u16
    requires { length body.now ≤ MAX_COUNTED }
    ensures { result ≡ length body.now }
{
    body.len() as u16
}
