//! How long the values are that symbols name.

ghost use Rattle.std.specs.Prelude.{◌≡◌, ◌<◌, length};
ghost use Rattle.imkl_model.specs.ClassModel.{feature_at};
ghost use Rattle.rule_verify.specs.Symbols.{named_at};
ghost use Rattle.rule_cost.specs.Bounds as spec;
ghost use Rattle.rule_cost.specs.CostWalk.{IsSizedCode};

use crate::sized::SizedCode;
use imkl_model::{ElementType, FeatureNo};
use imkl_population::Sizes;
use rule_code::SymbolNumber;
use rule_verify::Named;

/// The most members of an attribute's value.
fn attribute_length(sizes: &Sizes<'_>, feature: FeatureNo, upper: Option<u32>) -> u64
    requires { feature < length sizes.now.model.features }
    ensures { result ≡ spec.attribute_length sizes.now feature upper }
{
    match upper {
        Some(upper) => u64::from(upper),
        None => sizes.longest(feature),
    }
}

/// The most members of an association end.
fn end_length(sizes: &Sizes<'_>, feature: FeatureNo) -> u64
    requires { feature < length sizes.now.model.features }
    ensures { result ≡ spec.end_length sizes.now
        (feature_at sizes.now.model feature).element (feature_at sizes.now.model feature).upper }
{
    sizes.model().well_formed();
    let info = sizes.model().feature_info(feature);
    let ElementType::Class(class) = info.element else {
        return 0;
    };
    let count = sizes.count(class);
    match info.upper {
        Some(upper) => u64::from(upper).min(count),
        None => count,
    }
}

/// The most members of a feature's value.
fn feature_length(sizes: &Sizes<'_>, feature: FeatureNo) -> u64
    requires { feature < length sizes.now.model.features }
    ensures { result ≡ spec.feature_length sizes.now feature
        (feature_at sizes.now.model feature) }
{
    let info = sizes.model().feature_info(feature);
    if info.role.is_attribute() {
        attribute_length(sizes, feature, info.upper)
    } else {
        end_length(sizes, feature)
    }
}

/// The number of instances of the class that a symbol names, or the most members of the feature.
pub(crate) fn named_length(code: &SizedCode<'_>, symbol: SymbolNumber) -> u64
    requires code { IsSizedCode code.now }
    requires symbol { symbol.0 < length code.now.accepted.now.unit.symbols }
    ensures { result ≡ spec.named_length code.now.sizes.now.model code.now.sizes.now
        (named_at code.now.sizes.now.model code.now.accepted.now.unit symbol.0) }
{
    let Some(name) = code.accepted.named(symbol) else {
        return 0;
    };
    match name {
        Named::Class(class) => code.sizes.count(class),
        Named::Feature(_, feature) => feature_length(code.sizes, feature),
        _ => 0,
    }
}
