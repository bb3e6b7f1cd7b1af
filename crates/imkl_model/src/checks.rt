//! Whether counts are within their limits, and bounds in order.

ghost use Rattle.std.specs.Prelude.{◌≡◌, length, nat_le};
ghost use Rattle.std.specs.List.{list_all};
ghost use Rattle.imkl_model.specs.Checks.{is_within_limits, is_multiplicity, has_multiplicity};
ghost use Rattle.imkl_model.specs.WrittenFeatures.{written_features};

use crate::feature::FeatureInfo;
use crate::limits::{MAX_FEATURES, MAX_RENAMES, MAX_TYPES};
use crate::written::{Written, WrittenEnumeration, WrittenFeature};

/// Whether each enumeration has few enough literals.
fn few_literals(enumerations: &[WrittenEnumeration]) -> bool
    ensures { result ≡ list_all (λ e. nat_le (length e.literals) MAX_TYPES) enumerations.now }
{
    for enumeration in enumerations {
        if enumeration.literals.as_slice().len() > MAX_TYPES {
            return false;
        }
    }
    true
}

/// Whether each count is within its limit.
#[tactic(auto, unfolding(crate::specs::Checks::is_within_limits))]
pub(crate) fn is_within_limits(written: &Written, features: &[WrittenFeature]) -> bool
    requires { features.now ≡ written_features written.now }
    ensures { result ≡ is_within_limits written.now }
{
    let classes = written.classes.as_slice();
    let enumerations = written.enumerations.as_slice();
    let old_classes = written.class_renames.as_slice();
    let old_features = written.feature_renames.as_slice();
    classes.len() <= MAX_TYPES
        && enumerations.len() <= MAX_TYPES
        && few_literals(enumerations)
        && features.len() <= MAX_FEATURES
        && old_classes.len().saturating_add(old_features.len()) <= MAX_RENAMES
}

fn is_multiplicity(lower: u32, upper: Option<u32>) -> bool
    ensures { result ≡ is_multiplicity lower upper }
{
    match upper {
        None => true,
        Some(upper) => lower <= upper && upper > 0,
    }
}

/// Whether no lower bound is above its upper bound, and no upper bound is 0.
pub(crate) fn have_multiplicities(features: &[FeatureInfo]) -> bool
    ensures { result ≡ list_all has_multiplicity features.now }
{
    for feature in features {
        if !is_multiplicity(feature.lower, feature.upper) {
            return false;
        }
    }
    true
}
