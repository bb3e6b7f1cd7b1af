//! Which limit of a unit a rule passes.

ghost use Rattle.std.specs.Prelude.{◌≡◌};
ghost use Rattle.ocl_compile.specs.Extents.{limit_by};

use crate::extent::Extent;
use crate::fault::Limit;
use rule_verify::{MAX_BLOCKS, MAX_OPERANDS};

/// The most rules of a unit.
const MAX_RULES: usize = rule_code::MAX_RULES as usize;

/// The most texts, the most symbols, and the most instructions of a rule.
pub(crate) const MAX_COUNTED: usize = 65_535;

/// Where counting stops, above every limit.
pub(crate) const COUNTING_END: usize = MAX_COUNTED + 1;

/// The limit that the rule of an index passes by the extent of its code, if any. What it numbers is
/// taken by the unit.
pub(crate) fn limit_passed(index: usize, extent: Extent) -> Option<Limit>
    ensures { result ≡ limit_by index extent }
{
    if index >= MAX_RULES || extent.instructions > MAX_COUNTED {
        Some(Limit::Size)
    } else if extent.blocks > MAX_BLOCKS {
        Some(Limit::Nesting)
    } else if extent.operands > MAX_OPERANDS {
        Some(Limit::Stack)
    } else {
        None
    }
}
