//! Rules of one name.

ghost use Rattle.std.specs.Prelude.{IfOk, MatchOption, [], map};
ghost use Rattle.ocl_text.specs.RuleText.{NamesDiffer, RepeatsAt};
ghost use Rattle.ocl_text.specs.View.{rule_of};

use crate::tree::SurfaceRule;
use std::alloc::{AllocError, Global};
use std::collections::BTreeSet;

/// The offset of the first rule whose name an earlier one has.
pub(crate) fn repeated_offset(
    alloc: Global,
    rules: &[SurfaceRule],
) -> Result<Option<usize>, AllocError>
    ensures { IfOk result (λ found. MatchOption found (NamesDiffer (map rule_of rules.now))
        (λ offset. RepeatsAt [] (map rule_of rules.now) offset)) }
{
    let mut seen = BTreeSet::new(alloc);
    'rules: for rule in rules {
        if !seen.insert(rule.name.as_str())? {
            return Ok(Some(rule.offset));
        }
    }
    Ok(None)
}
