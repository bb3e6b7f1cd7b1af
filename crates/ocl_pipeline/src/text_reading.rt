//! Reading rule texts.

ghost use Rattle.std.specs.Prelude.{◌≡◌, map, Ok, IfOk, IfErr};
ghost use Rattle.ocl_text.specs.RuleText.{NamesDiffer};
ghost use Rattle.ocl_text.specs.View.{rule_of};
ghost use Rattle.ocl_pipeline.specs.TextReading.{IsFaultRead, ReadsAs};

use ocl_text::{SurfaceRule, parse_rules};
use ocl_tokens::{TextFault, TextFlaw};
use std::alloc::Global;

/// The rules of the bytes of a text. Bytes that aren't UTF-8 have a bad character where the first ill-formed sequence
/// begins.
pub fn read_text(alloc: Global, bytes: &[u8]) -> Result<Vec<SurfaceRule>, TextFault>
    ensures rules { IfOk result (λ v. ReadsAs bytes.now (Ok (map rule_of v.items))) }
    ensures names { IfOk result (λ v. NamesDiffer (map rule_of v.items)) }
    ensures fault { IfErr result (IsFaultRead bytes.now) }
{
    match str::from_utf8(bytes) {
        Ok(text) => parse_rules(alloc, text),
        Err(error) => Err(TextFault::At {
            flaw: TextFlaw::BadCharacter,
            offset: error.valid_up_to(),
        }),
    }
}
