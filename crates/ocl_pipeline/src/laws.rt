//! Laws of rule texts, over the definitions alone.

ghost use Rattle.ocl_pipeline.specs.ReadingLaws.{EachTextIsRead, ReadingsAreDetermined};

use ocl_text::{each_list_spells_or_is_refused, rules_are_determined};
use ocl_tokens::{each_text_has_tokens_or_a_fault, tokens_are_determined};

/// All bytes are read as a rule text: as its rules, or as a flaw that it has.
pub fn each_text_is_read()
    ensures { EachTextIsRead }
{
    each_text_has_tokens_or_a_fault();
    each_list_spells_or_is_refused();
}

/// Bytes are read in one way, unless they are refused as Syntax or TooDeep, which may be reported of
/// different tokens.
pub fn readings_are_determined()
    ensures { ReadingsAreDetermined }
{
    tokens_are_determined();
    rules_are_determined();
}
