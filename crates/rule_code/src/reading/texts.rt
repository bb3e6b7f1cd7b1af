//! Reading the texts of a code file.

ghost use Rattle.std.specs.Prelude.{◌≡◌, ◌≢◌, List, ℕ, [], Ok, map, string_bytes, IfErr, IsErr};
ghost use Rattle.std.specs.Int.{w16};
ghost use Rattle.rule_code.specs.Readers.{ReadsOn};
ghost use Rattle.rule_code.specs.Reading.{number_from, many_from};
ghost use Rattle.rule_code.specs.Parts.{text_from};
ghost use Rattle.rule_code.specs.CodeFile.{texts_from, first_of, first_text_from};

use super::field::{count_from, text_bytes_from, u16_from};
use super::reader::Reader;
use crate::fault::FieldFault;
use crate::limits::MAX_TEXT_BYTES;
use std::alloc::Global;

#[tactic(auto, unfolding(crate::specs::Parts::text_from))]
fn text_from(alloc: Global, reader: &mut Reader<'_>) -> Result<String, FieldFault>
    ensures gives { ReadsOn (λ x. string_bytes x) result reader.old reader.new text_from }
    ensures decided { IsErr (text_from reader.old.left.now)
        → IfErr result (λ e. e ≢ FieldFault.OutOfMemory) }
{
    let len = count_from(MAX_TEXT_BYTES, reader)?;
    let text = text_bytes_from(usize::from(len), reader)?;
    Ok(String::from_str(alloc, text)?)
}

#[tactic(auto, using(crate::proofs::Loop::begins))]
fn many_texts(alloc: Global, count: u16, reader: &mut Reader<'_>) -> Result<Vec<String>, FieldFault>
    ensures gives { ReadsOn (λ x. map string_bytes x.items) result reader.old reader.new
        (many_from (λ before. text_from) [] count) }
    ensures first { IsErr (first_of count reader.old.left.now)
        → IfErr result (λ e. e ≢ FieldFault.OutOfMemory) }
    ensures none { count ≡ 0 → IfErr result (λ e. e ≢ FieldFault.OutOfMemory) }
{
    let mut texts = Vec::new(alloc);
    for _ in 0..count {
        let text = text_from(alloc, reader)?;
        texts.push(text)?;
    }
    Ok(texts)
}

#[tactic(auto, unfolding(crate::specs::CodeFile::texts_from, crate::specs::CodeFile::first_text_from))]
pub(super) fn texts_from(alloc: Global, reader: &mut Reader<'_>) -> Result<Vec<String>, FieldFault>
    ensures gives { ReadsOn (λ x. map string_bytes x.items) result reader.old reader.new
        texts_from }
    // Up to the first text nothing is allocated, and without texts nothing at all.
    ensures first { IsErr (first_text_from reader.old.left.now)
        → IfErr result (λ e. e ≢ FieldFault.OutOfMemory) }
    ensures none { (after : List ℕ) → number_from w16 reader.old.left.now ≡ Ok (0, after)
        → IfErr result (λ e. e ≢ FieldFault.OutOfMemory) }
{
    let count = u16_from(reader)?;
    many_texts(alloc, count, reader)
}
