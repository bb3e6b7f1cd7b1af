//! Reading the symbols of a code file.

ghost use Rattle.std.specs.Prelude.{◌≡◌, ◌≢◌, ◌<◌, List, [], IfOk, IfErr};
ghost use Rattle.rule_code.specs.Readers.{ReadsOn};
ghost use Rattle.rule_code.specs.Reading.{many_from};
ghost use Rattle.rule_code.specs.Parts.{symbol_from};
ghost use Rattle.rule_code.specs.CodeFile.{symbols_from};

use super::field::{byte_from, text_number_from, u16_from, wrong};
use super::reader::Reader;
use crate::fault::{CodeFlaw, FieldFault};
use crate::symbol::Symbol;
use std::alloc::Global;

#[tactic(auto, unfolding(crate::specs::Parts::symbol_from))]
fn symbol_from(texts: usize, reader: &mut Reader<'_>) -> Result<Symbol, FieldFault>
    ensures gives { ReadsOn (λ x. x) result reader.old reader.new (symbol_from texts) }
    ensures named { IfOk result (λ x. 0 < texts) }
    ensures decided { IfErr result (λ e. e ≢ FieldFault.OutOfMemory) }
{
    let here = reader.left;
    match byte_from(reader)? {
        1 => {
            let class = text_number_from(texts, reader)?;
            Ok(Symbol::Class(class))
        }
        2 => {
            let enumeration = text_number_from(texts, reader)?;
            Ok(Symbol::Enumeration(enumeration))
        }
        3 => {
            let class = text_number_from(texts, reader)?;
            let feature = text_number_from(texts, reader)?;
            Ok(Symbol::Feature { class, feature })
        }
        4 => {
            let enumeration = text_number_from(texts, reader)?;
            let literal = text_number_from(texts, reader)?;
            Ok(Symbol::Literal {
                enumeration,
                literal,
            })
        }
        _ => Err(wrong(CodeFlaw::BadNumber, here)),
    }
}

#[tactic(auto, using(crate::proofs::Loop::begins))]
fn many_symbols(
    alloc: Global,
    texts: usize,
    count: u16,
    reader: &mut Reader<'_>,
) -> Result<Vec<Symbol>, FieldFault>
    ensures gives { ReadsOn (λ x. x.items) result reader.old reader.new
        (many_from (λ before. symbol_from texts) [] count) }
    ensures without_texts { texts ≡ 0 → IfErr result (λ e. e ≢ FieldFault.OutOfMemory) }
{
    let mut symbols = Vec::new(alloc);
    for _ in 0..count {
        let symbol = symbol_from(texts, reader)?;
        symbols.push(symbol)?;
    }
    Ok(symbols)
}

#[tactic(auto, unfolding(crate::specs::CodeFile::symbols_from))]
pub(super) fn symbols_from(
    alloc: Global,
    texts: usize,
    reader: &mut Reader<'_>,
) -> Result<Vec<Symbol>, FieldFault>
    ensures gives { ReadsOn (λ x. x.items) result reader.old reader.new (symbols_from texts) }
    // Without texts no symbol can be named, and nothing is allocated.
    ensures without_texts { texts ≡ 0 → IfErr result (λ e. e ≢ FieldFault.OutOfMemory) }
{
    let count = u16_from(reader)?;
    many_symbols(alloc, texts, count, reader)
}
