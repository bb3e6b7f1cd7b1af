//! Reading the instructions of a rule.

ghost use Rattle.std.specs.Prelude.{◌≡◌, ◌++◌, length, List, []};
ghost use Rattle.std.specs.Option.{option_map};
ghost use Rattle.rule_code.specs.Readers.{ReadsOn};
ghost use Rattle.rule_code.specs.Reading.{many_from};
ghost use Rattle.rule_code.specs.KindReading.{row_numbered};
ghost use Rattle.rule_code.specs.Opcodes.{made, plain_opcodes, value_opcodes, operation_opcodes, block_opcodes, fold_opcodes, behind, instr_from};
ghost use Rattle.rule_code.specs.Parts.{code_from};
ghost use Rattle.rule_code.specs.Preamble.{preamble_of};

use super::field::{
    bool_from, byte_from, i64_from, symbol_number_from, text_number_from, u16_from, wrong,
};
use super::kinds::{collection_kind_from, kind_from, single_kind_from};
use super::preamble::Preamble;
use super::reader::Reader;
use crate::fault::{CodeFlaw, FieldFault};
use crate::instruction::Instr;
use crate::symbol::SymbolTag;
use crate::version::Version;
use std::alloc::Global;

/// The instruction without fields that has an opcode.
fn plain(opcode: u8) -> Option<Instr>
    ensures { row_numbered plain_opcodes opcode ≡ option_map made result }
{
    match opcode {
        0x01 => Some(Instr::SelfObject),
        0x07 => Some(Instr::Null),
        0x08 => Some(Instr::Invalid),
        0x10 => Some(Instr::Add),
        0x11 => Some(Instr::Sub),
        0x12 => Some(Instr::Mul),
        0x13 => Some(Instr::Div),
        0x14 => Some(Instr::Mod),
        0x15 => Some(Instr::Neg),
        0x16 => Some(Instr::Abs),
        0x17 => Some(Instr::Min),
        0x18 => Some(Instr::Max),
        0x19 => Some(Instr::Lt),
        0x1a => Some(Instr::Le),
        0x1b => Some(Instr::Gt),
        0x1c => Some(Instr::Ge),
        0x20 => Some(Instr::Not),
        0x21 => Some(Instr::And),
        0x22 => Some(Instr::Or),
        0x23 => Some(Instr::Xor),
        0x24 => Some(Instr::Implies),
        0x29 => Some(Instr::Eqx),
        0x2a => Some(Instr::Undef),
        0x2b => Some(Instr::IsInv),
        0x2c => Some(Instr::TLen),
        0x2d => Some(Instr::SubStr),
        0x30 => Some(Instr::Size),
        0x31 => Some(Instr::IsEmpty),
        0x36 => Some(Instr::Sum),
        _ => None,
    }
}

/// FOLD, which version 2 alone has.
fn fold_from(
    opcode: u8,
    preamble: Preamble,
    here: &[u8],
    reader: &mut Reader<'_>,
) -> Result<Instr, FieldFault>
    ensures { ReadsOn (λ x. x) result reader.old reader.new
        (behind (preamble_of preamble.entry)
        (row_numbered (fold_opcodes preamble.entry.version) opcode) here.now) }
{
    if preamble.version != Version::Two || opcode != 0x4a {
        return Err(wrong(CodeFlaw::BadOpcode, here));
    }
    let kind = single_kind_from(preamble.symbols, reader)?;
    let body = u16_from(reader)?;
    Ok(Instr::Fold(kind, body))
}

/// A block, with the lengths of its bodies.
fn block_from(
    opcode: u8,
    preamble: Preamble,
    here: &[u8],
    reader: &mut Reader<'_>,
) -> Result<Instr, FieldFault>
    ensures { ReadsOn (λ x. x) result reader.old reader.new
        (behind (preamble_of preamble.entry)
        (row_numbered (block_opcodes ++ fold_opcodes preamble.entry.version) opcode) here.now) }
{
    match opcode {
        0x40 => Ok(Instr::Let(u16_from(reader)?)),
        0x41 => {
            let kind = kind_from(preamble.symbols, reader)?;
            let first = u16_from(reader)?;
            let second = u16_from(reader)?;
            Ok(Instr::If(kind, first, second))
        }
        0x42 => Ok(Instr::ForAll(u16_from(reader)?)),
        0x43 => Ok(Instr::Exists(u16_from(reader)?)),
        0x44 => Ok(Instr::One(u16_from(reader)?)),
        0x45 => Ok(Instr::Select(u16_from(reader)?)),
        0x46 => Ok(Instr::Reject(u16_from(reader)?)),
        0x47 => Ok(Instr::Collect(u16_from(reader)?)),
        0x48 => Ok(Instr::CollectFlat(u16_from(reader)?)),
        0x49 => {
            let kind = single_kind_from(preamble.symbols, reader)?;
            let body = u16_from(reader)?;
            Ok(Instr::IsUnique(kind, body))
        }
        _ => fold_from(opcode, preamble, here, reader),
    }
}

/// An operation on values of a written kind, or a block.
fn operation_from(
    opcode: u8,
    preamble: Preamble,
    here: &[u8],
    reader: &mut Reader<'_>,
) -> Result<Instr, FieldFault>
    ensures { ReadsOn (λ x. x) result reader.old reader.new
        (behind (preamble_of preamble.entry)
        (row_numbered (operation_opcodes ++ block_opcodes ++ fold_opcodes preamble.entry.version)
        opcode) here.now) }
{
    match opcode {
        0x28 => Ok(Instr::Eq(kind_from(preamble.symbols, reader)?)),
        0x32 => Ok(Instr::Includes(single_kind_from(preamble.symbols, reader)?)),
        0x33 => Ok(Instr::Count(single_kind_from(preamble.symbols, reader)?)),
        0x34 => Ok(Instr::IncAll(single_kind_from(preamble.symbols, reader)?)),
        0x35 => Ok(Instr::ExcAll(single_kind_from(preamble.symbols, reader)?)),
        0x37 => Ok(Instr::AsSet(single_kind_from(preamble.symbols, reader)?)),
        _ => block_from(opcode, preamble, here, reader),
    }
}

/// An instruction with fields.
fn fields_from(
    opcode: u8,
    preamble: Preamble,
    here: &[u8],
    reader: &mut Reader<'_>,
) -> Result<Instr, FieldFault>
    ensures { ReadsOn (λ x. x) result reader.old reader.new
        (behind (preamble_of preamble.entry)
        (row_numbered (value_opcodes ++ operation_opcodes ++ block_opcodes ++
        fold_opcodes preamble.entry.version) opcode) here.now) }
{
    match opcode {
        0x02 => Ok(Instr::Get(u16_from(reader)?)),
        0x03 => Ok(Instr::Int(i64_from(reader)?)),
        0x04 => Ok(Instr::Bool(bool_from(reader)?)),
        0x05 => Ok(Instr::Text(text_number_from(preamble.texts.len(), reader)?)),
        0x06 => Ok(Instr::Enum(symbol_number_from(SymbolTag::Literal, preamble.symbols, reader)?)),
        0x09 => Ok(Instr::Attr(symbol_number_from(SymbolTag::Feature, preamble.symbols, reader)?)),
        0x0a => Ok(Instr::All(symbol_number_from(SymbolTag::Class, preamble.symbols, reader)?)),
        0x0b => {
            let (collection, element) = collection_kind_from(preamble.symbols, reader)?;
            Ok(Instr::AsColl(collection, element))
        }
        0x0c => Ok(Instr::KindOf(symbol_number_from(SymbolTag::Class, preamble.symbols, reader)?)),
        0x0d => Ok(Instr::TypeOf(symbol_number_from(SymbolTag::Class, preamble.symbols, reader)?)),
        0x0e => Ok(Instr::AsType(symbol_number_from(SymbolTag::Class, preamble.symbols, reader)?)),
        _ => operation_from(opcode, preamble, here, reader),
    }
}

#[tactic(auto, unfolding(crate::specs::Opcodes::instr_from))]
fn instr_from(preamble: Preamble, reader: &mut Reader<'_>) -> Result<Instr, FieldFault>
    ensures { ReadsOn (λ x. x) result reader.old reader.new
        (instr_from (preamble_of preamble.entry)) }
{
    let here = reader.left;
    let opcode = byte_from(reader)?;
    match plain(opcode) {
        Some(instr) => Ok(instr),
        None => fields_from(opcode, preamble, here, reader),
    }
}

#[tactic(auto, using(crate::proofs::Loop::begins))]
fn many_instrs(
    alloc: Global,
    preamble: Preamble,
    count: u16,
    reader: &mut Reader<'_>,
) -> Result<Vec<Instr>, FieldFault>
    ensures { ReadsOn (λ x. x.items) result reader.old reader.new
        (many_from (λ before. instr_from (preamble_of preamble.entry)) [] count) }
{
    let mut code = Vec::new(alloc);
    for _ in 0..count {
        let instr = instr_from(preamble, reader)?;
        code.push(instr)?;
    }
    Ok(code)
}

#[tactic(auto, unfolding(crate::specs::Parts::code_from))]
pub(super) fn code_from(
    alloc: Global,
    preamble: Preamble,
    reader: &mut Reader<'_>,
) -> Result<Vec<Instr>, FieldFault>
    ensures { ReadsOn (λ x. x.items) result reader.old reader.new
        (code_from (preamble_of preamble.entry)) }
{
    let count = u16_from(reader)?;
    many_instrs(alloc, preamble, count, reader)
}
