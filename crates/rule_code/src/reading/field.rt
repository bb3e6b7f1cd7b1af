//! The single fields of a code file.

ghost use Rattle.std.specs.Prelude.{◌≡◌, ◌≢◌, ◌<◌, [], ◌∷◌, length, IfOk, IfErr};
ghost use Rattle.std.specs.Int.{w16, w64};
ghost use Rattle.rule_code.specs.SymbolTag.{has_tag, is_symbol_of};
ghost use Rattle.rule_code.specs.Readers.{ReadsOn};
ghost use Rattle.rule_code.specs.Reading.{number_from, count_from, text_number_from, symbol_number_from, text_bytes_from};
ghost use Rattle.rule_code.specs.Opcodes.{integer_from, boolean_from};

use super::reader::Reader;
use crate::fault::{CodeFlaw, FieldFault};
use crate::symbol::{Symbol, SymbolNumber, SymbolTag, TextNumber};

/// The fault of the field that begins at these bytes.
pub(super) fn wrong(flaw: CodeFlaw, bytes: &[u8]) -> FieldFault
    ensures { result ≡ FieldFault.At flaw (length bytes.now) }
{
    FieldFault::At {
        flaw,
        left: bytes.len(),
    }
}

/// The byte that comes next.
pub(super) fn byte_from(reader: &mut Reader<'_>) -> Result<u8, FieldFault>
    ensures byte { IfOk result (λ b. reader.old.left.now ≡ b ∷ reader.new.left.now) }
    ensures none { IfErr result (λ e. reader.old.left.now ≡ []) }
    ensures cut { IfErr result (λ e. e ≡ FieldFault.At CodeFlaw.Truncated 0) }
{
    let [byte, rest @ ..] = reader.left else {
        return Err(wrong(CodeFlaw::Truncated, reader.left));
    };
    reader.left = rest;
    Ok(*byte)
}

/// A number of two bytes.
pub(super) fn u16_from(reader: &mut Reader<'_>) -> Result<u16, FieldFault>
    ensures gives { ReadsOn (λ x. x) result reader.old reader.new (number_from w16) }
    ensures decided { IfErr result (λ e. e ≢ FieldFault.OutOfMemory) }
{
    let here = reader.left;
    if here.len() < 2 {
        return Err(wrong(CodeFlaw::Truncated, here));
    }
    let (number, rest) = here.split_at(2);
    reader.left = rest;
    Ok(u16::from_be_bytes([number[0], number[1]]))
}

/// A number of eight bytes.
fn u64_from(reader: &mut Reader<'_>) -> Result<u64, FieldFault>
    ensures { ReadsOn (λ x. x) result reader.old reader.new (number_from w64) }
{
    let here = reader.left;
    if here.len() < 8 {
        return Err(wrong(CodeFlaw::Truncated, here));
    }
    let (number, rest) = here.split_at(8);
    reader.left = rest;
    Ok(u64::from_be_bytes([
        number[0], number[1], number[2], number[3], number[4], number[5], number[6], number[7],
    ]))
}

/// An Integer, in eight bytes.
#[tactic(auto, unfolding(crate::specs::Opcodes::integer_from))]
pub(super) fn i64_from(reader: &mut Reader<'_>) -> Result<i64, FieldFault>
    ensures { ReadsOn (λ x. x) result reader.old reader.new integer_from }
{
    let number = u64_from(reader)?;
    Ok(number.cast_signed())
}

/// A Boolean: a byte 0 or 1.
#[tactic(auto, unfolding(crate::specs::Opcodes::boolean_from))]
pub(super) fn bool_from(reader: &mut Reader<'_>) -> Result<bool, FieldFault>
    ensures { ReadsOn (λ x. x) result reader.old reader.new boolean_from }
{
    let here = reader.left;
    match byte_from(reader)? {
        0 => Ok(false),
        1 => Ok(true),
        _ => Err(wrong(CodeFlaw::BadNumber, here)),
    }
}

/// How many there are, at most `limit`.
#[tactic(auto, unfolding(crate::specs::Reading::count_from))]
pub(super) fn count_from(limit: u16, reader: &mut Reader<'_>) -> Result<u16, FieldFault>
    ensures gives { ReadsOn (λ x. x) result reader.old reader.new (count_from limit) }
    ensures decided { IfErr result (λ e. e ≢ FieldFault.OutOfMemory) }
{
    let here = reader.left;
    let count = u16_from(reader)?;
    if limit < count {
        return Err(wrong(CodeFlaw::Limit, here));
    }
    Ok(count)
}

/// The number of a text, of which there are `texts`.
#[tactic(auto, unfolding(crate::specs::Reading::text_number_from))]
pub(super) fn text_number_from(
    texts: usize,
    reader: &mut Reader<'_>,
) -> Result<TextNumber, FieldFault>
    ensures gives { ReadsOn (λ x. x.0) result reader.old reader.new (text_number_from texts) }
    ensures in_range { IfOk result (λ x. x.0 < texts) }
    ensures decided { IfErr result (λ e. e ≢ FieldFault.OutOfMemory) }
{
    let here = reader.left;
    let number = u16_from(reader)?;
    if usize::from(number) < texts {
        Ok(TextNumber(number))
    } else {
        Err(wrong(CodeFlaw::BadNumber, here))
    }
}

/// Whether the symbol has this tag.
fn has_tag(symbol: Symbol, tag: SymbolTag) -> bool
    ensures { result ≡ has_tag tag symbol }
{
    symbol.tag() == tag
}

/// Whether the number is that of a symbol with this tag.
fn is_symbol_of(tag: SymbolTag, symbols: &[Symbol], number: u16) -> bool
    ensures { result ≡ is_symbol_of tag symbols.now number }
{
    match symbols.get(usize::from(number)) {
        Some(symbol) => has_tag(*symbol, tag),
        None => false,
    }
}

/// The number of a symbol with this tag.
#[tactic(auto, unfolding(crate::specs::Reading::symbol_number_from))]
pub(super) fn symbol_number_from(
    tag: SymbolTag,
    symbols: &[Symbol],
    reader: &mut Reader<'_>,
) -> Result<SymbolNumber, FieldFault>
    ensures { ReadsOn (λ x. x.0) result reader.old reader.new (symbol_number_from tag symbols.now) }
{
    let here = reader.left;
    let number = u16_from(reader)?;
    if is_symbol_of(tag, symbols, number) {
        Ok(SymbolNumber(number))
    } else {
        Err(wrong(CodeFlaw::BadNumber, here))
    }
}

/// A text of `len` bytes.
#[tactic(auto, unfolding(crate::specs::Reading::text_bytes_from))]
pub(super) fn text_bytes_from<'a>(
    len: usize,
    reader: &mut Reader<'a>,
) -> Result<&'a str, FieldFault>
    ensures gives { ReadsOn (λ x. x.now) result reader.old reader.new (text_bytes_from len) }
    ensures decided { IfErr result (λ e. e ≢ FieldFault.OutOfMemory) }
{
    let here = reader.left;
    if here.len() < len {
        return Err(wrong(CodeFlaw::Truncated, here));
    }
    let (text, rest) = here.split_at(len);
    reader.left = rest;
    match str::from_utf8(text) {
        Ok(text) => Ok(text),
        Err(_) => Err(wrong(CodeFlaw::BadText, here)),
    }
}
