//! Reading the kinds of a code file.

ghost use Rattle.std.specs.Prelude.{◌≡◌};
ghost use Rattle.rule_code.specs.Readers.{ReadsOn};
ghost use Rattle.rule_code.specs.KindReading.{collection_sorts, row_numbered, element_from, single_kind_from, collection_kind_from, kind_from};

use super::field::{byte_from, symbol_number_from, wrong};
use super::reader::Reader;
use crate::fault::{CodeFlaw, FieldFault};
use crate::kind::{WrittenKind, WrittenScalar};
use crate::symbol::{Symbol, SymbolTag};
use ocl_base::CollectionKind;

/// The kind of a single value by its number, where its byte stands here.
fn element_from(
    symbols: &[Symbol],
    number: u8,
    here: &[u8],
    reader: &mut Reader<'_>,
) -> Result<WrittenScalar, FieldFault>
    ensures { ReadsOn (λ x. x) result reader.old reader.new
        (element_from symbols.now number here.now) }
{
    match number {
        0 => Ok(WrittenScalar::Void),
        1 => Ok(WrittenScalar::Boolean),
        2 => Ok(WrittenScalar::Integer),
        3 => Ok(WrittenScalar::String),
        4 => {
            let symbol = symbol_number_from(SymbolTag::Enumeration, symbols, reader)?;
            Ok(WrittenScalar::Enumeration(symbol))
        }
        5 => {
            let symbol = symbol_number_from(SymbolTag::Class, symbols, reader)?;
            Ok(WrittenScalar::Class(symbol))
        }
        6 => Ok(WrittenScalar::AnyObject),
        _ => Err(wrong(CodeFlaw::BadNumber, here)),
    }
}

/// The kind of a collection by its number.
fn collection_of(number: u8) -> Option<CollectionKind>
    ensures { result ≡ row_numbered collection_sorts number }
{
    match number {
        1 => Some(CollectionKind::Set),
        2 => Some(CollectionKind::OrderedSet),
        3 => Some(CollectionKind::Bag),
        4 => Some(CollectionKind::Sequence),
        _ => None,
    }
}

/// The kind of a single value.
#[tactic(auto, unfolding(crate::specs::KindReading::single_kind_from))]
pub(super) fn single_kind_from(
    symbols: &[Symbol],
    reader: &mut Reader<'_>,
) -> Result<WrittenScalar, FieldFault>
    ensures { ReadsOn (λ x. x) result reader.old reader.new (single_kind_from symbols.now) }
{
    let here = reader.left;
    let byte = byte_from(reader)?;
    element_from(symbols, byte, here, reader)
}

/// The kind of a collection.
#[tactic(auto, unfolding(crate::specs::KindReading::collection_kind_from))]
pub(super) fn collection_kind_from(
    symbols: &[Symbol],
    reader: &mut Reader<'_>,
) -> Result<(CollectionKind, WrittenScalar), FieldFault>
    ensures { ReadsOn (λ x. x) result reader.old reader.new (collection_kind_from symbols.now) }
{
    let here = reader.left;
    let byte = byte_from(reader)?;
    let Some(collection) = collection_of(byte / 16) else {
        return Err(wrong(CodeFlaw::BadNumber, here));
    };
    let element = element_from(symbols, byte % 16, here, reader)?;
    Ok((collection, element))
}

/// A kind, of a single value or of a collection.
#[tactic(auto, unfolding(crate::specs::KindReading::kind_from))]
pub(super) fn kind_from(
    symbols: &[Symbol],
    reader: &mut Reader<'_>,
) -> Result<WrittenKind, FieldFault>
    ensures { ReadsOn (λ x. x) result reader.old reader.new (kind_from symbols.now) }
{
    let [byte, ..] = reader.left else {
        return Err(wrong(CodeFlaw::Truncated, reader.left));
    };
    if *byte < 16 {
        let element = single_kind_from(symbols, reader)?;
        Ok(WrittenKind::Scalar(element))
    } else {
        let (collection, element) = collection_kind_from(symbols, reader)?;
        Ok(WrittenKind::Collection(collection, element))
    }
}
