//! Reading a code file.

ghost use Rattle.std.specs.Prelude.{◌≡◌, ◌≢◌, List, Err, IfOk, IfErr, IsErr};
ghost use Rattle.rule_code.specs.Content.{Content, content_of};
ghost use Rattle.rule_code.specs.Readers.{Reads, ReadsOn};
ghost use Rattle.rule_code.specs.CodeFile.{version_from, head_from, whole_from, AnswersDecided, HasNoTexts, decided_from, CodeAnswers, IsReadAs, IsFirstCodeFault};
ghost use Rattle.rule_code.specs.Spelling.{spelling};
ghost use Rattle.rule_code.specs.View.{content};
ghost use Rattle.rule_code.specs.WellFormed.{IsUnit};

mod code;
mod field;
mod kinds;
mod preamble;
mod reader;
mod rules;
mod symbols;
mod texts;

use crate::fault::{CodeFault, CodeFlaw, FieldFault};
use crate::symbol::Symbol;
use crate::unit::{Rule, Unit};
use crate::version::Version;
use field::{u16_from, wrong};
use preamble::Preamble;
use reader::Reader;
use rules::rules_from;
use std::alloc::Global;
use symbols::symbols_from;
use texts::texts_from;

/// The version.
#[tactic(auto, unfolding(crate::specs::CodeFile::version_from))]
fn version_from(reader: &mut Reader<'_>) -> Result<Version, FieldFault>
    ensures gives { ReadsOn (λ x. x) result reader.old reader.new version_from }
    ensures decided { IfErr result (λ e. e ≢ FieldFault.OutOfMemory) }
{
    let here = reader.left;
    match u16_from(reader)? {
        1 => Ok(Version::One),
        2 => Ok(Version::Two),
        _ => Err(wrong(CodeFlaw::Version, here)),
    }
}

/// The magic, then the version.
#[tactic(auto, unfolding(crate::specs::CodeFile::head_from))]
fn head_from(reader: &mut Reader<'_>) -> Result<Version, FieldFault>
    ensures gives { ReadsOn (λ x. x) result reader.old reader.new head_from }
    ensures decided { IfErr result (λ e. e ≢ FieldFault.OutOfMemory) }
{
    let [b'O', b'C', b'L', b'B', rest @ ..] = reader.left else {
        return Err(wrong(CodeFlaw::Magic, reader.left));
    };
    reader.left = rest;
    version_from(reader)
}

type Parts = (Version, Vec<String>, Vec<Symbol>, Vec<Rule>);

#[tactic(auto, unfolding(crate::specs::CodeFile::whole_from))]
fn whole(alloc: Global, bytes: &[u8]) -> Result<Parts, FieldFault>
    ensures gives { Reads (λ x. content_of x.0 x.1.items x.2.items x.3.items) result
        (whole_from bytes.now) }
    ensures decided { IsErr (decided_from bytes.now)
        → IfErr result (λ e. e ≢ FieldFault.OutOfMemory) }
    ensures without_texts { HasNoTexts bytes.now
        → IfErr result (λ e. e ≢ FieldFault.OutOfMemory) }
{
    let mut reader = Reader { left: bytes };
    let version = head_from(&mut reader)?;
    let texts = texts_from(alloc, &mut reader)?;
    let symbols = symbols_from(alloc, texts.len(), &mut reader)?;
    let preamble = Preamble {
        version,
        texts: &texts,
        symbols: &symbols,
    };
    let rules = rules_from(alloc, preamble, &mut reader)?;
    if !reader.left.is_empty() {
        return Err(wrong(CodeFlaw::Trailing, reader.left));
    }
    Ok((version, texts, symbols, rules))
}

/// The unit that the bytes spell, all of the bytes.
///
/// Bytes that spell none are answered by `CodeFault::At`, with the first field in the order of the
/// file that isn't whole or that the format forbids, and the byte where it begins.
/// `CodeFault::OutOfMemory` may come in place of either answer, but for those that are found before anything is
/// allocated: the faults of the magic, the version, the count of texts and the first text, and with no texts all.
pub fn read_unit(alloc: Global, bytes: &[u8]) -> Result<Unit, CodeFault>
    // The bytes spell the unit that is given.
    ensures found { IfOk result (λ u. bytes.now ≡ spelling (content u)) }
    // Bytes that spell a unit are read as it, unless memory runs out.
    ensures only { (u : Content) → IsUnit u → bytes.now ≡ spelling u → IsReadAs u result }
    // What is refused has this first fault.
    ensures fault { IfErr result (IsFirstCodeFault bytes.now) }
    // The same in one: the unit or the first fault of these bytes.
    ensures exact { CodeAnswers bytes.now result }
    // A fault that is found before anything is allocated is answered, whatever memory there is: one of the
    // magic, the version, the count of texts or the first text.
    ensures decided { AnswersDecided bytes.now result }
    // Without texts nothing is allocated, so every answer is given, whatever memory there is.
    ensures without_texts { HasNoTexts bytes.now → result ≢ Err CodeFault.OutOfMemory }
{
    match whole(alloc, bytes) {
        Ok((version, texts, symbols, rules)) => Ok(Unit {
            version,
            texts,
            symbols,
            rules,
        }),
        Err(FieldFault::OutOfMemory) => Err(CodeFault::OutOfMemory),
        Err(FieldFault::At { flaw, left }) => Err(CodeFault::At {
            flaw,
            offset: bytes.len().saturating_sub(left),
        }),
    }
}
