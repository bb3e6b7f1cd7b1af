//! Reading the rules of a code file.

ghost use Rattle.std.specs.Prelude.{◌≡◌, ◌≢◌, ◌<◌, ◌||◌, not, List, ℕ, [], map, length, string_bytes, bytes_eq, OnOk, IfOk, IfErr};
ghost use Rattle.rule_code.specs.Content.{rule_content, text_at};
ghost use Rattle.rule_code.specs.Taken.{is_name_taken};
ghost use Rattle.rule_code.specs.Readers.{ReadsOn};
ghost use Rattle.rule_code.specs.Reading.{many_from};
ghost use Rattle.rule_code.specs.Parts.{rule_name_from, rule_from, next_rule_from};
ghost use Rattle.rule_code.specs.Preamble.{preamble_of};
ghost use Rattle.rule_code.specs.CodeFile.{rules_from};

use super::code::code_from;
use super::field::{count_from, symbol_number_from, text_number_from, wrong};
use super::preamble::Preamble;
use super::reader::Reader;
use crate::fault::{CodeFlaw, FieldFault};
use crate::limits::MAX_RULES;
use crate::symbol::{SymbolTag, TextNumber};
use crate::unit::{Rule, text_named};
use ocl_base::is_name;
use std::alloc::{AllocError, Global};
use std::collections::BTreeSet;

/// Takes a name, and says whether it was free.
fn take_name<'t>(taken: &mut BTreeSet<&'t str>, name: &'t str) -> Result<bool, AllocError>
    ensures free { IfOk result (λ free. free ≡ not (is_name_taken taken.old name.now)) }
    ensures taken { OnOk result ((s : List ℕ) → is_name_taken taken.new s ≡
        (bytes_eq name.now s || is_name_taken taken.old s)) }
{
    Ok(taken.insert(name)?)
}

/// The text of a name that isn't taken. From then on it is.
#[tactic(auto, unfolding(crate::specs::Parts::rule_name_from))]
fn rule_name_from<'t>(
    texts: &'t [String],
    taken: &mut BTreeSet<&'t str>,
    reader: &mut Reader<'_>,
) -> Result<TextNumber, FieldFault>
    ensures gives { ReadsOn (λ x. x.0) result reader.old reader.new
        (rule_name_from (map string_bytes texts.now) (is_name_taken taken.old)) }
    ensures taken { IfOk result (λ x. (s : List ℕ) → is_name_taken taken.new s ≡
        (bytes_eq (text_at (map string_bytes texts.now) x.0) s || is_name_taken taken.old s)) }
    ensures named { IfOk result (λ x. 0 < length texts.now) }
    ensures without_texts { length texts.now ≡ 0
        → IfErr result (λ e. e ≢ FieldFault.OutOfMemory) }
{
    let here = reader.left;
    let number = text_number_from(texts.len(), reader)?;
    let name = text_named(texts, number);
    if is_name(name) && take_name(taken, name)? {
        Ok(number)
    } else {
        Err(wrong(CodeFlaw::BadText, here))
    }
}

#[tactic(auto, unfolding(crate::specs::Parts::rule_from))]
fn rule_from<'t>(
    alloc: Global,
    preamble: Preamble<'t>,
    taken: &mut BTreeSet<&'t str>,
    reader: &mut Reader<'_>,
) -> Result<Rule, FieldFault>
    ensures gives { ReadsOn rule_content result reader.old reader.new
        (rule_from (preamble_of preamble.entry) (is_name_taken taken.old)) }
    ensures taken { IfOk result (λ x. (s : List ℕ) → is_name_taken taken.new s ≡
        (bytes_eq (text_at (map string_bytes preamble.entry.texts.now) x.name.0) s ||
        is_name_taken taken.old s)) }
    ensures named { IfOk result (λ x. 0 < length preamble.entry.texts.now) }
    ensures without_texts { length preamble.entry.texts.now ≡ 0
        → IfErr result (λ e. e ≢ FieldFault.OutOfMemory) }
{
    let name = rule_name_from(preamble.texts, taken, reader)?;
    let context = symbol_number_from(SymbolTag::Class, preamble.symbols, reader)?;
    let code = code_from(alloc, preamble, reader)?;
    Ok(Rule {
        name,
        context,
        code,
    })
}

fn many_rules(
    alloc: Global,
    preamble: Preamble,
    count: u16,
    reader: &mut Reader<'_>,
) -> Result<Vec<Rule>, FieldFault>
    ensures gives { ReadsOn (λ x. map rule_content x.items) result reader.old reader.new
        (many_from (next_rule_from (preamble_of preamble.entry)) [] count) }
    ensures without_texts { length preamble.entry.texts.now ≡ 0
        → IfErr result (λ e. e ≢ FieldFault.OutOfMemory) }
{
    let mut taken = BTreeSet::new(alloc);
    let mut rules = Vec::new(alloc);
    for _ in 0..count {
        let rule = rule_from(alloc, preamble, &mut taken, reader)?;
        rules.push(rule)?;
    }
    Ok(rules)
}

#[tactic(auto, unfolding(crate::specs::CodeFile::rules_from))]
pub(super) fn rules_from(
    alloc: Global,
    preamble: Preamble,
    reader: &mut Reader<'_>,
) -> Result<Vec<Rule>, FieldFault>
    ensures gives { ReadsOn (λ x. map rule_content x.items) result reader.old reader.new
        (rules_from (preamble_of preamble.entry)) }
    // Without texts no rule can be named, and nothing is allocated.
    ensures without_texts { length preamble.entry.texts.now ≡ 0
        → IfErr result (λ e. e ≢ FieldFault.OutOfMemory) }
{
    let count = count_from(MAX_RULES, reader)?;
    many_rules(alloc, preamble, count, reader)
}
