//! A text as rules.

ghost use Rattle.std.specs.Prelude.{◌≡◌, List, IfOk, IfErr, map};
ghost use Rattle.ocl_text.specs.Parses as spec;
ghost use Rattle.ocl_text.specs.Parses.{from};
ghost use Rattle.ocl_text.specs.RuleText.{TextSpells, TextSpellsWithin, NamesDiffer, IfLexical, IfSyntax, IfTooDeep, IfDuplicate, first_offset};
ghost use Rattle.ocl_text.specs.Tree.{Rule};
ghost use Rattle.ocl_text.specs.View.{rule_of};

use crate::cursor::ParseFault;
use crate::duplicates::repeated_offset;
use crate::rules::rules_of;
use crate::tree::SurfaceRule;
use ocl_tokens::{TextFault, TextFlaw, Token, tokens};
use std::alloc::Global;

/// How many constructs may be open round a token: parentheses of every sort, `if`, `let` and prefix operators.
pub const MAX_NESTING: usize = 64;

/// How many operators of one level, or steps by dots and arrows, one chain may have.
pub const MAX_CHAIN: usize = 256;

/// The byte at which this token begins, or the end.
fn offset_at(tokens: &[Token<'_>], end: usize, index: usize) -> usize
    ensures { result ≡ first_offset end (from tokens.now index) }
{
    match tokens.get(index) {
        Some(token) => token.span.start,
        None => end,
    }
}

/// The fault of a text of this length.
fn text_fault(tokens: &[Token<'_>], end: usize, fault: ParseFault) -> TextFault
    ensures { result ≡ spec.text_fault tokens.now end fault }
{
    match fault {
        ParseFault::OutOfMemory => TextFault::OutOfMemory,
        ParseFault::Syntax(index) => TextFault::At {
            flaw: TextFlaw::Syntax,
            offset: offset_at(tokens, end, index),
        },
        ParseFault::TooDeep(index) => TextFault::At {
            flaw: TextFlaw::TooDeep,
            offset: offset_at(tokens, end, index),
        },
    }
}

/// The rules of a text, in the order in which they are written.
///
/// Faults 1 to 5 come before 6 and 7, and those before 8. `TextFault::OutOfMemory` may come in place of any answer.
pub fn parse_rules(alloc: Global, text: &str) -> Result<Vec<SurfaceRule>, TextFault>
    ensures spells { IfOk result (λ rules.
        TextSpellsWithin MAX_NESTING MAX_CHAIN text.now (map rule_of rules.items)) }
    ensures only { IfOk result (λ rules.
        (others : List Rule) → TextSpells text.now others → others ≡ map rule_of rules.items) }
    ensures names { IfOk result (λ rules. NamesDiffer (map rule_of rules.items)) }
    ensures lexical { IfErr result (IfLexical text.now) }
    ensures syntax { IfErr result (IfSyntax text.now) }
    ensures too_deep { IfErr result (IfTooDeep MAX_NESTING MAX_CHAIN text.now) }
    ensures duplicate { IfErr result (IfDuplicate MAX_NESTING MAX_CHAIN text.now) }
{
    let all = tokens(alloc, text)?;
    let tokens = all.as_slice();
    let rules = match rules_of(alloc, tokens, MAX_NESTING, MAX_CHAIN) {
        Ok(rules) => rules,
        Err(fault) => return Err(text_fault(tokens, text.len(), fault)),
    };
    match repeated_offset(alloc, &rules)? {
        None => Ok(rules),
        Some(offset) => Err(TextFault::At {
            flaw: TextFlaw::DuplicateRule,
            offset,
        }),
    }
}
