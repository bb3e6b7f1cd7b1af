//! A text as tokens.

ghost use Rattle.std.specs.Prelude.{IfOk, IfErr};
ghost use Rattle.ocl_tokens.specs.Terminals.{terminals, AreSpanned};
ghost use Rattle.ocl_tokens.specs.Lexical.{Lexes, IsLexicalFault};

use crate::fault::TextFault;
use crate::lexeme::{Lexeme, first_lexeme};
use crate::token::{Span, Token};
use std::alloc::Global;

/// The tokens of a text, or the first of its faults 1 to 5.
///
/// White space and comments come between tokens, and each token is the longest that fits.
pub fn tokens(alloc: Global, text: &str) -> Result<Vec<Token<'_>>, TextFault>
    ensures tokens { IfOk result (λ ts. Lexes text.now (terminals ts.items)) }
    ensures spans { IfOk result (λ ts. AreSpanned 0 text.now ts.items) }
    ensures fault { IfErr result (IsLexicalFault text.now) }
{
    let mut all = Vec::new(alloc);
    let mut rest = text;
    let mut at = 0;
    'tokens: loop {
        match first_lexeme(rest) {
            Lexeme::End => return Ok(all),
            Lexeme::Fault(flaw, distance) => {
                return Err(TextFault::At {
                    flaw,
                    offset: at + distance,
                });
            }
            Lexeme::Blank(len) => {
                rest = &rest[len..];
                at += len;
            }
            Lexeme::Token(kind, len) => {
                let (text, after) = rest.split_at(len);
                let span = Span {
                    start: at,
                    end: at + len,
                };
                all.push(Token { kind, span, text })?;
                rest = after;
                at += len;
            }
        }
    }
}
