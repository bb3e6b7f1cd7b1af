//! Names of rules: no two rules of a text have the same.

use ocl_tokens::{Token, TokenKind};
use std::alloc::{AllocError, Global};
use std::collections::BTreeSet;

/// The names of the rules that were gone through, and how many these are.
#[derive(Drop)]
pub(crate) struct RuleNames {
    seen: BTreeSet<String>,
    count: usize,
}

impl RuleNames {
    /// None yet.
    pub(crate) fn new(alloc: Global) -> RuleNames {
        RuleNames {
            seen: BTreeSet::new(alloc),
            count: 0,
        }
    }

    /// Adds the name of the next rule, of which these are the tokens. One without a name is named by its number. Returns whether
    /// no rule had the name before.
    pub(crate) fn add(&mut self, alloc: Global, tokens: &[Token<'_>]) -> Result<bool, AllocError> {
        self.count = self.count.saturating_add(1);
        let number = self.count;
        let name = match tokens.get(1) {
            Some(token) if matches!(token.kind, TokenKind::Identifier) => {
                String::from_str(alloc, token.text)?
            }
            _ => format!(in alloc; "inv{number}")?,
        };
        Ok(self.seen.insert(name)?)
    }
}
