//! A rule of a text alone.

use explain_names::class_name;
use imkl_model::ClassModel;
use ocl_core::CoreRule;
use ocl_tokens::Token;
use std::alloc::{AllocError, Global};

/// A text that has one rule alone, by the rule's tokens in a text.
pub fn lone_rule(
    alloc: Global,
    model: &ClassModel,
    rule: &CoreRule,
    text: &str,
    tokens: &[Token<'_>],
) -> Result<String, AllocError> {
    let class = class_name(model, rule.context);
    let (begin, end) = match (tokens.first(), tokens.last()) {
        (Some(first), Some(last)) => (first.span.start, last.span.end),
        _ => (0, 0),
    };
    let rule = text.get(begin..end).unwrap_or("");
    format!(in alloc; "context {class} {rule}")
}
