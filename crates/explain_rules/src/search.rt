//! The search for the faults of the sections of a rule text. Of each section the first one is explained, and none that only follows
//! from what couldn't be read: no type of a rule whose class isn't known, and no name that is declared in an unread part.

use crate::context::{Context, is_class, put_spaces};
use crate::names::RuleNames;
use crate::sections::{Range, Section, part_of};
use explain_faults::Faults;
use explain_notes::Input;
use explain_text::explain_flaw_in;
use explain_types::explain_type_flaw;
use imkl_model::ClassModel;
use ocl_text::{SurfaceRule, parse_rules};
use ocl_tokens::{TextFault, TextFlaw, Token, TokenKind};
use ocl_types::{RulesFault, check_rules};
use std::alloc::{AllocError, Global};

/// The most names that are kept of unread parts.
const MAX_DECLARED: usize = 100;

/// Where the first fault of a rule is, and whether it is one of its types.
#[derive(Clone, Copy)]
struct RuleFault {
    offset: usize,
    is_of_types: bool,
}

/// What is looked for in a text.
#[derive(Drop)]
pub(crate) struct Search<'t> {
    /// The text as it was written.
    pub(crate) input: Input<'t>,
    /// The text with spaces in place of the faults of its characters.
    pub(crate) text: &'t str,
    /// Where these faults are.
    pub(crate) places: &'t [usize],
    pub(crate) model: &'t ClassModel,
    /// How many more faults may be explained.
    pub(crate) left: usize,
    /// The context of the rules that come next.
    pub(crate) context: Context<'t>,
    /// Names that unread parts may declare.
    pub(crate) declared: Vec<&'t str>,
    /// Names of the rules before.
    pub(crate) names: RuleNames,
}

impl<'t> Search<'t> {
    /// Counts one more fault.
    fn count(&mut self) {
        self.left = self.left.saturating_sub(1);
    }

    /// Goes past tokens that aren't read, those from an offset on. A class right behind another name looks like a misspelled
    /// `context` before it.
    fn pass(&mut self, tokens: &[Token<'t>], offset: usize) -> Result<(), AllocError> {
        let mut before: Option<Token<'t>> = None;
        for token in tokens {
            if let Some(name) = before
                && name.span.start >= offset
                && matches!(name.kind, TokenKind::Identifier)
            {
                if is_class(self.model, token) {
                    self.context = Context::unknown();
                }
                if matches!(token.kind, TokenKind::Colon | TokenKind::Open)
                    && self.declared.len() < MAX_DECLARED
                {
                    self.declared.push(name.text)?;
                }
            }
            before = Some(*token);
        }
        Ok(())
    }

    /// Whether the token at an offset is a name that an unread part may declare.
    fn is_declared(&self, tokens: &[Token<'t>], offset: usize) -> bool {
        for token in tokens {
            if token.span.start == offset {
                return self.declared.iter().any(|name| *name == token.text);
            }
        }
        false
    }

    /// Writes the first fault of the grammar of a section, read behind a text that is given.
    fn explain_broken(
        &mut self,
        alloc: Global,
        out: &mut Faults,
        read: String,
        range: Range,
    ) -> Result<(), AllocError> {
        let mut read = read;
        read.push_str(part_of(self.text, range.start, self.text.len()))?;
        match parse_rules(alloc, read.as_str()) {
            Err(TextFault::At { flaw, offset }) if offset <= range.end => {
                self.count();
                explain_flaw_in(alloc, out, self.input, read.as_str(), flaw, offset)
            }
            Err(TextFault::OutOfMemory) => Err(AllocError),
            _ => Ok(()),
        }
    }

    /// Writes the first fault of the types of rules, of which there is one.
    fn explain_untyped_rule(
        &mut self,
        alloc: Global,
        out: &mut Faults,
        rules: &[SurfaceRule],
    ) -> Result<(), AllocError> {
        match check_rules(alloc, self.model, rules) {
            Ok(_) => Ok(()),
            Err(RulesFault::At { flaw, offset, .. }) => {
                self.count();
                let (input, model) = (self.input, self.model);
                explain_type_flaw(alloc, out, input, model, rules, flaw, 0, offset)
            }
            Err(RulesFault::OutOfMemory) => Err(AllocError),
        }
    }

    /// Writes the first fault of the types of a text with one rule.
    fn explain_types(
        &mut self,
        alloc: Global,
        out: &mut Faults,
        read: &str,
    ) -> Result<(), AllocError> {
        match parse_rules(alloc, read) {
            Ok(rules) => self.explain_untyped_rule(alloc, out, &rules),
            Err(TextFault::At { .. }) => Ok(()),
            Err(TextFault::OutOfMemory) => Err(AllocError),
        }
    }

    /// Writes that the class of the context isn't there.
    fn explain_class(&mut self, alloc: Global, out: &mut Faults) -> Result<(), AllocError> {
        let end = self.context.end().saturating_add(1);
        match self.context.placed(alloc, end)? {
            Some(mut read) => {
                read.push_str("inv: true")?;
                self.explain_types(alloc, out, read.as_str())
            }
            None => Ok(()),
        }
    }

    /// Writes the fault of a heading, behind which a rule comes or not, and goes on with its context.
    fn explain_heading(
        &mut self,
        alloc: Global,
        out: &mut Faults,
        tokens: &[Token<'t>],
        heading: Range,
        has_rule: bool,
    ) -> Result<(), AllocError> {
        let is_spoiled = heading.has_one_of(self.places);
        if has_rule && let Some(context) = Context::of(self.model, tokens) {
            self.context = context;
            if context.is_typed || is_spoiled {
                return Ok(());
            }
            return self.explain_class(alloc, out);
        }
        self.pass(tokens, heading.start)?;
        if is_spoiled {
            self.context = Context::unknown();
            return Ok(());
        }
        self.context = Context::meant(self.model, tokens);
        if tokens.is_empty() && !has_rule {
            return Ok(());
        }
        let mut read = String::new(alloc);
        put_spaces(&mut read, heading.start)?;
        self.explain_broken(alloc, out, read, heading)
    }

    /// The first fault of the types of rules that are read of a text.
    fn type_fault_of(
        &self,
        alloc: Global,
        rules: &[SurfaceRule],
    ) -> Result<Option<RuleFault>, AllocError> {
        if !self.context.is_typed {
            return Ok(None);
        }
        match check_rules(alloc, self.model, rules) {
            Ok(_) => Ok(None),
            Err(RulesFault::At { offset, .. }) => Ok(Some(RuleFault {
                offset,
                is_of_types: true,
            })),
            Err(RulesFault::OutOfMemory) => Err(AllocError),
        }
    }

    /// The first fault of a rule, read behind its context alone.
    fn fault_of(&self, alloc: Global, rule: Range) -> Result<Option<RuleFault>, AllocError> {
        let class = self.context.class;
        let mut alone = format!(in alloc; "context {class} ")?;
        let before = alone.len();
        alone.push_str(rule.of(self.text))?;
        let found = match parse_rules(alloc, alone.as_str()) {
            Ok(rules) => self.type_fault_of(alloc, &rules)?,
            Err(TextFault::At { offset, .. }) => Some(RuleFault {
                offset,
                is_of_types: false,
            }),
            Err(TextFault::OutOfMemory) => return Err(AllocError),
        };
        let Some(fault) = found else {
            return Ok(None);
        };
        let inside = fault.offset.saturating_sub(before);
        Ok(Some(RuleFault {
            offset: rule.start.saturating_add(inside),
            ..fault
        }))
    }

    /// Writes that a rule of these tokens has the name of another one, if it has.
    fn explain_name(
        &mut self,
        alloc: Global,
        out: &mut Faults,
        tokens: &[Token<'t>],
        rule: Range,
    ) -> Result<(), AllocError> {
        if self.names.add(alloc, tokens)? {
            return Ok(());
        }
        self.count();
        let (input, text) = (self.input, self.text);
        explain_flaw_in(alloc, out, input, text, TextFlaw::DuplicateRule, rule.start)
    }

    /// Writes the first fault of a rule, if it has one that is written.
    fn explain_fault(
        &mut self,
        alloc: Global,
        out: &mut Faults,
        tokens: &[Token<'t>],
        rule: Range,
    ) -> Result<(), AllocError> {
        if rule.has_one_of(self.places) {
            return self.pass(tokens, rule.start);
        }
        let Some(fault) = self.fault_of(alloc, rule)? else {
            return Ok(());
        };
        if fault.is_of_types && self.is_declared(tokens, fault.offset) {
            return Ok(());
        }
        let placed = self.context.before(alloc, rule.start)?;
        if !fault.is_of_types {
            self.pass(tokens, fault.offset)?;
        }
        let Some(mut read) = placed else {
            return Ok(());
        };
        if fault.is_of_types {
            read.push_str(rule.of(self.text))?;
            return self.explain_types(alloc, out, read.as_str());
        }
        self.explain_broken(alloc, out, read, rule)
    }

    /// Writes what is wrong with a rule: its name, and its first fault.
    fn explain_rule(
        &mut self,
        alloc: Global,
        out: &mut Faults,
        tokens: &[Token<'t>],
        rule: Range,
    ) -> Result<(), AllocError> {
        self.explain_name(alloc, out, tokens, rule)?;
        if self.left == 0 {
            return Ok(());
        }
        self.explain_fault(alloc, out, tokens, rule)
    }

    /// Writes what is wrong with a section, behind which a rule comes or not.
    fn explain_section(
        &mut self,
        alloc: Global,
        out: &mut Faults,
        tokens: &[Token<'t>],
        section: Section,
        has_rule: bool,
    ) -> Result<(), AllocError> {
        let Some(own) = tokens.get(section.first..section.last) else {
            return Ok(());
        };
        if section.is_rule {
            self.explain_rule(alloc, out, own, section.range)
        } else {
            self.explain_heading(alloc, out, own, section.range, has_rule)
        }
    }

    /// Writes what is wrong with each section.
    pub(crate) fn explain_sections(
        &mut self,
        alloc: Global,
        out: &mut Faults,
        tokens: &[Token<'t>],
        sections: &[Section],
    ) -> Result<(), AllocError> {
        for index in 0..sections.len() {
            if self.left > 0 {
                let has_rule = is_rule_at(sections, index.saturating_add(1));
                self.explain_section(alloc, out, tokens, sections[index], has_rule)?;
            }
        }
        Ok(())
    }
}

/// Whether the section of an index is a rule.
fn is_rule_at(sections: &[Section], index: usize) -> bool {
    match sections.get(index) {
        Some(section) => section.is_rule,
        None => false,
    }
}
