//! What the verifier's walk over a rule comes to, in words.

use crate::kinds::kind_list;
use imkl_model::ClassModel;
use rule_verify::{Reached, Resolved, VerifyFault, Watch, check_rule};
use std::alloc::{AllocError, Global};

/// The kinds on the stack at each place that the walk came to.
#[derive(Drop)]
pub(crate) struct Seen<'m> {
    alloc: Global,
    model: &'m ClassModel,
    /// The operands before each instruction.
    operands: Vec<String>,
    /// Those at the last place, if it is the end of a body or of the rule.
    ending: Option<String>,
    /// The variables at the last place.
    variables: String,
    /// How many instructions are left of the innermost open body after the last place.
    left: usize,
    is_out_of_memory: bool,
}

impl<'m> Seen<'m> {
    /// Walks over a rule of a unit up to its first fault. A unit without such a rule has nothing to see.
    pub(crate) fn of_rule(
        alloc: Global,
        resolved: &Resolved<'m>,
        rule: usize,
    ) -> Result<Seen<'m>, AllocError> {
        let mut seen = Seen {
            alloc,
            model: resolved.model(),
            operands: Vec::new(alloc),
            ending: None,
            variables: String::new(alloc),
            left: 0,
            is_out_of_memory: false,
        };
        if rule >= resolved.unit().rules.len() {
            return Ok(seen);
        }
        match check_rule(alloc, resolved, rule, &mut seen) {
            Err(VerifyFault::OutOfMemory) => Err(AllocError),
            _ if seen.is_out_of_memory => Err(AllocError),
            _ => Ok(seen),
        }
    }

    /// Notes a place.
    fn note(&mut self, reached: Reached<'_>) -> Result<(), AllocError> {
        let kinds = kind_list(self.alloc, self.model, reached.operands)?;
        self.variables = kind_list(self.alloc, self.model, reached.variables)?;
        self.left = reached.end.saturating_sub(reached.at).saturating_sub(1);
        if reached.at == reached.end {
            self.ending = Some(kinds);
            return Ok(());
        }
        self.ending = None;
        self.operands.push(kinds)?;
        Ok(())
    }

    /// The operands before the instruction of an index; empty where there are none, or the walk didn't come to it.
    pub(crate) fn operands_before(&self, index: usize) -> &str {
        match self.operands.get(index) {
            Some(kinds) => kinds.as_str(),
            None => "",
        }
    }

    /// The operands at the last place.
    pub(crate) fn last_operands(&self) -> &str {
        match self.ending.as_ref().or(self.operands.last()) {
            Some(kinds) => kinds.as_str(),
            None => "",
        }
    }

    /// The variables at the last place.
    pub(crate) fn last_variables(&self) -> &str {
        self.variables.as_str()
    }

    /// How many instructions are left of the innermost open body after the last place.
    pub(crate) fn left(&self) -> usize {
        self.left
    }
}

impl Watch for Seen<'_> {
    fn reach(&mut self, reached: Reached<'_>) {
        if self.note(reached).is_err() {
            self.is_out_of_memory = true;
        }
    }
}
