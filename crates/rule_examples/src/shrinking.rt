//! A delivery made smaller, as long as it shows the verdict.

use crate::draft::{Draft, DraftValue};
use crate::searching::Searching;
use ocl_base::OutOfMemory;
use std::alloc::Global;

/// How often all parts are gone through.
const ROUNDS: usize = 6;

/// How often one number is made smaller in a round.
const STEPS: usize = 64;

impl Searching<'_> {
    /// Takes a smaller draft, if it shows the verdict.
    fn take(
        &mut self,
        alloc: Global,
        best: &mut Draft,
        smaller: Draft,
    ) -> Result<bool, OutOfMemory> {
        if !self.shows(alloc, &smaller)? {
            return Ok(false);
        }
        *best = smaller;
        Ok(true)
    }

    /// Leaves objects out.
    fn drop_objects(&mut self, alloc: Global, best: &mut Draft) -> Result<(), OutOfMemory> {
        for object in (0..best.object_count()).rev() {
            let smaller = best.without(alloc, object)?;
            self.take(alloc, best, smaller)?;
        }
        Ok(())
    }

    /// Leaves values out.
    fn drop_facts(&mut self, alloc: Global, best: &mut Draft) -> Result<(), OutOfMemory> {
        for index in (0..best.facts.len()).rev() {
            let mut smaller = best.copy(alloc)?;
            smaller.remove_fact(index);
            self.take(alloc, best, smaller)?;
        }
        Ok(())
    }

    /// Tries another value in place of one.
    fn try_value(
        &mut self,
        alloc: Global,
        best: &mut Draft,
        index: usize,
        value: DraftValue,
    ) -> Result<bool, OutOfMemory> {
        let mut smaller = best.copy(alloc)?;
        match smaller.facts.get_mut(index) {
            Some(fact) if fact.value != value => fact.value = value,
            _ => return Ok(false),
        }
        self.take(alloc, best, smaller)
    }

    /// Brings a number towards 0.
    fn shrink_number(
        &mut self,
        alloc: Global,
        best: &mut Draft,
        index: usize,
        number: i64,
    ) -> Result<(), OutOfMemory> {
        let mut number = number;
        for _ in 0..STEPS {
            let half = number.checked_div(2).unwrap_or(0);
            let nearer = number.saturating_sub(number.signum());
            let mut found = None;
            for smaller in [0, half, nearer] {
                if found.is_none()
                    && self.try_value(alloc, best, index, DraftValue::Integer(smaller))?
                {
                    found = Some(smaller);
                }
            }
            match found {
                Some(smaller) => number = smaller,
                None => break,
            }
        }
        Ok(())
    }

    /// Brings a value to the least of its sort that shows the verdict.
    fn shrink_value(
        &mut self,
        alloc: Global,
        best: &mut Draft,
        index: usize,
        value: DraftValue,
    ) -> Result<(), OutOfMemory> {
        match value {
            DraftValue::Integer(number) => self.shrink_number(alloc, best, index, number)?,
            DraftValue::Text(number) => {
                for smaller in 0..number {
                    if self.try_value(alloc, best, index, DraftValue::Text(smaller))? {
                        break;
                    }
                }
            }
            DraftValue::Literal(_) => {
                self.try_value(alloc, best, index, DraftValue::Literal(0))?;
            }
            DraftValue::Boolean(_) => {
                self.try_value(alloc, best, index, DraftValue::Boolean(false))?;
            }
            DraftValue::Object(_) => (),
        }
        Ok(())
    }

    /// Goes through all parts once; whether less is left than before.
    fn shrink_once(&mut self, alloc: Global, best: &mut Draft) -> Result<bool, OutOfMemory> {
        let before = best.facts.len().saturating_add(best.object_count());
        self.drop_objects(alloc, best)?;
        self.drop_facts(alloc, best)?;
        for index in 0..best.facts.len() {
            if let Some(fact) = best.facts.get(index).copied() {
                self.shrink_value(alloc, best, index, fact.value)?;
            }
        }
        Ok(best.facts.len().saturating_add(best.object_count()) < before)
    }

    /// Leaves out of a delivery what it doesn't need to show the verdict, and brings numbers towards 0.
    pub(crate) fn shrink(&mut self, alloc: Global, best: &mut Draft) -> Result<(), OutOfMemory> {
        for _ in 0..ROUNDS {
            if !self.shrink_once(alloc, best)? {
                break;
            }
        }
        Ok(())
    }
}
