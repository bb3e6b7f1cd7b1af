//! The name that a misspelled one may have been meant to be.

use std::alloc::{AllocError, Global};
use strsim::levenshtein;

/// The longest name that is compared, in bytes.
const MAX_COMPARED: usize = 128;

/// The nearest of the names that were offered.
#[derive(Drop)]
pub struct Nearest<'a> {
    wanted: &'a str,
    best: Option<&'a str>,
    distance: usize,
}

impl<'a> Nearest<'a> {
    /// Nothing is near the wanted name yet. A name will be where at most a third of its characters must be put in, left
    /// out or replaced, or one of few.
    pub fn to(wanted: &'a str) -> Nearest<'a> {
        Nearest {
            wanted,
            best: None,
            distance: wanted.len().max(3) / 3 + 1,
        }
    }

    /// Offers a name: it is the nearest from now on where it is nearer than those before it.
    pub fn offer(&mut self, alloc: Global, name: &'a str) -> Result<(), AllocError> {
        if self.wanted.len() > MAX_COMPARED || name.len() > MAX_COMPARED {
            return Ok(());
        }
        let distance = levenshtein(alloc, self.wanted, name)?;
        if distance < self.distance {
            self.distance = distance;
            self.best = Some(name);
        }
        Ok(())
    }

    /// The nearest name, where one was near.
    pub fn name(&self) -> Option<&'a str> {
        self.best
    }
}
