//! The search for a delivery that shows a verdict.

use crate::choosing::Choices;
use crate::constants::Constants;
use crate::draft::Draft;
use crate::json::{Writing, id_of};
use crate::making::Maker;
use crate::shapes::Shapes;
use crate::trial::{Lacking, Trial, Tried, Wanted};
use ocl_base::OutOfMemory;
use rule_values::Verdict;
use std::alloc::Global;

/// How many changes are made to a draft before a new one is begun.
const CHANGES: usize = 24;

/// How many are made where other rules have to hold.
const CHANGES_BESIDE: usize = 600;

/// How far is searched.
#[derive(Clone, Copy, Drop)]
pub struct Limits {
    /// What the random choices begin with: the same seed gives the same delivery.
    pub seed: u64,
    /// How many deliveries are tried.
    pub tries: u64,
    /// The most objects of a delivery.
    pub objects: usize,
}

/// A delivery that was found.
#[derive(Drop)]
pub struct Sketch {
    /// The delivery.
    pub delivery: String,
    /// The id of an object that has the verdict.
    pub id: String,
}

/// A search for a delivery.
#[derive(Drop)]
pub(crate) struct Searching<'a> {
    trial: Trial<'a>,
    maker: Maker<'a>,
    verdict: Verdict,
}

impl Searching<'_> {
    /// The text of a draft.
    fn text<'x>(&'x self, alloc: Global, draft: &'x Draft) -> Result<String, OutOfMemory> {
        let writing = Writing {
            shapes: &self.maker.shapes,
            constants: &self.maker.constants,
            draft,
        };
        Ok(writing.text(alloc)?)
    }

    /// What a draft comes to.
    fn judge(&mut self, alloc: Global, draft: &Draft) -> Result<Tried, OutOfMemory> {
        let text = self.text(alloc, draft)?;
        let objects = draft.object_count();
        let wanted = Wanted {
            objects,
            verdict: self.verdict,
            first: self.maker.choices.below(objects),
            which: self.maker.choices.below(usize::MAX),
        };
        self.trial.judge(alloc, text.as_str().as_bytes(), wanted)
    }

    /// Whether a draft shows the verdict.
    pub(crate) fn shows(&mut self, alloc: Global, draft: &Draft) -> Result<bool, OutOfMemory> {
        Ok(matches!(self.judge(alloc, draft)?, Tried::Shows(_)))
    }

    /// A new draft; the first are the smallest.
    fn new_draft(&mut self, alloc: Global, begun: u64) -> Result<Draft, OutOfMemory> {
        let most = self.maker.objects;
        let size = (begun as usize).checked_rem(most).unwrap_or(0);
        let context = self.trial.context();
        Ok(
            self.maker
                .new_draft(alloc, context, size.saturating_add(1))?,
        )
    }

    /// Changes a draft so many times, each time the last one that lacked no more than those before; whether it then shows the
    /// verdict.
    fn improve(
        &mut self,
        alloc: Global,
        draft: &mut Draft,
        tries: usize,
    ) -> Result<bool, OutOfMemory> {
        let mut kept = draft.copy(alloc)?;
        let mut lacks = Lacking {
            why: String::new(alloc),
            distance: usize::MAX,
        };
        for _ in 0..tries {
            match self.judge(alloc, draft)? {
                Tried::Shows(_) => return Ok(true),
                Tried::Otherwise(lacking) if lacking.distance <= lacks.distance => {
                    lacks = lacking;
                    kept = draft.copy(alloc)?;
                }
                Tried::Otherwise(_) | Tried::Refused => (),
            }
            let context = self.trial.context();
            *draft = self
                .maker
                .changed(alloc, &kept, context, lacks.why.as_str())?;
        }
        Ok(false)
    }

    /// A draft that shows the verdict, if one is found in so many tries.
    fn find(&mut self, alloc: Global, tries: u64) -> Result<Option<Draft>, OutOfMemory> {
        let changes = if self.trial.has_others() {
            CHANGES_BESIDE
        } else {
            CHANGES
        };
        let rounds = tries.checked_div(changes as u64).unwrap_or(0);
        for begun in 0..rounds {
            let mut draft = self.new_draft(alloc, begun)?;
            if self.improve(alloc, &mut draft, changes)? {
                return Ok(Some(draft));
            }
        }
        let mut draft = self.new_draft(alloc, rounds)?;
        let left = tries.checked_rem(changes as u64).unwrap_or(0);
        if self.improve(alloc, &mut draft, left as usize)? {
            return Ok(Some(draft));
        }
        Ok(None)
    }

    /// A draft as a delivery, with the id of an object that has the verdict.
    fn sketch(&mut self, alloc: Global, draft: &Draft) -> Result<Option<Sketch>, OutOfMemory> {
        let Tried::Shows(object) = self.judge(alloc, draft)? else {
            return Ok(None);
        };
        Ok(Some(Sketch {
            delivery: self.text(alloc, draft)?,
            id: id_of(alloc, &self.maker.shapes, draft, object)?,
        }))
    }
}

/// Searches for a delivery in which an object has a verdict of the rule under trial, and makes it small. Deliveries are made
/// at random within the bounds of the class model, of values near those that the rule names. Then one thing after another is
/// changed, where the explanation of the rule's verdict names it. None: no delivery was found in so many tries.
pub fn search<'a>(
    alloc: Global,
    trial: Trial<'a>,
    constants: Constants<'a>,
    verdict: Verdict,
    limits: Limits,
) -> Result<Option<Sketch>, OutOfMemory> {
    let maker = Maker {
        shapes: Shapes::new(alloc, trial.model()),
        constants,
        choices: Choices::new(limits.seed),
        objects: limits.objects,
    };
    let mut searching = Searching {
        trial,
        maker,
        verdict,
    };
    let Some(mut draft) = searching.find(alloc, limits.tries)? else {
        return Ok(None);
    };
    searching.shrink(alloc, &mut draft)?;
    searching.sketch(alloc, &draft)
}
