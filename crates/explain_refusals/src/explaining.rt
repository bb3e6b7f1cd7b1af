//! Explanations of refusals, and warnings.

ghost use Rattle.std.specs.Prelude.{◌≡◌};

use crate::given::Given;
use crate::refusals::explain_refusal;
use crate::warnings::{warn_of_runs, warn_of_text};
use explain_faults::{Fault, Faults};
use imkl_model::ClassModel;
use imkl_population::Population;
use ocl_check::{Outcome, Watch};
use ocl_pipeline::{Place, Refusal, Stopped};
use rule_cost::Admitted;
use std::alloc::{AllocError, Global};
use std::cell::Cell;

/// What is said, unless memory ran out before it was.
pub type Words = Result<String, AllocError>;

/// Who is told at once what is said before an answer that may take long.
pub trait Listener {
    /// Hears what is said; nothing is, where the words are empty.
    fn hear(&self, words: Words);
}

/// How a command ended.
#[derive(Drop)]
pub struct Ending {
    /// The status, or what failed.
    pub outcome: Outcome,
    /// What is said behind the answer: why an input is refused, or what is hardly meant; else nothing.
    pub words: Words,
}

/// Watches a command, and says what it comes to.
pub struct Explaining<'a, L> {
    given: Given<'a>,
    listener: &'a L,
    words: Cell<Option<Words>>,
    faults: Cell<Option<Result<Vec<Fault>, AllocError>>>,
}

impl<'a, L: Listener> Explaining<'a, L> {
    /// Watches a command that is given this.
    pub fn new(given: Given<'a>, listener: &'a L) -> Explaining<'a, L> {
        Explaining {
            given,
            listener,
            words: Cell::new(None),
            faults: Cell::new(None),
        }
    }

    /// What the command is given.
    pub fn given(&self) -> Given<'a> {
        self.given
    }

    /// Keeps what is said behind the answer.
    pub fn keep(&self, words: Words) {
        self.words.set(Some(words));
    }

    /// Keeps why an input is refused.
    fn keep_faults(&self, faults: Result<Faults, AllocError>) {
        match faults {
            Ok(
                Faults {
                    words,
                    list,
                    skipped: _,
                },
            ) => {
                self.keep(Ok(words));
                self.faults.set(Some(Ok(list)));
            }
            Err(AllocError) => {
                self.keep(Err(AllocError));
                self.faults.set(Some(Err(AllocError)));
            }
        }
    }

    /// Takes the faults of the input that is refused; none, where none is. An error, where memory ran out before all were found.
    pub fn take_faults(&self, alloc: Global) -> Result<Vec<Fault>, AllocError> {
        match self.faults.replace(None) {
            Some(faults) => faults,
            None => Ok(Vec::new(alloc)),
        }
    }

    /// The ending of the command, with what was kept.
    pub fn ending(self, alloc: Global, outcome: Outcome) -> Ending
        ensures { result.outcome ≡ outcome }
    {
        let Explaining {
            given: _,
            listener: _,
            words,
            faults: _,
        } = self;
        let words = match words.into_inner() {
            Some(words) => words,
            None => Ok(String::new(alloc)),
        };
        Ending { outcome, words }
    }
}

/// Why an input is refused.
fn faults_of(
    alloc: Global,
    given: Given<'_>,
    place: Place<'_>,
    refusal: &Refusal,
) -> Result<Faults, AllocError> {
    let mut out = Faults::new(alloc);
    explain_refusal(alloc, &mut out, given, place, refusal)?;
    Ok(out)
}

impl<L: Listener> Watch for Explaining<'_, L> {
    fn admit(&self, alloc: Global, population: &Population<'_>, admitted: &Admitted<'_>) {
        self.listener
            .hear(warn_of_runs(alloc, self.given, population, admitted));
    }

    fn compile(&self, alloc: Global, model: &ClassModel) {
        self.keep(warn_of_text(alloc, self.given.rules, model));
    }

    fn stop(&self, alloc: Global, place: Place<'_>, why: &Stopped) {
        if let Stopped::Refused(refusal) = why {
            self.keep_faults(faults_of(alloc, self.given, place, refusal));
        }
    }
}

/// Hears nothing.
#[derive(Clone, Copy)]
pub struct Nobody;

impl Listener for Nobody {
    fn hear(&self, _words: Words) {}
}
