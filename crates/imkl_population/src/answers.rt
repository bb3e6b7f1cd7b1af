//! What was last asked of each class, kept so that it is found once where it is asked again and again.

ghost use Rattle.std.specs.Prelude.{◌≡◌, ℕ, ◌⊎◌, [], length, slice_index_or, IfOk, IfSome};
ghost use Rattle.imkl_population.specs.Required.{Requirements, with_required};
ghost use Rattle.imkl_population.specs.Answered.{nothing_asked, IsAnswer, AreAnswers};

use imkl_model::{ClassNo, FeatureNo};
use std::alloc::{AllocError, Global};
use std::marker::Model;
use std::mem;

/// The features that were last named with a class, and all that came of them. Where all are none, nothing is kept.
#[derive(Drop)]
pub struct Answer {
    named: Vec<FeatureNo>,
    all: Vec<FeatureNo>,
}

impl Model for Answer {
    ghost use Rattle.imkl_population.specs.Answered.{Answered};

    ghost Value = { Answered };

    ghost view = { λ a. record { named = a.named.items; all = a.all.items } };
}

impl Answer {
    fn new(alloc: Global) -> Answer
        ensures { result ≡ nothing_asked }
    {
        Answer {
            named: Vec::new(alloc),
            all: Vec::new(alloc),
        }
    }

    /// What came of these features, if it is kept.
    fn of(&self, named: &[FeatureNo]) -> Option<&[FeatureNo]>
        ensures { IfSome result (λ all. (r : Requirements) (c : ℕ) → IsAnswer r c self.now →
            all.now ≡ with_required r c named.now) }
    {
        if !self.all.is_empty() && self.named.as_slice() == named {
            return Some(self.all.as_slice());
        }
        None
    }

    /// Takes the list of features out, emptied. Nothing is kept then.
    fn take_list(&mut self, alloc: Global) -> Vec<FeatureNo>
        ensures list { result.items ≡ [] }
        ensures none { self.new.all ≡ [] }
    {
        self.all.clear();
        let mut list = mem::replace(&mut self.named, Vec::new(alloc));
        list.clear();
        list
    }

    /// Keeps what came of features.
    fn keep(&mut self, named: Vec<FeatureNo>, all: &[FeatureNo]) -> Result<(), AllocError>
        ensures { (self.new.all ≡ []) ⊎
            ((self.new.named ≡ named.items) × (self.new.all ≡ all.now)) }
    {
        self.all.clear();
        self.named = named;
        self.all.extend_from_slice(all)
    }
}

/// For each class what was last asked of it. Contracts see a list.
#[derive(Drop)]
pub struct Answers {
    items: Vec<Answer>,
}

impl Model for Answers {
    ghost use Rattle.std.specs.Prelude.{List};
    ghost use Rattle.imkl_population.specs.Answered.{Answered};

    ghost Value = { List Answered };

    ghost view = { λ a. a.items.items };
}

/// As many answers of which nothing is kept.
fn no_answers(alloc: Global, count: usize) -> Result<Vec<Answer>, AllocError>
    ensures { IfOk result (λ v.
        (c : ℕ) → slice_index_or v.items c nothing_asked ≡ nothing_asked) }
{
    let mut answers = Vec::with_capacity(alloc, count)?;
    for _ in 0..count {
        answers.push(Answer::new(alloc))?;
    }
    Ok(answers)
}

impl Answers {
    /// None. Takes no memory.
    pub(crate) fn new(alloc: Global) -> Answers
        ensures { result ≡ [] }
    {
        Answers {
            items: Vec::new(alloc),
        }
    }

    /// What came of features that were named with a class, if it is kept.
    pub(crate) fn of(&self, class: ClassNo, named: &[FeatureNo]) -> Option<&[FeatureNo]>
        ensures { IfSome result (λ all. (r : Requirements) → AreAnswers r self.now →
            all.now ≡ with_required r class named.now) }
    {
        if class.index() >= self.items.len() {
            return None;
        }
        self.items[class.index()].of(named)
    }

    /// Makes a place for each of so many classes, if there are none yet.
    fn fill(&mut self, alloc: Global, classes: usize) -> Result<(), AllocError>
        ensures { (r : Requirements) → AreAnswers r self.old → AreAnswers r self.new }
    {
        if self.items.is_empty() {
            self.items = no_answers(alloc, classes)?;
        }
        Ok(())
    }

    /// Takes out the list of features that were last named with a class, emptied. Nothing is kept of the class then.
    fn take_list(&mut self, alloc: Global, class: ClassNo) -> Vec<FeatureNo>
        ensures list { result.items ≡ [] }
        ensures answers { (r : Requirements) → AreAnswers r self.old → AreAnswers r self.new }
    {
        if class.index() >= self.items.len() {
            return Vec::new(alloc);
        }
        self.items[class.index()].take_list(alloc)
    }

    /// The features that are named with a class, once more, for `keep`. There are so many classes.
    pub(crate) fn list_named(
        &mut self,
        alloc: Global,
        classes: usize,
        class: ClassNo,
        named: &[FeatureNo],
    ) -> Result<Vec<FeatureNo>, AllocError>
        ensures list { IfOk result (λ v. v.items ≡ named.now) }
        ensures answers { (r : Requirements) → AreAnswers r self.old → AreAnswers r self.new }
    {
        self.fill(alloc, classes)?;
        let mut list = self.take_list(alloc, class);
        list.extend_from_slice(named)?;
        Ok(list)
    }

    /// Keeps what came of features that were named with a class.
    pub(crate) fn keep(
        &mut self,
        class: ClassNo,
        named: Vec<FeatureNo>,
        all: &[FeatureNo],
    ) -> Result<(), AllocError>
        ensures { (r : Requirements) → all.now ≡ with_required r class named.items →
            AreAnswers r self.old → AreAnswers r self.new }
    {
        if class.index() >= self.items.len() {
            return Ok(());
        }
        self.items[class.index()].keep(named, all)
    }
}
