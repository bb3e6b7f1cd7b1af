//! What the places of a core tree ask of the kinds of its variables. The tree is gone through from its end to its beginning, so
//! the uses of a variable come before its value, of which they ask something in turn.

use crate::known::Known;
use crate::wanted::{first_wanted, others_wanted, owner_wanted};
use imkl_model::ClassModel;
use ocl_base::OutOfMemory;
use ocl_core::{Core, CoreLink, ElementOperator, Iteration, Operator, PlainOperator};
use ocl_kinds::{Kind, ScalarKind, elements_kind};
use std::alloc::Global;

/// What a place asks of the kind of a value there, or of the kind of its elements if it is a collection.
#[derive(Clone, Copy, PartialEq, Eq)]
pub(crate) enum Asked {
    /// That it is this kind.
    Exactly(ScalarKind),
    /// That its values are compared as those of this kind.
    Compared(ScalarKind),
    /// That it fits this kind.
    Fitting(ScalarKind),
    /// That it is this kind, unless the other branch is.
    Rather(ScalarKind),
    /// That it has nothing in common with this kind.
    Unlike(ScalarKind),
}

/// That it is the kind of a class, whichever.
const OBJECT: Asked = Asked::Compared(ScalarKind::AnyObject);

/// What is asked of the variables of a tree.
#[derive(Drop)]
pub(crate) struct AskedKinds<'m> {
    alloc: Global,
    model: &'m ClassModel,
    /// What is asked of each variable in scope by what was gone through.
    scope: Vec<Vec<Asked>>,
    /// The kinds of those variables that have no other: the object of the context class, and accumulators.
    fixed: Vec<Option<Kind>>,
    /// What is asked of each variable that is out of scope again, the one that the text has first at the end. An accumulator
    /// isn't among them, since its kind stands in the tree.
    bound: Vec<Vec<Asked>>,
}

impl<'m> AskedKinds<'m> {
    /// What is asked of the variables that a rule binds, the one that the text has first at the end.
    pub(crate) fn of_rule(
        alloc: Global,
        model: &'m ClassModel,
        core: &Core,
        context: Kind,
    ) -> Result<Vec<Vec<Asked>>, OutOfMemory> {
        let mut asked = AskedKinds {
            alloc,
            model,
            scope: Vec::new(alloc),
            fixed: Vec::new(alloc),
            bound: Vec::new(alloc),
        };
        asked.open(Some(context))?;
        asked.look(core, &[Asked::Fitting(ScalarKind::Boolean)])?;
        Ok(asked.bound)
    }

    /// Has one more variable in scope, which may have no other kind than this.
    fn open(&mut self, fixed: Option<Kind>) -> Result<(), OutOfMemory> {
        // (The prover wants each type that is held to be named.)
        let _kind: Option<ScalarKind> = None;
        self.scope.push(Vec::new(self.alloc))?;
        self.fixed.push(fixed)?;
        Ok(())
    }

    /// Ends the scope of the innermost variable. Gives what is asked of it.
    fn close(&mut self) -> Vec<Asked> {
        let _fixed = self.fixed.pop();
        match self.scope.pop() {
            Some(asked) => asked,
            None => Vec::new(self.alloc),
        }
    }

    /// The same of one that isn't an accumulator. Gives what its uses ask of its value.
    fn bind(&mut self) -> Result<Vec<Asked>, OutOfMemory> {
        let asked = self.close();
        let mut of_value = Vec::new(self.alloc);
        for one in &asked {
            if let Some(kind) = limit_of(*one) {
                of_value.push(Asked::Fitting(kind))?;
            }
        }
        self.bound.push(asked)?;
        Ok(of_value)
    }

    /// Notes what is asked of a variable.
    fn note(&mut self, variable: usize, asked: &[Asked]) -> Result<(), OutOfMemory> {
        if let Some(known) = self.scope.get_mut(variable) {
            for one in asked {
                if !known.contains(one) {
                    known.push(*one)?;
                }
            }
        }
        Ok(())
    }

    /// What is known of kinds.
    fn known(&self) -> Known<'_> {
        Known {
            model: self.model,
            fixed: &self.fixed,
        }
    }

    /// Goes through a tree of which this is asked.
    #[cycle(asked)]
    fn look(&mut self, core: &Core, asked: &[Asked]) -> Result<(), OutOfMemory> {
        match core {
            Core::Constant { .. } | Core::AllInstances { .. } => Ok(()),
            Core::Variable { number } => self.note(*number, asked),
            Core::Spine { first, links } => {
                let mut of_source = Vec::from_slice(self.alloc, asked)?;
                for behind in 0..links.len() {
                    let index = links.len() - 1 - behind;
                    let before = self.known().before(first, &links[..index]);
                    of_source = self.look_at_link(&links[index], before, of_source)?;
                }
                self.look(first, &of_source)
            }
            Core::Let { values, body } => {
                for _ in values {
                    self.open(None)?;
                }
                self.look(body, asked)?;
                for behind in 0..values.len() {
                    let of_value = self.bind()?;
                    self.look(&values[values.len() - 1 - behind], &of_value)?;
                }
                Ok(())
            }
            Core::If {
                kind,
                condition,
                then_branch,
                else_branch,
            } => {
                let of_second = branch_asked(self.known(), kind, then_branch);
                self.look(else_branch, &of_second)?;
                let of_first = branch_asked(self.known(), kind, else_branch);
                self.look(then_branch, &of_first)?;
                self.look(condition, &[Asked::Fitting(ScalarKind::Boolean)])
            }
        }
    }

    /// Goes through the other parts of a link of which this is asked, and whose first operand may be known to be of this kind.
    /// Gives what is asked of the first operand.
    #[cycle(asked)]
    fn look_at_link(
        &mut self,
        link: &CoreLink,
        before: Option<Kind>,
        asked: Vec<Asked>,
    ) -> Result<Vec<Asked>, OutOfMemory> {
        match link {
            CoreLink::Feature { feature } => {
                let owner = owner_wanted(self.model, *feature);
                let mut of_object = only(self.alloc, fitting(owner))?;
                of_object.push(OBJECT)?;
                Ok(of_object)
            }
            CoreLink::Operation { operator, others } => {
                let of_others = only(self.alloc, others_asked(*operator, before))?;
                for behind in 0..others.len() {
                    self.look(&others[others.len() - 1 - behind], &of_others)?;
                }
                self.first_asked(*operator, others, asked)
            }
            CoreLink::AsCollection { element, .. } => {
                let kind = match before {
                    Some(Kind::Scalar(ScalarKind::Void)) => ScalarKind::Void,
                    _ => *element,
                };
                only(self.alloc, Some(Asked::Exactly(kind)))
            }
            CoreLink::Iterate { iteration, body } => self.look_at_body(iteration, body, asked),
            CoreLink::Fold { kind, start, body } => {
                self.open(None)?;
                self.open(Some(Kind::Scalar(*kind)))?;
                self.look(body, &[Asked::Fitting(*kind)])?;
                let _accumulator = self.close();
                let of_source = self.bind()?;
                self.look(start, &[Asked::Fitting(*kind)])?;
                Ok(of_source)
            }
        }
    }

    /// What an operation asks of its first operand, if this is asked of itself.
    fn first_asked(
        &self,
        operator: Operator,
        others: &[Core],
        asked: Vec<Asked>,
    ) -> Result<Vec<Asked>, OutOfMemory> {
        match operator {
            Operator::Plain(plain) => {
                let second = match others.first() {
                    Some(other) => self.known().kind(other),
                    None => None,
                };
                only(self.alloc, plain_asked(plain, second))
            }
            Operator::OfElements(ElementOperator::AsSet, kind) => {
                let mut of_first = asked;
                of_first.push(Asked::Compared(kind))?;
                Ok(of_first)
            }
            Operator::OfClass(..) => only(self.alloc, Some(OBJECT)),
            Operator::OfElements(_, kind) => only(self.alloc, Some(Asked::Compared(kind))),
            Operator::Equal(kind) => {
                only(self.alloc, Some(Asked::Compared(elements_kind(&kind))))
            }
        }
    }

    /// Goes through the body of an iteration of which this is asked. Gives what is asked of its source.
    #[cycle(asked)]
    fn look_at_body(
        &mut self,
        iteration: &Iteration,
        body: &Core,
        asked: Vec<Asked>,
    ) -> Result<Vec<Asked>, OutOfMemory> {
        let of_body = body_asked(self.alloc, iteration, &asked)?;
        self.open(None)?;
        self.look(body, &of_body)?;
        let of_source = self.bind()?;
        source_asked(iteration, of_source, &asked)
    }
}

/// What an iteration asks of its body, if this is asked of itself.
fn body_asked(
    alloc: Global,
    iteration: &Iteration,
    asked: &[Asked],
) -> Result<Vec<Asked>, OutOfMemory> {
    match iteration {
        Iteration::Collect | Iteration::CollectFlat => Ok(Vec::from_slice(alloc, asked)?),
        Iteration::IsUnique(kind) => only(alloc, Some(Asked::Compared(*kind))),
        _ => only(alloc, Some(Asked::Fitting(ScalarKind::Boolean))),
    }
}

/// What it asks of its source, by what its variable asks.
fn source_asked(
    iteration: &Iteration,
    of_variable: Vec<Asked>,
    asked: &[Asked],
) -> Result<Vec<Asked>, OutOfMemory> {
    let mut all = of_variable;
    match iteration {
        Iteration::Select | Iteration::Reject => all.extend_from_slice(asked)?,
        _ => {}
    }
    Ok(all)
}

/// What asks no more than this, if anything.
fn only(alloc: Global, asked: Option<Asked>) -> Result<Vec<Asked>, OutOfMemory> {
    // (The prover wants each type that is held to be named.)
    let _kind: Option<ScalarKind> = None;
    let mut all = Vec::new(alloc);
    if let Some(asked) = asked {
        all.push(asked)?;
    }
    Ok(all)
}

/// That it fits a kind, if one is wanted.
fn fitting(wanted: Option<ScalarKind>) -> Option<Asked> {
    match wanted {
        Some(kind) => Some(Asked::Fitting(kind)),
        None => None,
    }
}

/// That it is a kind, if one is wanted.
fn exactly(wanted: Option<ScalarKind>) -> Option<Asked> {
    match wanted {
        Some(kind) => Some(Asked::Exactly(kind)),
        None => None,
    }
}

/// The kind that a value has to fit whose variable is asked this.
pub(crate) fn limit_of(asked: Asked) -> Option<ScalarKind> {
    match asked {
        Asked::Exactly(kind) | Asked::Compared(kind) => Some(kind),
        Asked::Fitting(kind) | Asked::Rather(kind) => Some(kind),
        Asked::Unlike(_) => None,
    }
}

/// What is asked of the first operand of an operator that its name alone describes, by the kind of a second one.
fn plain_asked(operator: PlainOperator, second: Option<Kind>) -> Option<Asked> {
    let wanted = first_wanted(Operator::Plain(operator));
    match operator {
        PlainOperator::BothNull => apart_from(second, Asked::Rather(ScalarKind::Boolean)),
        PlainOperator::Sum => Some(Asked::Fitting(ScalarKind::Integer)),
        // null has no such operations
        PlainOperator::Minimum | PlainOperator::Maximum => exactly(wanted),
        PlainOperator::Absolute => exactly(wanted),
        PlainOperator::CharacterCount | PlainOperator::Substring => exactly(wanted),
        _ => fitting(wanted),
    }
}

/// What is asked of an operand of a comparison of kinds with nothing in common, by the kind of the other; this where that isn't
/// known.
fn apart_from(other: Option<Kind>, unknown: Asked) -> Option<Asked> {
    match other {
        Some(Kind::Scalar(kind)) => Some(Asked::Unlike(kind)),
        Some(Kind::Collection(..)) => None,
        None => Some(unknown),
    }
}

/// What is asked of a branch of a condition of this kind, by the other one.
fn branch_asked(known: Known<'_>, kind: &Kind, other: &Core) -> [Asked; 2] {
    match kind {
        Kind::Scalar(element) | Kind::Collection(_, element) => [
            Asked::Fitting(*element),
            beside(known, kind, element, other),
        ],
    }
}

/// What is asked of a branch beside another: to be of the condition's kind, unless that one is.
fn beside(known: Known<'_>, kind: &Kind, element: &ScalarKind, other: &Core) -> Asked {
    if known.is_empty_collection(other) {
        return Asked::Exactly(*element);
    }
    match known.kind(other) {
        Some(found) if found == *kind => Asked::Fitting(*element),
        _ => Asked::Rather(*element),
    }
}

/// What an operation asks of its operands after the first, which may be known to be of this kind.
fn others_asked(operator: Operator, first: Option<Kind>) -> Option<Asked> {
    match operator {
        Operator::Plain(PlainOperator::BothNull) => {
            apart_from(first, Asked::Unlike(ScalarKind::Boolean))
        }
        Operator::Plain(_) | Operator::OfClass(..) => fitting(others_wanted(operator)),
        Operator::OfElements(_, kind) => Some(Asked::Compared(kind)),
        Operator::Equal(kind) => Some(Asked::Compared(elements_kind(&kind))),
    }
}
