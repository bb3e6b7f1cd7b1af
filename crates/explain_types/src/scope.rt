//! The variables that a part of a rule sees.

use crate::known::Subject;
use explain_names::{feature_info, feature_named, offer_features};
use explain_notes::Nearest;
use imkl_model::{ClassModel, ClassNo, FeatureNo};
use ocl_kinds::{Kind, ScalarKind, feature_kind};
use ocl_text::Name;
use std::alloc::{AllocError, Global};

/// A variable; one without a name lends its features.
#[derive(Clone, Copy)]
struct Variable<'t> {
    name: Option<&'t str>,
    kind: Kind,
    /// Where its name stands, of the variable of a `let`.
    bound: Option<usize>,
}

/// A comparison of values of types that have nothing in common.
#[derive(Clone, Copy, Drop)]
pub(crate) struct Unequal {
    /// Where its operator stands, in bytes from 0.
    pub(crate) offset: usize,
    /// The type on its left.
    pub(crate) left: Kind,
    /// The type on its right.
    pub(crate) right: Kind,
}

/// What is decided, whatever the delivery.
#[derive(Clone, Copy, Drop)]
pub(crate) enum Decision {
    /// A comparison that is never true.
    NeverTrue,
    /// One that is never false.
    NeverFalse,
    /// Two conditions that are never both true.
    NeverBoth,
    /// A value that is invalid, since an operand is null.
    Invalid,
}

/// A part of which something is decided.
#[derive(Clone, Copy, Drop)]
pub(crate) struct Decided {
    /// Where its operator or its operation's name stands, in bytes from 0.
    pub(crate) offset: usize,
    /// What is.
    pub(crate) decision: Decision,
}

/// The variables, outermost first; the outermost is the context object. And what a reading that ends well has met, of which
/// there are warnings.
#[derive(Drop)]
pub(crate) struct Scope<'t> {
    context: ClassNo,
    variables: Vec<Variable<'t>>,
    /// Of each variable, whether something has read it.
    is_read: Vec<bool>,
    /// The comparisons that are true only of two nulls.
    pub(crate) unequal: Vec<Unequal>,
    /// Where the names of variables stand that nothing reads.
    pub(crate) unread: Vec<usize>,
    /// The parts of which something is decided.
    pub(crate) decided: Vec<Decided>,
}

/// The feature of a name that an object of a class has, and its type.
pub(crate) fn feature_of_class(
    model: &ClassModel,
    class: ClassNo,
    name: &str,
) -> Option<(FeatureNo, Kind)> {
    let feature = feature_named(model, class, name)?;
    let info = feature_info(model, feature)?;
    Some((feature, feature_kind(info)))
}

/// Puts an item at a list's end.
fn push<T: Drop>(items: &mut Vec<T>, item: T) -> Result<(), AllocError> {
    items.push(item)?;
    Ok(())
}

/// The feature of a name that a variable lends, and its type.
fn feature_lent(
    model: &ClassModel,
    variable: &Variable<'_>,
    name: &str,
) -> Option<(FeatureNo, Kind)> {
    if variable.name.is_some() {
        return None;
    }
    match &variable.kind {
        Kind::Scalar(ScalarKind::Class(class)) => feature_of_class(model, *class, name),
        _ => None,
    }
}

impl<'t> Scope<'t> {
    /// The context object alone.
    pub(crate) fn of_context(alloc: Global, context: ClassNo) -> Result<Scope<'t>, AllocError> {
        let mut scope = Scope {
            context,
            variables: Vec::new(alloc),
            is_read: Vec::new(alloc),
            unequal: Vec::new(alloc),
            unread: Vec::new(alloc),
            decided: Vec::new(alloc),
        };
        scope.push_unnamed(Kind::Scalar(ScalarKind::Class(context)))?;
        Ok(scope)
    }

    /// The type of the context object.
    pub(crate) fn context_kind(&self) -> Kind {
        Kind::Scalar(ScalarKind::Class(self.context))
    }

    /// The class of the context object.
    pub(crate) fn context_class(&self) -> ClassNo {
        self.context
    }

    /// The class of the innermost element that lends its features, where one does.
    pub(crate) fn element_class(&self) -> Option<ClassNo> {
        for index in (1..self.variables.len()).rev() {
            if let Some(variable) = self.variables.get(index)
                && variable.name.is_none()
                && let Kind::Scalar(ScalarKind::Class(class)) = &variable.kind
            {
                return Some(*class);
            }
        }
        None
    }

    /// How many variables there are.
    pub(crate) fn len(&self) -> usize {
        self.variables.len()
    }

    /// One more variable, of this name, with the offset of the name if it is of a `let`.
    pub(crate) fn push_named(
        &mut self,
        name: &'t Name,
        kind: Kind,
        bound: Option<usize>,
    ) -> Result<(), AllocError> {
        push(&mut self.is_read, false)?;
        let variable = Variable {
            name: Some(name.as_str()),
            kind,
            bound,
        };
        push(&mut self.variables, variable)
    }

    /// One more variable, which lends its features.
    pub(crate) fn push_unnamed(&mut self, kind: Kind) -> Result<(), AllocError> {
        push(&mut self.is_read, false)?;
        let variable = Variable {
            name: None,
            kind,
            bound: None,
        };
        push(&mut self.variables, variable)
    }

    /// The outermost variables alone, so many; notes those of the others that nothing read.
    pub(crate) fn cut(&mut self, len: usize) -> Result<(), AllocError> {
        for index in len..self.variables.len() {
            if let Some(variable) = self.variables.get(index)
                && let Some(offset) = variable.bound
                && !self.is_read.get(index).copied().unwrap_or(true)
            {
                push(&mut self.unread, offset)?;
            }
        }
        self.variables.truncate(len);
        self.is_read.truncate(len);
        Ok(())
    }

    /// Notes a comparison of values of types that have nothing in common.
    pub(crate) fn note_unequal(
        &mut self,
        offset: usize,
        left: Kind,
        right: Kind,
    ) -> Result<(), AllocError> {
        let unequal = Unequal {
            offset,
            left,
            right,
        };
        push(&mut self.unequal, unequal)
    }

    /// Notes a part of which something is decided.
    pub(crate) fn note_decided(
        &mut self,
        offset: usize,
        decision: Decision,
    ) -> Result<(), AllocError> {
        push(&mut self.decided, Decided { offset, decision })
    }

    /// The index of the innermost variable of a name.
    fn variable_of_name(&self, name: &str) -> Option<usize> {
        for index in (0..self.variables.len()).rev() {
            if let Some(variable) = self.variables.get(index)
                && let Some(own) = variable.name
                && own == name
            {
                return Some(index);
            }
        }
        None
    }

    /// A variable as a place, and its type; it is read by that.
    fn read_variable(&mut self, variable: usize) -> Option<(Subject, Kind)> {
        if variable < self.is_read.len() {
            self.is_read[variable] = true;
        }
        let place = Subject {
            variable,
            feature: None,
        };
        match self.variables.get(variable) {
            Some(own) => Some((place, own.kind)),
            None => None,
        }
    }

    /// The feature of a name as a place that a variable without a name lends, the innermost that has one, and its type.
    fn place_lent(&self, model: &ClassModel, name: &str) -> Option<(Subject, Kind)> {
        for variable in (0..self.variables.len()).rev() {
            if let Some(lending) = self.variables.get(variable)
                && let Some((feature, kind)) = feature_lent(model, lending, name)
            {
                let feature = Some(feature.index());
                return Some((Subject { variable, feature }, kind));
            }
        }
        None
    }

    /// The place that a bare name is, and its type: a variable, or else a feature that one without a name lends.
    pub(crate) fn place_of_name(
        &mut self,
        model: &ClassModel,
        name: &str,
    ) -> Option<(Subject, Kind)> {
        match self.variable_of_name(name) {
            Some(variable) => self.read_variable(variable),
            None => self.place_lent(model, name),
        }
    }

    /// Offers the names that can stand by themselves.
    pub(crate) fn offer_names(
        &self,
        alloc: Global,
        model: &'t ClassModel,
        nearest: &mut Nearest<'t>,
    ) -> Result<(), AllocError> {
        for variable in &self.variables {
            match variable.name {
                Some(name) => nearest.offer(alloc, name)?,
                None => offer_lent(alloc, model, &variable.kind, nearest)?,
            }
        }
        Ok(())
    }
}

/// Offers the features that a variable of a type lends.
fn offer_lent<'n>(
    alloc: Global,
    model: &'n ClassModel,
    kind: &Kind,
    nearest: &mut Nearest<'n>,
) -> Result<(), AllocError> {
    match kind {
        Kind::Scalar(ScalarKind::Class(class)) => offer_features(alloc, model, *class, nearest),
        _ => Ok(()),
    }
}
