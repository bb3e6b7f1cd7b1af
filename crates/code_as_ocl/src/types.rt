//! Types of variables by which the text of a rule is compiled to the rule again. Code has the kinds of values and not the types
//! of variables, which may be wider. A type has to meet what all uses of its variable ask.

use crate::asked::{Asked, AskedKinds, limit_of};
use crate::kinds::{constant_kind, iteration_kind, operator_kind};
use crate::known::{Known, known_feature};
use crate::pairs::is_of_pairs;
use imkl_model::{ClassModel, ClassNo, CollectionKind, EnumNo};
use ocl_base::OutOfMemory;
use ocl_core::{Core, CoreLink, Iteration};
use ocl_kinds::{Kind, ScalarKind, common_kind, comparable, elements_kind};
use std::alloc::Global;

/// The kind of null.
const VOID: Kind = Kind::Scalar(ScalarKind::Void);

/// The index of the class that a kind is of, if it is of one.
fn class_of(kind: ScalarKind) -> Option<usize> {
    match kind {
        ScalarKind::Class(class) => Some(class.index()),
        _ => None,
    }
}

/// Whether a class is the other, or below it, by their indices.
fn is_below(model: &ClassModel, class: usize, above: usize) -> bool {
    let count = model.class_count();
    if class >= count || above >= count {
        return false;
    }
    model.conforms(ClassNo::new(class), ClassNo::new(above))
}

/// Whether a value of a kind may stand where another is wanted.
fn fits(model: &ClassModel, kind: ScalarKind, wanted: ScalarKind) -> bool {
    if kind == ScalarKind::Void || kind == wanted {
        return true;
    }
    match (class_of(kind), class_of(wanted)) {
        (Some(class), Some(above)) => is_below(model, class, above),
        (Some(_), None) => wanted == ScalarKind::AnyObject,
        _ => false,
    }
}

/// Whether a kind is what is asked.
fn is_met(model: &ClassModel, asked: Asked, kind: ScalarKind) -> bool {
    match asked {
        Asked::Exactly(other) | Asked::Rather(other) => kind == other,
        Asked::Compared(other) => comparable(&kind) == other,
        Asked::Fitting(other) => fits(model, kind, other),
        Asked::Unlike(other) => common_kind(&kind, &other).is_none(),
    }
}

/// Whether a type may have this kind: null has none, nor has any object.
fn is_type(kind: ScalarKind) -> bool {
    !matches!(kind, ScalarKind::Void | ScalarKind::AnyObject)
}

/// Whether a variable for values of a kind may have another. Where the search is strict, it is also what it is rather to be.
fn is_taken(
    model: &ClassModel,
    given: &ScalarKind,
    asked: &[Asked],
    is_strict: bool,
    kind: &ScalarKind,
) -> bool {
    for one in asked {
        let is_wanted = is_strict || !matches!(one, Asked::Rather(_));
        if is_wanted && !is_met(model, *one, *kind) {
            return false;
        }
    }
    fits(model, *given, *kind)
}

/// Adds a kind that a type may have.
fn push_type(kinds: &mut Vec<ScalarKind>, kind: &ScalarKind) -> Result<(), OutOfMemory> {
    if is_type(*kind) {
        kinds.push(*kind)?;
    }
    Ok(())
}

/// The kinds that a type may have by what is asked, those that are asked for first.
fn candidates(
    alloc: Global,
    model: &ClassModel,
    asked: &[Asked],
) -> Result<Vec<ScalarKind>, OutOfMemory> {
    let mut kinds = Vec::new(alloc);
    for one in asked {
        if let Some(kind) = limit_of(*one) {
            push_type(&mut kinds, &kind)?;
        }
    }
    for index in 0..model.class_count() {
        kinds.push(ScalarKind::Class(ClassNo::new(index)))?;
    }
    kinds.push(ScalarKind::Boolean)?;
    kinds.push(ScalarKind::Integer)?;
    kinds.push(ScalarKind::String)?;
    for index in 0..model.enumeration_count() {
        kinds.push(ScalarKind::Enumeration(EnumNo::new(index)))?;
    }
    Ok(kinds)
}

/// The kind of a type for values of this kind that meets what is asked; the kind itself, where it may stay and meets it, or where
/// none does.
fn chosen(
    alloc: Global,
    model: &ClassModel,
    given: &ScalarKind,
    asked: &[Asked],
    may_stay: bool,
) -> Result<ScalarKind, OutOfMemory> {
    if may_stay && is_taken(model, given, asked, true, given) {
        return Ok(*given);
    }
    let kinds = candidates(alloc, model, asked)?;
    for is_strict in [true, false] {
        if may_stay && is_taken(model, given, asked, is_strict, given) {
            return Ok(*given);
        }
        for kind in &kinds {
            if is_taken(model, given, asked, is_strict, kind) {
                return Ok(*kind);
            }
        }
    }
    Ok(*given)
}

/// What is written of a variable.
#[derive(Clone, Copy)]
enum Written {
    /// Its type.
    Type(Kind),
    /// No type.
    Name,
    /// Nothing: it is the source of an iteration with two variables.
    Nothing,
}

/// What is written of a variable whose type has this kind, if it has one.
fn written_as(kind: Option<ScalarKind>) -> Written {
    match kind {
        Some(kind) => Written::Type(Kind::Scalar(kind)),
        None => Written::Name,
    }
}

/// The types of a rule's variables, in the order of its text.
#[derive(Drop)]
pub(crate) struct RuleTypes {
    /// Of each `let` its type, and of the variable of each iteration that has one that isn't the kind of the elements.
    pub(crate) types: Vec<Option<Kind>>,
    /// Of each `let`, whether it is to be an iteration with two variables. Then it has no type.
    pub(crate) pairs: Vec<bool>,
}

/// The variables of a rule as far as they were gone through, in the order of its text.
#[derive(Drop)]
struct Types<'m> {
    alloc: Global,
    model: &'m ClassModel,
    /// What is asked of the variables that aren't bound yet, of the next one at the end.
    asked: Vec<Vec<Asked>>,
    /// The kinds of the variables in scope, which are all known.
    scope: Vec<Option<Kind>>,
    written: Vec<Written>,
    /// Of each `let`, whether it is to be an iteration with two variables.
    pairs: Vec<bool>,
}

impl Types<'_> {
    /// What is known of kinds.
    fn known(&self) -> Known<'_> {
        Known {
            model: self.model,
            fixed: &self.scope,
        }
    }

    /// Goes through a tree. Gives its kind.
    #[cycle(types)]
    fn kind_of(&mut self, core: &Core) -> Result<Kind, OutOfMemory> {
        match core {
            Core::Constant { value } => Ok(constant_kind(value)),
            Core::Variable { .. } => Ok(self.known().kind(core).unwrap_or(VOID)),
            Core::AllInstances { class } => Ok(Kind::Collection(
                CollectionKind::Set,
                ScalarKind::Class(*class),
            )),
            Core::Spine { first, links } => {
                let mut kind = self.kind_of(first)?;
                for link in links {
                    kind = self.kind_after(link, kind)?;
                }
                Ok(kind)
            }
            Core::Let { values, body } => {
                let outside = self.scope.len();
                for index in 0..values.len() {
                    let is_last = index + 1 == values.len();
                    let is_of_pairs = is_last && is_of_pairs(body, self.scope.len());
                    self.bind_value(&values[index], is_of_pairs)?;
                }
                let kind = self.kind_of(body)?;
                self.scope.truncate(outside);
                Ok(kind)
            }
            Core::If {
                kind,
                condition,
                then_branch,
                else_branch,
            } => {
                let _condition = self.kind_of(condition)?;
                let _first = self.kind_of(then_branch)?;
                let _second = self.kind_of(else_branch)?;
                Ok(*kind)
            }
        }
    }

    /// Goes through a value, and has one more variable in scope for it. Where its body is of pairs and it has no type, an iteration
    /// with two variables takes its place.
    #[cycle(types)]
    fn bind_value(&mut self, value: &Core, is_of_pairs: bool) -> Result<(), OutOfMemory> {
        let place = self.open()?;
        let number = self.pairs.len();
        self.pairs.push(false)?;
        let found = self.kind_of(value)?;
        let given = &found;
        let chosen = self.kind_beside(value, given)?;
        let kind = &chosen;
        if is_of_pairs && self.is_undeclared(value, given) {
            self.write(place, Written::Nothing);
            self.note_pair(number);
            self.scope.push(Some(*given))?;
        } else {
            self.write(place, Written::Type(*kind));
            self.scope.push(Some(*kind))?;
        }
        Ok(())
    }

    /// Goes through a link on what is of this kind. Gives the kind of both.
    #[cycle(types)]
    fn kind_after(&mut self, link: &CoreLink, first: Kind) -> Result<Kind, OutOfMemory> {
        match link {
            CoreLink::Feature { feature } => {
                Ok(known_feature(self.model, *feature).unwrap_or(first))
            }
            CoreLink::Operation { operator, others } => {
                for other in others {
                    let _other = self.kind_of(other)?;
                }
                Ok(operator_kind(*operator, first))
            }
            CoreLink::AsCollection {
                collection,
                element,
            } => Ok(Kind::Collection(*collection, *element)),
            CoreLink::Iterate { iteration, body } => self.kind_over(iteration, body, &first),
            CoreLink::Fold { kind, start, body } => {
                let place = self.open()?;
                let _start = self.kind_of(start)?;
                let outside = self.scope.len();
                self.bind_element(place, &first)?;
                self.scope.push(Some(Kind::Scalar(*kind)))?;
                let _body = self.kind_of(body)?;
                self.scope.truncate(outside);
                Ok(Kind::Scalar(*kind))
            }
        }
    }

    /// Goes through the body of an iteration over a source of this kind. Gives the kind of the iteration.
    #[cycle(types)]
    fn kind_over(
        &mut self,
        iteration: &Iteration,
        body: &Core,
        source: &Kind,
    ) -> Result<Kind, OutOfMemory> {
        let place = self.open()?;
        let outside = self.scope.len();
        self.bind_element(place, source)?;
        let inner = self.kind_of(body)?;
        self.scope.truncate(outside);
        Ok(iteration_kind(*iteration, *source, inner))
    }

    /// The kind of the next variable, for a value of this kind.
    fn kind_beside(&mut self, value: &Core, given: &Kind) -> Result<Kind, OutOfMemory> {
        let element = elements_kind(given);
        let may_stay = is_type(element);
        let chosen = self.next(&element, may_stay)?;
        if makes_collection(value) {
            return Ok(*given);
        }
        Ok(with_elements(given, chosen))
    }

    /// Whether no type makes a variable of a value of this kind: it is a single value that is made a collection, or has no
    /// elements but null.
    fn is_undeclared(&self, value: &Core, given: &Kind) -> bool {
        let is_empty = self.known().is_empty_collection(value);
        makes_collection(value) && !is_empty || elements_kind(given) == ScalarKind::Void
    }

    /// The place of one more variable.
    fn open(&mut self) -> Result<usize, OutOfMemory> {
        let place = self.written.len();
        let untyped: Option<ScalarKind> = None;
        self.written.push(written_as(untyped))?;
        Ok(place)
    }

    /// Says what is written of the variable of a place.
    fn write(&mut self, place: usize, what: Written) {
        if let Some(written) = self.written.get_mut(place) {
            *written = what;
        }
    }

    /// Has a `let` of this number be an iteration with two variables.
    fn note_pair(&mut self, number: usize) {
        if let Some(pair) = self.pairs.get_mut(number) {
            *pair = true;
        }
    }

    /// The kind of the next variable, for values of this kind.
    fn next(&mut self, given: &ScalarKind, may_stay: bool) -> Result<ScalarKind, OutOfMemory> {
        match self.asked.pop() {
            Some(asked) => chosen(self.alloc, self.model, given, &asked, may_stay),
            None => Ok(*given),
        }
    }

    /// Has the elements of a source as one more variable in scope, whose type has this place.
    fn bind_element(&mut self, place: usize, source: &Kind) -> Result<(), OutOfMemory> {
        let element = elements_kind(source);
        let found = self.next(&element, true)?;
        let chosen = &found;
        if *chosen != element {
            self.write(place, Written::Type(Kind::Scalar(*chosen)));
        }
        self.scope.push(Some(Kind::Scalar(*chosen)))?;
        Ok(())
    }
}

/// Whether a value is a single one that is made a collection.
fn makes_collection(value: &Core) -> bool {
    match value {
        Core::Spine { links, .. } => matches!(links.last(), Some(CoreLink::AsCollection { .. })),
        _ => false,
    }
}

/// A kind with other elements.
fn with_elements(kind: &Kind, element: ScalarKind) -> Kind {
    match kind {
        Kind::Scalar(_) => Kind::Scalar(element),
        Kind::Collection(collection, _) => Kind::Collection(*collection, element),
    }
}

/// The types that the text of a rule of this context class has.
pub(crate) fn types_of(
    alloc: Global,
    model: &ClassModel,
    core: &Core,
    context: ClassNo,
) -> Result<RuleTypes, OutOfMemory> {
    let object = Kind::Scalar(ScalarKind::Class(context));
    let mut variables = Types {
        alloc,
        model,
        asked: AskedKinds::of_rule(alloc, model, core, object)?,
        scope: Vec::new(alloc),
        written: Vec::new(alloc),
        pairs: Vec::new(alloc),
    };
    variables.scope.push(Some(object))?;
    let _kind = variables.kind_of(core)?;
    let mut types = Vec::new(alloc);
    for written in &variables.written {
        match written {
            Written::Type(kind) => types.push(Some(*kind))?,
            Written::Name => types.push(None)?,
            Written::Nothing => {}
        }
    }
    Ok(RuleTypes {
        types,
        pairs: variables.pairs,
    })
}
