//! A reading of a rule by the types of its parts. Where its types are wrong it stops at the fault,
//! whose place is known. Before the fault all has types, and what is at the fault is looked at
//! closely. Where the types are right it reads the whole rule, and gathers warnings.

use crate::conforming::{are_taken, have_something_in_common, is_equality, is_integer, is_taken};
use crate::fates::{
    Part, are_never_both, branches_part, comparison, is_invalid, iteration_fate, operator_part,
};
use crate::found::{Finding, Stop};
use crate::known::{Interval, Known, Subject};
use crate::operations::{operation_on, takes_class};
use crate::scope::{Decision, Scope, feature_of_class};
use explain_names::{literal_count, literal_name};
use imkl_model::{ClassModel, ClassNo, CollectionKind, EnumNo, FeatureNo};
use ocl_kinds::{Kind, ScalarKind, collected_kind, elements_kind};
use ocl_text::{
    BinaryOperator, Binding, DeclaredType, Expression, IteratorKind, Keyword, Link, Name,
    Navigation, PrefixOperator, SurfaceRule, Variable, Variables,
};
use ocl_types::TypeFlaw;
use std::alloc::{AllocError, Global};

const BOOLEAN: Kind = Kind::Scalar(ScalarKind::Boolean);

const INTEGER: Kind = Kind::Scalar(ScalarKind::Integer);

const STRING: Kind = Kind::Scalar(ScalarKind::String);

const VOID: Kind = Kind::Scalar(ScalarKind::Void);

/// A reading of a rule.
#[derive(Drop)]
pub(crate) struct Reading<'t> {
    pub(crate) model: &'t ClassModel,
    /// What is wrong.
    pub(crate) flaw: TypeFlaw,
    /// Where, in bytes from 0.
    pub(crate) offset: usize,
    /// Where the expression of the rule stands.
    pub(crate) rule_offset: usize,
    /// What the reading sees at the place that it has come to.
    pub(crate) scope: Scope<'t>,
    /// What is at the fault, once the reading has come to it.
    pub(crate) finding: Option<Finding>,
    /// The name that is at the fault, if one is.
    pub(crate) name: &'t str,
    /// The operation behind an arrow that isn't there, in whose arguments the reading is; empty elsewhere.
    pub(crate) operation: &'t str,
}

/// The type that a name writes: one that is there, and no collection.
fn named_type(model: &ClassModel, name: &str) -> Option<ScalarKind> {
    match name {
        "Boolean" => Some(ScalarKind::Boolean),
        "Integer" => Some(ScalarKind::Integer),
        "String" => Some(ScalarKind::String),
        _ => match model.class(name) {
            Some(class) => Some(ScalarKind::Class(class)),
            None => model.enumeration(name).map(ScalarKind::Enumeration),
        },
    }
}

fn collection_kind(name: &str) -> Option<CollectionKind> {
    match name {
        "Set" => Some(CollectionKind::Set),
        "OrderedSet" => Some(CollectionKind::OrderedSet),
        "Bag" => Some(CollectionKind::Bag),
        "Sequence" => Some(CollectionKind::Sequence),
        _ => None,
    }
}

/// The type of what is asked after a dot of a value of a type, where one element gives a value of another.
fn collection_of(left: Kind, one: Kind) -> Kind {
    match left {
        Kind::Scalar(_) => one,
        Kind::Collection(collection, _) => {
            Kind::Collection(collected_kind(collection), elements_kind(&one))
        }
    }
}

/// The elements over which an iteration goes.
fn source_of(left: &Kind) -> (CollectionKind, ScalarKind) {
    match left {
        Kind::Scalar(element) => (CollectionKind::Set, *element),
        Kind::Collection(collection, element) => (*collection, *element),
    }
}

/// What an operation is called on: after a dot one element, after an arrow the collection.
pub(crate) fn called_on(navigation: Navigation, left: &Kind) -> Kind {
    let (collection, element) = source_of(left);
    match navigation {
        Navigation::Dot => Kind::Scalar(element),
        Navigation::Arrow => Kind::Collection(collection, element),
    }
}

/// The type of an iteration's value.
fn iteration_kind(iterator: IteratorKind, left: &Kind, body: &Kind) -> Kind {
    let (collection, element) = source_of(left);
    match iterator {
        IteratorKind::Select | IteratorKind::Reject => Kind::Collection(collection, element),
        IteratorKind::Collect => {
            Kind::Collection(collected_kind(collection), elements_kind(body))
        }
        _ => BOOLEAN,
    }
}

/// Whether an accumulator can have a type: it is one of four sorts.
fn is_accumulators(kind: &Kind) -> bool {
    matches!(
        kind,
        Kind::Scalar(
            ScalarKind::Boolean
                | ScalarKind::Integer
                | ScalarKind::Enumeration(_)
                | ScalarKind::Class(_)
        )
    )
}

/// The class that an argument names.
fn class_argument(model: &ClassModel, arguments: &[Expression]) -> Option<ClassNo> {
    match arguments.first()? {
        Expression::Name { name, .. } => model.class(name.as_str()),
        _ => None,
    }
}

/// The class before a link that lists all of its objects, with the offset of that link.
fn class_before<'t>(first: &'t Expression, links: &'t [Link]) -> Option<(&'t Name, usize)> {
    let Expression::Name { name, .. } = first else {
        return None;
    };
    match links.first()? {
        Link::Call {
            navigation: Navigation::Dot,
            name: operation,
            offset,
            ..
        } if operation.as_str() == "allInstances" => Some((name, *offset)),
        _ => None,
    }
}

/// The literal of a name, as what is known of it.
fn known_literal(model: &ClassModel, enumeration: EnumNo, name: &str) -> Known {
    for index in 0..literal_count(model, enumeration) {
        if literal_name(model, enumeration, index) == name {
            return Known::Literal(enumeration.index(), index);
        }
    }
    Known::Nothing
}

/// The place that a feature of the object of a place is, where that is a variable.
fn feature_of_place(place: Option<Subject>, feature: FeatureNo) -> Option<Subject> {
    match place? {
        Subject {
            variable,
            feature: None,
        } => Some(Subject {
            variable,
            feature: Some(feature.index()),
        }),
        _ => None,
    }
}

/// Whether `null` is written as an argument of an operation that asks for numbers.
fn is_null_taken(name: &str, arguments: &[Expression]) -> bool {
    matches!(name, "max" | "min" | "div" | "mod" | "substring")
        && arguments.iter().any(|it| {
            matches!(
                it,
                Expression::Keyword {
                    keyword: Keyword::Null,
                    ..
                }
            )
        })
}

/// What is known of the result of an operation on a value of a type.
fn known_result(name: &str, on: &Kind, arguments: &[Expression]) -> Known {
    if is_null_taken(name, arguments) {
        return Known::Invalid;
    }
    match (name, on) {
        ("size" | "count", _) => Known::Number(Interval::counts()),
        ("abs", Kind::Scalar(_)) => Known::Number(Interval::counts()),
        _ => Known::Nothing,
    }
}

/// What is decided of an operator between parts, whatever the delivery.
fn decision_of(operator: BinaryOperator, left: &Part, right: &Part) -> Option<Decision> {
    if is_invalid(operator, left, right) {
        // (of what is invalid already it was said)
        let is_here = left.kind == VOID || right.kind == VOID;
        return if is_here {
            Some(Decision::Invalid)
        } else {
            None
        };
    }
    if are_never_both(operator, left, right) {
        return Some(Decision::NeverBoth);
    }
    let fate = comparison(operator, left, right);
    match (fate.may_hold, fate.may_fail) {
        (false, true) => Some(Decision::NeverTrue),
        (true, false) => Some(Decision::NeverFalse),
        _ => None,
    }
}

impl<'t> Reading<'t> {
    /// A reading of a rule of a context class, which has this flaw at an offset.
    pub(crate) fn of_rule(
        alloc: Global,
        model: &'t ClassModel,
        context: ClassNo,
        rule: &SurfaceRule,
        flaw: TypeFlaw,
        offset: usize,
    ) -> Result<Reading<'t>, AllocError> {
        Ok(Reading {
            model,
            flaw,
            offset,
            rule_offset: rule.expression.offset(),
            scope: Scope::of_context(alloc, context)?,
            finding: None,
            name: "",
            operation: "",
        })
    }

    /// Whether this is the fault.
    fn is_fault(&self, flaw: TypeFlaw, offset: usize) -> bool {
        self.offset == offset && self.flaw == flaw
    }

    /// Stops where this is the fault, with what was found there.
    fn look(&mut self, flaw: TypeFlaw, offset: usize, found: Finding) -> Result<(), Stop> {
        if self.is_fault(flaw, offset) {
            self.finding = Some(found);
            return Err(Stop::Fault);
        }
        Ok(())
    }

    /// Stops where a name is the fault since it isn't known, with what was found there.
    fn look_up(&mut self, name: &'t str, offset: usize, found: Finding) -> Result<(), Stop> {
        self.name = name;
        self.look(TypeFlaw::UnknownName, offset, found)
    }

    /// The part that stands at an offset; the fault may be that it isn't Boolean, or is a collection.
    fn part_at(&mut self, part: Part, offset: usize) -> Result<Part, Stop> {
        self.look(TypeFlaw::NotBoolean, offset, Finding::NotBoolean(part.kind))?;
        self.look(
            TypeFlaw::NestedCollection,
            offset,
            Finding::NestedBody(part.kind),
        )?;
        Ok(part)
    }

    /// The type that a name alone writes.
    fn scalar_declared(&mut self, name: &'t Name, offset: usize) -> Result<ScalarKind, Stop> {
        match named_type(self.model, name.as_str()) {
            Some(kind) => Ok(kind),
            None => {
                self.look_up(name.as_str(), offset, Finding::Type)?;
                Err(Stop::Fault)
            }
        }
    }

    /// The type of the elements of a collection that is declared.
    fn element_declared(&mut self, declared: &'t DeclaredType) -> Result<ScalarKind, Stop> {
        match declared {
            DeclaredType::Named { name, offset } => self.scalar_declared(name, *offset),
            DeclaredType::Collection { offset, .. } => {
                self.look(TypeFlaw::NestedCollection, *offset, Finding::NestedType)?;
                Err(Stop::Fault)
            }
        }
    }

    /// The type that is declared.
    fn declared_kind(&mut self, declared: &'t DeclaredType) -> Result<Kind, Stop> {
        match declared {
            DeclaredType::Named { name, offset } => {
                let scalar = self.scalar_declared(name, *offset)?;
                Ok(Kind::Scalar(scalar))
            }
            DeclaredType::Collection {
                name,
                element,
                offset,
            } => {
                let Some(collection) = collection_kind(name.as_str()) else {
                    self.look_up(name.as_str(), *offset, Finding::Collection)?;
                    return Err(Stop::Fault);
                };
                let element = self.element_declared(element)?;
                Ok(Kind::Collection(collection, element))
            }
        }
    }

    /// The type that a variable has for elements of a type.
    fn variable_kind(
        &mut self,
        element: &ScalarKind,
        variable: &'t Variable,
    ) -> Result<Kind, Stop> {
        let Some(written) = &variable.declared else {
            return Ok(Kind::Scalar(*element));
        };
        let declared = self.declared_kind(written)?;
        let given = Kind::Scalar(*element);
        self.look_at_bound(true, &given, &declared, written.offset())?;
        Ok(declared)
    }

    /// The part that a bare name is.
    fn name(&mut self, name: &'t Name, offset: usize) -> Result<Part, Stop> {
        match self.scope.place_of_name(self.model, name.as_str()) {
            Some((place, kind)) => Ok(Part::of_place(kind, Some(place))),
            None => {
                self.look_up(name.as_str(), offset, Finding::Name)?;
                Err(Stop::Fault)
            }
        }
    }

    /// The part that a literal of an enumeration is.
    fn literal(
        &mut self,
        enumeration: &'t Name,
        literal: &'t Name,
        offset: usize,
    ) -> Result<Part, Stop> {
        let Some(number) = self.model.enumeration(enumeration.as_str()) else {
            self.look_up(enumeration.as_str(), offset, Finding::Enumeration)?;
            return Err(Stop::Fault);
        };
        self.look_up(literal.as_str(), offset, Finding::Literal(number))?;
        let known = known_literal(self.model, number, literal.as_str());
        Ok(Part {
            is_there: true,
            ..Part::of_known(Kind::Scalar(ScalarKind::Enumeration(number)), known)
        })
    }

    /// The part that a word is.
    fn keyword(&self, keyword: Keyword) -> Part {
        match keyword {
            Keyword::True | Keyword::False => Part::of_value(BOOLEAN),
            Keyword::SelfObject => Part {
                subject: Some(Subject {
                    variable: 0,
                    feature: None,
                }),
                ..Part::of_value(self.scope.context_kind())
            },
            Keyword::Null | Keyword::Invalid => Part::of_kind(VOID),
        }
    }

    /// The part that a minus sign makes of its operand.
    fn negated(&mut self, operand: Part, offset: usize) -> Result<Part, Stop> {
        let (kind, known) = (operand.kind, operand.known.opposite());
        if !is_integer(&kind) {
            self.look(TypeFlaw::WrongType, offset, Finding::NoInteger(kind))?;
        }
        Ok(Part::of_known(INTEGER, known))
    }

    /// The part that a prefix operator makes of its operand.
    fn prefix(
        &mut self,
        operator: PrefixOperator,
        operand: Part,
        offset: usize,
    ) -> Result<Part, Stop> {
        match operator {
            PrefixOperator::Not => Ok(operand.negated()),
            PrefixOperator::Negate => self.negated(operand, offset),
        }
    }

    /// Looks at operands of an operator.
    fn look_at_operands(
        &mut self,
        operator: BinaryOperator,
        left: Kind,
        right: Kind,
        offset: usize,
    ) -> Result<(), Stop> {
        if are_taken(operator, &left, &right) {
            return Ok(());
        }
        let found = Finding::Operands {
            operator,
            left,
            right,
        };
        self.look(TypeFlaw::WrongType, offset, found)
    }

    /// The part that an operator makes of its operands.
    fn binary(
        &mut self,
        operator: BinaryOperator,
        left: Part,
        right: Part,
        offset: usize,
    ) -> Result<Part, Stop> {
        self.look_at_operands(operator, left.kind, right.kind, offset)?;
        if is_equality(operator) && !have_something_in_common(&left.kind, &right.kind) {
            self.scope.note_unequal(offset, left.kind, right.kind)?;
        } else if let Some(decision) = decision_of(operator, &left, &right) {
            self.scope.note_decided(offset, decision)?;
        }
        Ok(operator_part(operator, &left, &right))
    }

    /// The part that a feature after a dot is.
    fn property(&mut self, left: &Part, name: &'t Name, offset: usize) -> Result<Part, Stop> {
        let name = name.as_str();
        self.look_up(name, offset, Finding::Feature(left.kind))?;
        let ScalarKind::Class(class) = elements_kind(&left.kind) else {
            return Err(Stop::Fault);
        };
        match feature_of_class(self.model, class, name) {
            Some((feature, own)) => Ok(Part::of_place(
                collection_of(left.kind, own),
                feature_of_place(left.subject, feature),
            )),
            None => Err(Stop::Fault),
        }
    }

    /// The part that all objects of a class are.
    fn instances(
        &mut self,
        class: &'t Name,
        class_offset: usize,
        offset: usize,
    ) -> Result<Part, Stop> {
        let Some(number) = self.model.class(class.as_str()) else {
            self.look_up(class.as_str(), class_offset, Finding::Class)?;
            return Err(Stop::Fault);
        };
        self.look(TypeFlaw::WrongArgumentCount, offset, Finding::NoArguments)?;
        let kind = Kind::Collection(CollectionKind::Set, ScalarKind::Class(number));
        self.part_at(Part::of_kind(kind), offset)
    }

    /// The part that a call is whose arguments were looked at.
    fn called(
        &self,
        navigation: Navigation,
        name: &str,
        arguments: &[Expression],
        left: Kind,
    ) -> Result<Part, Stop> {
        let on = called_on(navigation, &left);
        let operation = operation_on(name, &on).ok_or(Stop::Fault)?;
        let class = class_argument(self.model, arguments);
        let one = match operation.result(&on) {
            Some(kind) => kind,
            None => Kind::Scalar(ScalarKind::Class(class.ok_or(Stop::Fault)?)),
        };
        let kind = match navigation {
            Navigation::Dot => collection_of(left, one),
            Navigation::Arrow => one,
        };
        let part = Part::of_known(kind, known_result(name, &on, arguments));
        Ok(match class {
            Some(class) => part.of_test(self.model, name, &left, class),
            None => part,
        })
    }

    /// Looks at arguments that should each be the name of a class.
    fn look_at_classes(&mut self, arguments: &'t [Expression]) -> Result<(), Stop> {
        for argument in arguments {
            match argument {
                Expression::Name { name, offset } => {
                    self.look_up(name.as_str(), *offset, Finding::Class)?;
                }
                _ => self.look_up("", argument.offset(), Finding::NoClass)?,
            }
        }
        Ok(())
    }

    /// Looks at a value, or an element, that should be of the type that is declared.
    fn look_at_bound(
        &mut self,
        is_element: bool,
        given: &Kind,
        declared: &Kind,
        offset: usize,
    ) -> Result<(), Stop> {
        let found = Finding::OtherType {
            is_element,
            given: *given,
            declared: *declared,
        };
        self.look(TypeFlaw::WrongType, offset, found)
    }

    /// Looks at a call of an operation that may not be there, or that takes another number of arguments.
    fn look_at_call(
        &mut self,
        navigation: Navigation,
        left: &Kind,
        given: usize,
        offset: usize,
    ) -> Result<(), Stop> {
        let unknown = Finding::Operation {
            left: *left,
            navigation,
        };
        self.look(TypeFlaw::UnknownOperation, offset, unknown)?;
        let count = Finding::ArgumentCount {
            on: called_on(navigation, left),
            given,
        };
        self.look(TypeFlaw::WrongArgumentCount, offset, count)
    }

    /// Puts a variable for elements of a type into the scope.
    fn push_variable(&mut self, element: &ScalarKind, variable: &'t Variable) -> Result<(), Stop> {
        let kind = self.variable_kind(element, variable)?;
        self.scope.push_named(&variable.name, kind, None)?;
        Ok(())
    }

    /// Puts the variables of an iteration over elements of a type into the scope.
    fn push_variables(
        &mut self,
        element: &ScalarKind,
        variables: &'t Variables,
    ) -> Result<(), Stop> {
        match variables {
            Variables::Unnamed => {
                self.scope.push_unnamed(Kind::Scalar(*element))?;
                Ok(())
            }
            Variables::Single(variable) => self.push_variable(element, variable),
            Variables::Pair(first, second) => {
                self.push_variable(element, first)?;
                self.push_variable(element, second)
            }
        }
    }

    /// The type that is declared of an accumulator: one of four sorts.
    fn accumulator_kind(&mut self, declared: &'t DeclaredType) -> Result<Kind, Stop> {
        let kind = self.declared_kind(declared)?;
        if !is_accumulators(&kind) {
            let found = Finding::NoAccumulator(kind);
            self.look(TypeFlaw::WrongType, declared.offset(), found)?;
        }
        Ok(kind)
    }

    /// Puts the variable of a `let` into the scope, once its value was looked at.
    fn push_bound(
        &mut self,
        binding: &'t Binding,
        given: &Kind,
        declared: Kind,
    ) -> Result<(), Stop> {
        self.look_at_bound(false, given, &declared, binding.declared.offset())?;
        let offset = Some(binding.offset);
        self.scope.push_named(&binding.name, declared, offset)?;
        Ok(())
    }

    /// The part that one of two branches is, once they were looked at.
    fn joined(&mut self, one: &Part, other: &Part, offset: usize) -> Result<Part, Stop> {
        let found = Finding::Branches {
            one: one.kind,
            other: other.kind,
        };
        self.look(TypeFlaw::NoCommonType, offset, found)?;
        Ok(branches_part(self.model, one, other))
    }

    /// Puts the variable of a fold and its accumulator into the scope.
    fn push_folded(
        &mut self,
        variable: &'t Variable,
        element: Kind,
        accumulator: &'t Binding,
        kind: Kind,
    ) -> Result<(), Stop> {
        self.scope.push_named(&variable.name, element, None)?;
        self.scope.push_named(&accumulator.name, kind, None)?;
        Ok(())
    }

    /// The part that an expression is, unless the fault is in it.
    #[cycle(reading)]
    pub(crate) fn part_of(&mut self, expression: &'t Expression) -> Result<Part, Stop> {
        let part = match expression {
            Expression::Number { value, .. } => Part::of_number(value.get()),
            Expression::String { .. } => Part::of_value(STRING),
            Expression::Keyword { keyword, .. } => self.keyword(*keyword),
            Expression::Name { name, offset } => self.name(name, *offset)?,
            Expression::EnumerationLiteral {
                enumeration,
                literal,
                offset,
            } => self.literal(enumeration, literal, *offset)?,
            Expression::Prefix {
                operator,
                operand,
                offset,
            } => {
                let operand = self.part_of(operand)?;
                self.prefix(*operator, operand, *offset)?
            }
            Expression::Spine { first, links } => {
                return match class_before(first, links) {
                    Some((class, offset)) => {
                        let part = self.instances(class, first.offset(), offset)?;
                        self.links(links, 1, part)
                    }
                    None => {
                        let part = self.part_of(first)?;
                        self.links(links, 0, part)
                    }
                };
            }
            Expression::Let {
                first,
                others,
                body,
                ..
            } => {
                let outside = self.scope.len();
                self.bind(first)?;
                for other in others {
                    self.bind(other)?;
                }
                let part = self.part_of(body)?;
                self.scope.cut(outside)?;
                part.outside()
            }
            Expression::If {
                condition,
                then_branch,
                else_branch,
                offset,
            } => {
                self.part_of(condition)?;
                let one = self.part_of(then_branch)?;
                let other = self.part_of(else_branch)?;
                self.joined(&one, &other, *offset)?
            }
        };
        self.part_at(part, expression.offset())
    }

    /// Puts a variable into the scope, once its type and its value were looked at.
    #[cycle(reading)]
    fn bind(&mut self, binding: &'t Binding) -> Result<(), Stop> {
        match self.declared_kind(&binding.declared) {
            Ok(declared) => match self.part_of(&binding.value) {
                Ok(value) => self.push_bound(binding, &value.kind, declared),
                Err(stop) => Err(stop),
            },
            Err(stop) => Err(stop),
        }
    }

    /// The part that the links from an index on make of one.
    #[cycle(reading)]
    fn links(&mut self, links: &'t [Link], from: usize, left: Part) -> Result<Part, Stop> {
        let mut part = left;
        for index in from..links.len() {
            let link = &links[index];
            match self.link(link, part) {
                Ok(next) => match self.part_at(next, link.offset()) {
                    Ok(next) => part = next,
                    Err(stop) => return Err(stop),
                },
                Err(stop) => return Err(stop),
            }
        }
        Ok(part)
    }

    /// The part that a link makes of one.
    #[cycle(reading)]
    fn link(&mut self, link: &'t Link, left: Part) -> Result<Part, Stop> {
        match link {
            Link::Binary {
                operator,
                right,
                offset,
            } => match self.part_of(right) {
                Ok(right) => self.binary(*operator, left, right, *offset),
                Err(stop) => Err(stop),
            },
            Link::Property { name, offset } => self.property(&left, name, *offset),
            Link::Call {
                navigation,
                name,
                arguments,
                offset,
            } => self.call(*navigation, name.as_str(), arguments, left.kind, *offset),
            Link::Iterate {
                iterator,
                variables,
                body,
                ..
            } => self.iteration(*iterator, variables, body, left.kind),
            Link::Fold { .. } => self.fold(link, left.kind),
        }
    }

    /// The part that a call makes of what it is called on.
    #[cycle(reading)]
    fn call(
        &mut self,
        navigation: Navigation,
        name: &'t str,
        arguments: &'t [Expression],
        left: Kind,
        offset: usize,
    ) -> Result<Part, Stop> {
        let on = called_on(navigation, &left);
        if matches!(navigation, Navigation::Arrow) && operation_on(name, &on).is_none() {
            self.operation = name;
        }
        let untaken = self.arguments(name, &on, arguments)?;
        self.name = name;
        self.look_at_call(navigation, &left, arguments.len(), offset)?;
        if let Some((index, given)) = untaken {
            let found = Finding::Argument { on, index, given };
            self.look(TypeFlaw::WrongType, offset, found)?;
        }
        if is_null_taken(name, arguments) {
            self.scope.note_decided(offset, Decision::Invalid)?;
        }
        self.called(navigation, name, arguments, left)
    }

    /// Looks at the arguments of an operation; gives the index and the type of the first that it doesn't take.
    #[cycle(reading)]
    fn arguments(
        &mut self,
        name: &str,
        on: &Kind,
        arguments: &'t [Expression],
    ) -> Result<Option<(usize, Kind)>, Stop> {
        let mut untaken = None;
        if takes_class(name) {
            self.look_at_classes(arguments)?;
            return Ok(untaken);
        }
        for (index, argument) in arguments.iter().enumerate() {
            let part = self.part_of(argument)?;
            if untaken.is_none() && !is_taken(name, on, index, &part.kind) {
                untaken = Some((index, part.kind));
            }
        }
        Ok(untaken)
    }

    /// The part that an iteration makes of its source.
    #[cycle(reading)]
    fn iteration(
        &mut self,
        iterator: IteratorKind,
        variables: &'t Variables,
        body: &'t Expression,
        left: Kind,
    ) -> Result<Part, Stop> {
        let outside = self.scope.len();
        self.push_variables(&elements_kind(&left), variables)?;
        let inner = self.part_of(body)?;
        self.scope.cut(outside)?;
        Ok(Part {
            fate: iteration_fate(iterator, inner.fate),
            ..Part::of_kind(iteration_kind(iterator, &left, &inner.kind))
        })
    }

    /// The part that a fold makes of its source.
    #[cycle(reading)]
    fn fold(&mut self, link: &'t Link, left: Kind) -> Result<Part, Stop> {
        let Link::Fold {
            variable,
            accumulator,
            body,
            ..
        } = link
        else {
            return Err(Stop::Fault);
        };
        let outside = self.scope.len();
        let element = self.variable_kind(&elements_kind(&left), variable)?;
        let kind = self.accumulator_kind(&accumulator.declared)?;
        let start = self.part_of(&accumulator.value)?;
        self.look_at_bound(false, &start.kind, &kind, accumulator.declared.offset())?;
        self.push_folded(variable, element, accumulator, kind)?;
        let found = self.part_of(body)?;
        self.scope.cut(outside)?;
        self.look_at_bound(false, &found.kind, &kind, body.offset())?;
        Ok(Part::of_kind(kind))
    }
}
