//! What a rule may come to whatever the delivery: whether any object can keep it, and whether any can break it. Comparisons
//! decide, of values of types that have nothing in common and of known numbers and literals, and tests of classes.

use crate::conforming::{have_something_in_common, is_arithmetic, is_below};
use crate::known::{
    Both, Bound, Fate, Interval, Known, Subject, asks_for_numbers, compared, comparison_bound,
    joined,
};
use explain_names::{is_abstract, is_class_below};
use imkl_model::{ClassModel, ClassNo};
use ocl_kinds::{Kind, ScalarKind};
use ocl_text::{BinaryOperator, IteratorKind};

/// A part of a rule, as far as types tell.
#[derive(Clone, Copy, Drop)]
pub(crate) struct Part {
    pub(crate) kind: Kind,
    pub(crate) fate: Fate,
    /// Whether its value is never null.
    pub(crate) is_there: bool,
    /// What else is known of its value.
    pub(crate) known: Known,
    /// The place whose value it is, if it is one.
    pub(crate) subject: Option<Subject>,
    /// What is known of a place where it holds.
    pub(crate) bound: Option<Bound>,
}

impl Part {
    /// A part of which only its type is known.
    pub(crate) fn of_kind(kind: Kind) -> Part {
        Part {
            kind,
            fate: Fate::open(),
            is_there: matches!(kind, Kind::Collection(_, _)),
            known: Known::Nothing,
            subject: None,
            bound: None,
        }
    }

    /// A value that is written.
    pub(crate) fn of_value(kind: Kind) -> Part {
        Part {
            is_there: true,
            ..Part::of_kind(kind)
        }
    }

    /// A part of which this is known besides its type.
    pub(crate) fn of_known(kind: Kind, known: Known) -> Part {
        Part {
            known,
            ..Part::of_kind(kind)
        }
    }

    /// A Boolean with the other value.
    pub(crate) fn negated(self) -> Part {
        Part {
            fate: self.fate.opposite(),
            is_there: self.is_there,
            ..Part::of_kind(Kind::Scalar(ScalarKind::Boolean))
        }
    }

    /// A whole number that is written.
    pub(crate) fn of_number(number: u64) -> Part {
        Part {
            known: Known::Number(Interval::single(number)),
            ..Part::of_value(Kind::Scalar(ScalarKind::Integer))
        }
    }

    /// The value of a place.
    pub(crate) fn of_place(kind: Kind, subject: Option<Subject>) -> Part {
        Part {
            subject,
            ..Part::of_kind(kind)
        }
    }

    /// The part without what is known of places: variables that it names may be gone.
    pub(crate) fn outside(self) -> Part {
        Part {
            subject: None,
            bound: None,
            ..self
        }
    }

    /// Whether its value is null or invalid wherever it stands.
    fn is_absent(&self) -> bool {
        self.kind == Kind::Scalar(ScalarKind::Void) || matches!(self.known, Known::Invalid)
    }

    /// The part, which is a call of an operation on a value of a type with the name of a class, if that is a test.
    pub(crate) fn of_test(
        self,
        model: &ClassModel,
        name: &str,
        on: &Kind,
        tested: ClassNo,
    ) -> Part {
        let Kind::Scalar(ScalarKind::Class(class)) = on else {
            return self;
        };
        let is_exact = match name {
            "oclIsKindOf" => false,
            "oclIsTypeOf" => true,
            _ => return self,
        };
        Part {
            fate: class_fate(model, *class, tested, is_exact),
            ..self
        }
    }
}

/// What a comparison of parts for equality comes to: where they have nothing in common, it is true of two nulls alone.
fn equal_fate(left: &Part, right: &Part) -> Fate {
    if have_something_in_common(&left.kind, &right.kind) {
        return Fate::open();
    }
    Fate {
        may_hold: !left.is_there && !right.is_there,
        may_fail: true,
    }
}

/// Whether an operator between parts is invalid, since one of them is null or invalid.
pub(crate) fn is_invalid(operator: BinaryOperator, left: &Part, right: &Part) -> bool {
    asks_for_numbers(operator) && (left.is_absent() || right.is_absent())
}

/// What a comparison of parts may come to by what is known of their values.
pub(crate) fn comparison(operator: BinaryOperator, left: &Part, right: &Part) -> Fate {
    compared(operator, left.known, right.known)
}

/// Whether two conditions can't both hold, since a value would have to be of two intervals.
pub(crate) fn are_never_both(operator: BinaryOperator, left: &Part, right: &Part) -> bool {
    matches!(operator, BinaryOperator::And)
        && matches!(joined(left.bound, right.bound), Both::Never)
}

/// What is known of a place where an operator between parts holds.
fn operator_bound(operator: BinaryOperator, left: &Part, right: &Part) -> Option<Bound> {
    match operator {
        BinaryOperator::And => match joined(left.bound, right.bound) {
            Both::Bounded(bound) => bound,
            Both::Never => None,
        },
        _ => comparison_bound(
            operator,
            (left.subject, left.known),
            (right.subject, right.known),
        ),
    }
}

/// What an operator between Booleans, or a comparison, may come to.
fn operator_fate(operator: BinaryOperator, left: &Part, right: &Part) -> Fate {
    let (one, other) = (left.fate, right.fate);
    let fate = match operator {
        BinaryOperator::Equal => equal_fate(left, right),
        BinaryOperator::NotEqual => equal_fate(left, right).opposite(),
        BinaryOperator::And => one.and(other),
        BinaryOperator::Or => one.or(other),
        BinaryOperator::Implies => one.opposite().or(other),
        _ => Fate::open(),
    };
    if are_never_both(operator, left, right) || is_invalid(operator, left, right) {
        return Fate {
            may_hold: false,
            may_fail: fate.may_fail && !is_invalid(operator, left, right),
        };
    }
    fate.limited(comparison(operator, left, right))
}

/// What an operator between parts comes to.
pub(crate) fn operator_part(operator: BinaryOperator, left: &Part, right: &Part) -> Part {
    let is_there = is_arithmetic(operator);
    let scalar = if is_there {
        ScalarKind::Integer
    } else {
        ScalarKind::Boolean
    };
    let known = if is_invalid(operator, left, right) {
        Known::Invalid
    } else {
        Known::Nothing
    };
    Part {
        fate: operator_fate(operator, left, right),
        is_there,
        known,
        bound: operator_bound(operator, left, right),
        ..Part::of_kind(Kind::Scalar(scalar))
    }
}

/// Whether an object of a class can be of another, by a test: of its own class alone, or also of one below it.
fn class_fate(model: &ClassModel, class: ClassNo, tested: ClassNo, is_exact: bool) -> Fate {
    let mut fate = Fate {
        may_hold: false,
        may_fail: false,
    };
    for index in 0..model.class_count() {
        let own = ClassNo::new(index);
        if is_class_below(model, own, class) && !is_abstract(model, own) {
            let passes = if is_exact {
                own == tested
            } else {
                is_class_below(model, own, tested)
            };
            fate.may_hold = fate.may_hold || passes;
            fate.may_fail = fate.may_fail || !passes;
        }
    }
    fate
}

/// What an iteration with a body comes to.
pub(crate) fn iteration_fate(iterator: IteratorKind, body: Fate) -> Fate {
    match iterator {
        IteratorKind::ForAll => Fate {
            may_hold: true,
            may_fail: body.may_fail,
        },
        IteratorKind::Exists | IteratorKind::One => Fate {
            may_hold: body.may_hold,
            may_fail: true,
        },
        _ => Fate::open(),
    }
}

/// One of two branches, by the wider of their types.
pub(crate) fn branches_part(model: &ClassModel, one: &Part, other: &Part) -> Part {
    Part {
        kind: if is_below(model, &one.kind, &other.kind) {
            other.kind
        } else {
            one.kind
        },
        fate: one.fate.either(other.fate),
        is_there: one.is_there && other.is_there,
        ..Part::of_kind(one.kind)
    }
}
