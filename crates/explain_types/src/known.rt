//! What is known of a value besides its type: that it is a whole number of an interval, a literal, or none at all; and of a
//! Boolean, whether it may be true, and whether it may be false.

use crate::conforming::is_arithmetic;
use ocl_text::BinaryOperator;

/// The whole numbers from one to another, both among them.
#[derive(Clone, Copy, Drop)]
pub(crate) struct Interval {
    least: i64,
    greatest: i64,
}

impl Interval {
    /// One number, which a text writes.
    pub(crate) fn single(number: u64) -> Interval {
        let number = i64::try_from(number).unwrap_or(i64::MAX);
        Interval {
            least: number,
            greatest: number,
        }
    }

    /// Those that count something.
    pub(crate) fn counts() -> Interval {
        Interval {
            least: 0,
            greatest: i64::MAX,
        }
    }

    /// Those with the other sign.
    pub(crate) fn opposite(self) -> Interval {
        Interval {
            least: self.greatest.saturating_neg(),
            greatest: self.least.saturating_neg(),
        }
    }

    /// Those up to the greatest: each is less than some number of this interval, or, unless strict, equal to one. (`i64::MIN`
    /// is always among them.)
    fn up_to(self, is_strict: bool) -> Interval {
        Interval {
            least: i64::MIN,
            greatest: self.greatest.saturating_sub(i64::from(is_strict)),
        }
    }

    /// Those from the least on: each is greater than some number of this interval, or, unless strict, equal to one.
    /// (`i64::MAX` is always among them.)
    fn from(self, is_strict: bool) -> Interval {
        Interval {
            least: self.least.saturating_add(i64::from(is_strict)),
            greatest: i64::MAX,
        }
    }

    /// Those that are of another interval too, if there are some.
    pub(crate) fn within(self, other: Interval) -> Option<Interval> {
        let (least, greatest) = (
            self.least.max(other.least),
            self.greatest.min(other.greatest),
        );
        if least > greatest {
            return None;
        }
        Some(Interval { least, greatest })
    }

    /// Whether it is one number, and another interval is the same.
    fn is_same_number(self, other: Interval) -> bool {
        self.least == self.greatest && other.least == self.least && other.greatest == self.least
    }
}

/// What is known of a value.
#[derive(Clone, Copy, Drop)]
pub(crate) enum Known {
    /// Its type alone.
    Nothing,
    /// It is a whole number of an interval, if it is there.
    Number(Interval),
    /// It is a literal of an enumeration, by the numbers of both.
    Literal(usize, usize),
    /// It is invalid, since an operand is null.
    Invalid,
}

impl Known {
    /// What is known of the number with the other sign.
    pub(crate) fn opposite(self) -> Known {
        match self {
            Known::Number(interval) => Known::Number(interval.opposite()),
            known => known,
        }
    }
}

/// A value that is the same wherever it stands: a variable, by its number from outside, or a feature of its object, by the
/// feature's number.
#[derive(Clone, Copy, Drop)]
pub(crate) struct Subject {
    pub(crate) variable: usize,
    pub(crate) feature: Option<usize>,
}

impl Subject {
    fn is_same(self, other: Subject) -> bool {
        self.variable == other.variable && self.feature == other.feature
    }
}

/// That a value is of an interval wherever a condition holds.
#[derive(Clone, Copy, Drop)]
pub(crate) struct Bound {
    subject: Subject,
    interval: Interval,
}

/// What is known where two conditions hold.
#[derive(Clone, Copy, Drop)]
pub(crate) enum Both {
    /// That a value is of an interval, or nothing.
    Bounded(Option<Bound>),
    /// That they can't both hold.
    Never,
}

/// What two conditions that both hold say of a value: of one value both, of two the second.
pub(crate) fn joined(one: Option<Bound>, other: Option<Bound>) -> Both {
    match (one, other) {
        (Some(first), Some(second)) if first.subject.is_same(second.subject) => {
            match first.interval.within(second.interval) {
                Some(interval) => Both::Bounded(Some(Bound {
                    subject: first.subject,
                    interval,
                })),
                None => Both::Never,
            }
        }
        (bound, None) | (_, bound) => Both::Bounded(bound),
    }
}

/// What a Boolean may come to; it may always be null or invalid.
#[derive(Clone, Copy, Drop)]
pub(crate) struct Fate {
    /// It may be true.
    pub(crate) may_hold: bool,
    /// It may be false.
    pub(crate) may_fail: bool,
}

impl Fate {
    /// Nothing is known.
    pub(crate) fn open() -> Fate {
        Fate {
            may_hold: true,
            may_fail: true,
        }
    }

    /// That of the opposite.
    pub(crate) fn opposite(self) -> Fate {
        Fate {
            may_hold: self.may_fail,
            may_fail: self.may_hold,
        }
    }

    pub(crate) fn and(self, other: Fate) -> Fate {
        Fate {
            may_hold: self.may_hold && other.may_hold,
            may_fail: self.may_fail || other.may_fail,
        }
    }

    pub(crate) fn or(self, other: Fate) -> Fate {
        self.opposite().and(other.opposite()).opposite()
    }

    /// What a Boolean may come to of which both are known.
    pub(crate) fn limited(self, other: Fate) -> Fate {
        Fate {
            may_hold: self.may_hold && other.may_hold,
            may_fail: self.may_fail && other.may_fail,
        }
    }

    /// One of the two.
    pub(crate) fn either(self, other: Fate) -> Fate {
        Fate {
            may_hold: self.may_hold || other.may_hold,
            may_fail: self.may_fail || other.may_fail,
        }
    }
}

/// Whether two numbers of intervals may be equal, and whether they may differ.
fn equality(one: Interval, other: Interval) -> Fate {
    Fate {
        may_hold: one.within(other).is_some(),
        may_fail: !one.is_same_number(other),
    }
}

/// Whether a number of an interval may be less than one of another (or equal, where that is asked too), and whether not.
fn order(one: Interval, other: Interval, is_strict: bool) -> Fate {
    Fate {
        may_hold: one.within(other.up_to(is_strict)).is_some(),
        may_fail: one.within(other.from(!is_strict)).is_some(),
    }
}

/// Whether an operator says which of two numbers is the greater.
fn is_order(operator: BinaryOperator) -> bool {
    matches!(
        operator,
        BinaryOperator::Less
            | BinaryOperator::LessEqual
            | BinaryOperator::Greater
            | BinaryOperator::GreaterEqual
    )
}

/// Whether an operator compares two values.
fn is_comparison(operator: BinaryOperator) -> bool {
    is_order(operator) || matches!(operator, BinaryOperator::Equal | BinaryOperator::NotEqual)
}

/// What a comparison of two values may come to by what is known of them; of any other operator nothing is known.
pub(crate) fn compared(operator: BinaryOperator, left: Known, right: Known) -> Fate {
    if !is_comparison(operator) {
        return Fate::open();
    }
    match (left, right) {
        (Known::Invalid, _) | (_, Known::Invalid) => Fate {
            may_hold: false,
            may_fail: false,
        },
        (Known::Number(one), Known::Number(other)) => numbers_compared(operator, one, other),
        (Known::Literal(first, one), Known::Literal(second, other)) => {
            if first != second {
                return Fate::open();
            }
            let same = Fate {
                may_hold: one == other,
                may_fail: one != other,
            };
            match operator {
                BinaryOperator::Equal => same,
                BinaryOperator::NotEqual => same.opposite(),
                _ => Fate::open(),
            }
        }
        _ => Fate::open(),
    }
}

fn numbers_compared(operator: BinaryOperator, one: Interval, other: Interval) -> Fate {
    match operator {
        BinaryOperator::Less => order(one, other, true),
        BinaryOperator::LessEqual => order(one, other, false),
        BinaryOperator::Greater => order(other, one, true),
        BinaryOperator::GreaterEqual => order(other, one, false),
        BinaryOperator::Equal => equality(one, other),
        BinaryOperator::NotEqual => equality(one, other).opposite(),
        _ => Fate::open(),
    }
}

/// The interval that a value is of where it compares so with one of another.
fn bounded(operator: BinaryOperator, other: Interval) -> Option<Interval> {
    match operator {
        BinaryOperator::Less => Some(other.up_to(true)),
        BinaryOperator::LessEqual => Some(other.up_to(false)),
        BinaryOperator::Greater => Some(other.from(true)),
        BinaryOperator::GreaterEqual => Some(other.from(false)),
        BinaryOperator::Equal => Some(other),
        _ => None,
    }
}

/// The operator with its operands in the other order.
fn turned(operator: BinaryOperator) -> BinaryOperator {
    match operator {
        BinaryOperator::Less => BinaryOperator::Greater,
        BinaryOperator::LessEqual => BinaryOperator::GreaterEqual,
        BinaryOperator::Greater => BinaryOperator::Less,
        BinaryOperator::GreaterEqual => BinaryOperator::LessEqual,
        same => same,
    }
}

/// What is known of a value where a comparison of it with a number holds.
fn bound_of(operator: BinaryOperator, subject: Option<Subject>, other: Known) -> Option<Bound> {
    let Known::Number(interval) = other else {
        return None;
    };
    Some(Bound {
        subject: subject?,
        interval: bounded(operator, interval)?,
    })
}

/// What is known where a comparison of two values holds, each of a place or of a number.
pub(crate) fn comparison_bound(
    operator: BinaryOperator,
    left: (Option<Subject>, Known),
    right: (Option<Subject>, Known),
) -> Option<Bound> {
    match bound_of(operator, left.0, right.1) {
        Some(bound) => Some(bound),
        None => bound_of(turned(operator), right.0, left.1),
    }
}

/// Whether an operator asks for numbers, so that its result is invalid where an operand is null.
pub(crate) fn asks_for_numbers(operator: BinaryOperator) -> bool {
    is_arithmetic(operator) || is_order(operator)
}
