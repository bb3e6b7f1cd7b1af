//! Numbers that are cut at a limit.

ghost use Rattle.std.specs.Prelude.{◌≡◌, ◌+◌, ◌*◌, max};
ghost use Rattle.rule_cost.specs.Limits.{capped, limited_bound};

use std::marker::Model;

/// From here on a bound is over: 2^63.
pub const STEP_LIMIT: u64 = 9_223_372_036_854_775_808;

/// An upper limit on what a rule's run is charged for an object.
#[derive(Clone, Copy)]
pub enum Bound {
    /// At most this number of charges, which is below 2^63.
    Steps(u64),
    /// 2^63 or more.
    Over,
}

/// A number of charges or of elements. Results are cut at 2^63: greater ones are 2^63.
#[derive(Clone, Copy)]
pub(crate) struct Cut {
    number: u64,
}

impl Model for Cut {
    ghost use Rattle.std.specs.Prelude.{ℕ};

    ghost Value = { ℕ };

    ghost view = { λ c. c.number };

    ghost inverse = { λ n. record { number = n } };
}

impl Cut {
    /// A number, cut.
    pub(crate) fn new(number: u64) -> Cut
        ensures { result ≡ capped number }
    {
        Cut {
            number: number.min(STEP_LIMIT),
        }
    }

    /// The sum.
    pub(crate) fn plus(self, other: Cut) -> Cut
        ensures { result ≡ capped (self + other) }
    {
        Cut::new(self.number.saturating_add(other.number))
    }

    /// The product.
    pub(crate) fn times(self, other: Cut) -> Cut
        ensures { result ≡ capped (self * other) }
    {
        Cut::new(self.number.saturating_mul(other.number))
    }

    /// The number, at most 2^63.
    pub(crate) fn number(self) -> u64
        ensures { result ≡ self }
    {
        self.number
    }

    /// The greater number.
    pub(crate) fn max(self, other: Cut) -> Cut
        ensures { result ≡ max self other }
    {
        Cut {
            number: self.number.max(other.number),
        }
    }

    /// This number of charges as a bound.
    pub(crate) fn bound(self) -> Bound
        ensures { result ≡ limited_bound self }
    {
        if self.number < STEP_LIMIT {
            Bound::Steps(self.number)
        } else {
            Bound::Over
        }
    }
}
