//! What a test met whose calls may be refused memory, at most one of them.

use std::test::*;

/// What a test met.
#[derive(Clone, Copy, Debug, PartialEq, Eq)]
pub(crate) enum Met {
    /// No refusal: each call answered as it should.
    Nothing,
    /// A refused call, after which all stood as it should. Made again, it answered as it should, and so did all others.
    Refusal,
    /// A refusal outside the calls: something that they are given, or that is compared with their answers, wasn't had.
    RefusalElsewhere,
    /// Another answer than is specified, or something else that stands after a refusal.
    Fault,
}

impl Met {
    /// What was met where the calls that met this came after a refused one.
    pub(crate) fn after_refusal(self) -> Met {
        self.after(Met::Refusal)
    }

    /// What was met where the calls that met this came after those that met something before.
    pub(crate) fn after(self, before: Met) -> Met {
        match (before, self) {
            (Met::Nothing, met) | (met, Met::Nothing) => met,
            (Met::Refusal | Met::RefusalElsewhere | Met::Fault, _) => Met::Fault,
        }
    }

    /// What was met where this is all that is wrong.
    pub(crate) fn fault_unless(holds: bool) -> Met {
        if holds { Met::Nothing } else { Met::Fault }
    }
}

/// Prints what a test met, and tells whether that is nothing, as it is where no request for memory is refused.
pub(crate) fn met_nothing(rt: &HostRuntime, met: Met) -> Result<bool, Fail> {
    println!(rt; "met {met:?}")?;
    Ok(met == Met::Nothing)
}
