//! The verdict of a slot.

ghost use Rattle.std.specs.Prelude.{◌≡◌};
ghost use Rattle.rule_machine.specs.StandFor.{verdict_slot};

use rule_slots::{Slot, is_false, is_true};
use rule_values::Verdict;

/// The verdict of a truth value, null or invalid.
pub(crate) fn verdict_of(value: Slot) -> Verdict
    ensures { result ≡ verdict_slot value }
{
    if is_true(value) {
        Verdict::Holds
    } else if is_false(value) {
        Verdict::Fails
    } else {
        Verdict::Undecided
    }
}
