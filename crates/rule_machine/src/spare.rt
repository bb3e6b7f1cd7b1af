//! Room in the pool for copies of collections. It only makes comparing faster: what a machine does never depends on it.

ghost use Rattle.std.specs.Prelude.{◌≤◌};

use imkl_population::Population;
use ocl_base::CollectionKind;
use rule_code::{Instr, WrittenKind};

/// The most slots that a new machine has room for in its pool. Longer collections are copied to room of their own.
pub(crate) const MAX_SPARE: usize = 1024;

/// Whether an instruction compares collections by sorted copies, where they are long and stand in no order.
fn compares(instr: Instr) -> bool {
    match instr {
        Instr::Eq(WrittenKind::Collection(CollectionKind::Set | CollectionKind::Bag, _)) => true,
        Instr::IncAll(_) | Instr::ExcAll(_) => true,
        _ => false,
    }
}

/// Whether some code has an instruction that so compares collections.
pub(crate) fn any_compares(code: &[Instr]) -> bool {
    code.iter().any(|instr| compares(*instr))
}

/// The slots for which room is made, where a rule compares collections of a population: for copies of two that are as long
/// as the population's values or its instances, whichever are more, but no more than a limit.
pub(crate) fn spare_for(population: &Population<'_>) -> usize
    ensures { result ≤ MAX_SPARE }
{
    let longest = population
        .scalars()
        .len()
        .max(population.instance_list().len());
    longest.saturating_mul(2).min(MAX_SPARE)
}
