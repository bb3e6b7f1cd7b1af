//! Memory that instructions take.

ghost use Rattle.std.specs.Prelude.{◌≡◌};
ghost use Rattle.std.specs.List.{list_any};
ghost use Rattle.rule_verify.specs.CodeTree.{block_of};
ghost use Rattle.rule_verify.specs.InstrKinds.{block_gathers, gathers};

use crate::block_instr::BlockInstr;
use crate::blocks::block_of;
use rule_code::Instr;

/// Whether a block gathers a collection of its own when it is run.
fn block_gathers(instr: Instr) -> bool
    ensures { result ≡ block_gathers (block_of instr) }
{
    match block_of(instr) {
        Some(BlockInstr::Let(_) | BlockInstr::If(_, _, _)) | None => false,
        Some(BlockInstr::ForAll(_) | BlockInstr::Exists(_) | BlockInstr::One(_)) => false,
        Some(BlockInstr::Select(_) | BlockInstr::Reject(_)) => true,
        Some(BlockInstr::Collect(_) | BlockInstr::CollectFlat(_)) => true,
        Some(BlockInstr::IsUnique(_, _)) => true,
        Some(BlockInstr::Fold(_, _)) => false,
    }
}

/// Whether an instruction gathers a collection of its own when it is run.
pub(crate) fn gathers(instr: Instr) -> bool
    ensures { result ≡ gathers instr }
{
    match instr {
        Instr::AsColl(_, _) | Instr::AsSet(_) => true,
        _ => block_gathers(instr),
    }
}

/// Whether some instruction gathers a collection of its own when it is run.
pub(crate) fn takes_memory(code: &[Instr]) -> bool
    ensures { result ≡ list_any gathers code.now }
{
    code.iter().any(|instr| gathers(*instr))
}
