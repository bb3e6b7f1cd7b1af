//! How large and how deep code is.

ghost use Rattle.std.specs.Prelude.{◌≡◌, ◌+◌, min};
ghost use Rattle.ocl_compile.specs.Extents as extents;
ghost use Rattle.ocl_compile.specs.Extents.{cut_extent};

use crate::limits::COUNTING_END;

/// How large and how deep code is; numbers above 65,536 are 65,536.
#[derive(Clone, Copy)]
pub(crate) struct Extent {
    /// The number of instructions.
    pub(crate) instructions: usize,
    /// The most operands at once.
    pub(crate) operands: usize,
    /// The most blocks in one another.
    pub(crate) blocks: usize,
}

/// A sum, or 65,536 where it is greater.
fn sum(first: usize, second: usize) -> usize
    ensures { result ≡ min (first + second) COUNTING_END }
{
    first.saturating_add(second).min(COUNTING_END)
}

/// A number, or 65,536 where it is greater.
fn cut(number: usize) -> usize
    ensures { result ≡ min number COUNTING_END }
{
    number.min(COUNTING_END)
}

impl Extent {
    /// One instruction.
    pub(crate) fn one() -> Extent
        ensures { result ≡ cut_extent extents.one_instruction }
    {
        Extent {
            instructions: 1,
            operands: 1,
            blocks: 0,
        }
    }

    /// This code and an instruction that takes what it gives.
    pub(crate) fn then_instruction(self) -> Extent
        ensures { result ≡ cut_extent (extents.then_instruction self) }
    {
        Extent {
            instructions: sum(self.instructions, 1),
            operands: cut(self.operands),
            blocks: cut(self.blocks),
        }
    }

    /// This code, and then code above `below` operands.
    pub(crate) fn then_above(self, below: usize, next: Extent) -> Extent
        ensures { result ≡ cut_extent (extents.then_above below self next) }
    {
        Extent {
            instructions: sum(self.instructions, next.instructions),
            operands: cut(self.operands.max(sum(below, next.operands))),
            blocks: cut(self.blocks.max(next.blocks)),
        }
    }

    /// This code, and then a block with one body.
    pub(crate) fn then_block(self, body: Extent) -> Extent
        ensures { result ≡ cut_extent (extents.then_block self body) }
    {
        Extent {
            instructions: sum(sum(self.instructions, 1), body.instructions),
            operands: cut(self.operands.max(body.operands)),
            blocks: cut(self.blocks.max(sum(1, body.blocks))),
        }
    }

    /// This code, and then a block with two bodies.
    pub(crate) fn then_branches(self, first: Extent, second: Extent) -> Extent
        ensures { result ≡ cut_extent (extents.then_branches self first second) }
    {
        let before = sum(sum(self.instructions, 1), first.instructions);
        Extent {
            instructions: sum(before, second.instructions),
            operands: cut(self.operands.max(first.operands.max(second.operands))),
            blocks: cut(self.blocks.max(sum(1, first.blocks.max(second.blocks)))),
        }
    }
}
