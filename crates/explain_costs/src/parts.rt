//! What the iterations of a rule and its instructions on collections are charged at most, as its bound is computed.

use rule_code::Instr;
use rule_cost::{Passed, Turns, Watch};
use rule_verify::{BlockInstr, block_of, operand_count, operands_above};
use std::alloc::{AllocError, Global};

/// What an instruction that goes over a collection comes to.
#[derive(Clone, Copy, Drop)]
pub(crate) struct Part {
    /// The index of the instruction.
    pub(crate) index: usize,
    /// In how many iterations it stands.
    pub(crate) depth: usize,
    /// The index of the instruction that gives what an iteration goes over.
    pub(crate) source: usize,
    /// What an iteration goes over, once it has ended.
    pub(crate) turns: Option<Turns>,
    /// What it is charged at most, all in all, each time.
    pub(crate) charges: u64,
}

/// A block that is open.
#[derive(Clone, Copy, Drop)]
struct Open {
    /// How many operands are below its bodies.
    below: usize,
    /// The place of its part, where it is an iteration.
    part: Option<usize>,
}

/// The parts of a rule, in the order of their instructions.
#[derive(Drop)]
pub(crate) struct Parts<'u> {
    code: &'u [Instr],
    /// The indices of the instructions that give the operands.
    operands: Vec<usize>,
    open: Vec<Open>,
    parts: Vec<Part>,
    /// In how many iterations the walk is.
    depth: usize,
    is_out_of_memory: bool,
}

/// Whether an instruction is an iteration.
fn is_iteration(instruction: Instr) -> bool {
    !matches!(
        block_of(instruction),
        None | Some(BlockInstr::Let(_) | BlockInstr::If(_, _, _))
    )
}

impl<'u> Parts<'u> {
    /// No parts yet.
    pub(crate) fn new(alloc: Global, code: &'u [Instr]) -> Parts<'u> {
        Parts {
            code,
            operands: Vec::new(alloc),
            open: Vec::new(alloc),
            parts: Vec::new(alloc),
            depth: 0,
            is_out_of_memory: false,
        }
    }

    /// The parts, once the walk has ended.
    pub(crate) fn all(&self) -> Result<&[Part], AllocError> {
        if self.is_out_of_memory {
            Err(AllocError)
        } else {
            Ok(&self.parts)
        }
    }

    /// Drops the operands that an instruction takes, and puts what it gives.
    fn replace_operands(&mut self, at: usize, instruction: Instr) -> Result<(), AllocError> {
        let taken = operand_count(instruction);
        self.operands
            .truncate(self.operands.len().saturating_sub(taken));
        self.operands.push(at)?;
        Ok(())
    }

    /// Begins a block.
    fn begin(&mut self, at: usize) -> Result<(), AllocError> {
        let Some(block) = self.code.get(at).copied() else {
            return Ok(());
        };
        let below = self.operands.len();
        if !is_iteration(block) {
            self.open.push(Open { below, part: None })?;
            return Ok(());
        }
        let source = self
            .operands
            .iter()
            .rev()
            .nth(operands_above(block))
            .copied();
        let part = Some(self.parts.len());
        self.parts.push(Part {
            index: at,
            depth: self.depth,
            source: source.unwrap_or(at),
            turns: None,
            charges: 0,
        })?;
        self.depth = self.depth.saturating_add(1);
        self.open.push(Open { below, part })?;
        Ok(())
    }

    /// Ends a block.
    fn end(&mut self, passed: Passed, instruction: Instr) -> Result<(), AllocError> {
        let Some(open) = self.open.pop() else {
            return Ok(());
        };
        self.operands.truncate(open.below);
        if let Some(place) = open.part {
            self.depth = self.depth.saturating_sub(1);
            if place < self.parts.len() {
                self.parts[place].turns = passed.turns;
                self.parts[place].charges = passed.charges;
            }
        }
        self.replace_operands(passed.at, instruction)
    }

    /// Passes an instruction without a body; it is a part where it is charged more than a step.
    fn plain(&mut self, passed: Passed, instruction: Instr) -> Result<(), AllocError> {
        if passed.charges > 1 {
            self.parts.push(Part {
                index: passed.at,
                depth: self.depth,
                source: passed.at,
                turns: None,
                charges: passed.charges,
            })?;
        }
        self.replace_operands(passed.at, instruction)
    }

    /// Notes an instruction that was passed.
    fn note(&mut self, passed: Passed) -> Result<(), AllocError> {
        match self.code.get(passed.at).copied() {
            Some(instruction) if block_of(instruction).is_some() => self.end(passed, instruction),
            Some(instruction) => self.plain(passed, instruction),
            None => Ok(()),
        }
    }
}

impl Watch for Parts<'_> {
    fn open(&mut self, at: usize) {
        if self.begin(at).is_err() {
            self.is_out_of_memory = true;
        }
    }

    fn pass(&mut self, passed: Passed) {
        if self.note(passed).is_err() {
            self.is_out_of_memory = true;
        }
    }
}
