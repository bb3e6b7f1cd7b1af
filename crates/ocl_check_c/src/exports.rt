//! The functions that C calls.

ghost use Rattle.std.specs.Prelude.{◌≡◌};
ghost use Rattle.ocl_check.specs.JudgeText.{JudgeAnswers};
ghost use Rattle.ocl_check.specs.Bound.{bound_answer};
ghost use Rattle.ocl_check.specs.Verify.{verify_answer};
ghost use Rattle.ocl_check_c.specs.Buffers.{IsReturned, IsCompiled, options_of};
ghost use Rattle.ocl_check_c.specs.Puts.{IsPut};

use crate::buffer::copy_into;
use ocl_check::{
    JudgeOptions, Outcome, RulesForm, Telling, Unwatched, bound_inputs, compile_inputs,
    judge_inputs, verify_inputs,
};
use std::alloc::Global;

/// Writes what a command answered into the caller's buffer; the status 3 says that memory ran out.
fn put_answer(outcome: Outcome, text: &[u8], out: &mut [u8], wants: &mut usize) -> u8
    ensures { IsPut outcome text.now result out.old out.new wants.new }
{
    match outcome {
        Outcome::Status(status) => {
            copy_into(out, text);
            *wants = text.len();
            status
        }
        // Memory takes all bytes that there is room for.
        Outcome::Failed(_) => {
            *wants = 0;
            3
        }
    }
}

/// The report on a delivery, as `run_judge` writes it: rules come as a text, or as a code file. `budget` is the greatest bound
/// that a rule may have, in charges for an object.
///
/// The answer's first bytes go into `out`, as far as there is room, and `wants` is how many it has. The status is 0 where each
/// rule holds for each object of its context class, else 1; 2 where an input is refused, and then the answer is the refusal's
/// line; 3 where memory ran out: nothing was written then.
#[unsafe(no_mangle)]
pub extern "C" fn ocl_check_judge(
    alloc: Global,
    model: &[u8],
    delivery: &[u8],
    rules: &[u8],
    is_text: bool,
    budget: u64,
    out: &mut [u8],
    wants: &mut usize,
) -> u8
    ensures { IsReturned (JudgeAnswers (options_of is_text budget) model.now delivery.now
        rules.now) result out.old out.new wants.new }
{
    let form = if is_text {
        RulesForm::Text
    } else {
        RulesForm::Code
    };
    let options = JudgeOptions { form, budget };
    let mut sink = Telling::new(Vec::new(alloc));
    let outcome = judge_inputs(
        alloc, &Unwatched, options, model, delivery, rules, &mut sink,
    );
    put_answer(outcome, &sink.into_inner(), out, wants)
}

/// Whether the code of a file is accepted for a class model, as `run_verify` writes it. The status is 0 where it is, else 2;
/// 3 where memory ran out. `out` and `wants` are as those of `ocl_check_judge`.
#[unsafe(no_mangle)]
pub extern "C" fn ocl_check_verify(
    alloc: Global,
    model: &[u8],
    code: &[u8],
    out: &mut [u8],
    wants: &mut usize,
) -> u8
    ensures { IsReturned (λ a. a ≡ verify_answer model.now code.now) result out.old out.new
        wants.new }
{
    let mut sink = Telling::new(Vec::new(alloc));
    let outcome = verify_inputs(alloc, &Unwatched, model, code, &mut sink);
    put_answer(outcome, &sink.into_inner(), out, wants)
}

/// How much each rule of a code file is charged at most for an object of a delivery, as `run_bound` writes it. The status is 0,
/// or 2 where an input is refused; 3 where memory ran out. `out` and `wants` are as those of `ocl_check_judge`.
#[unsafe(no_mangle)]
pub extern "C" fn ocl_check_bound(
    alloc: Global,
    model: &[u8],
    delivery: &[u8],
    code: &[u8],
    out: &mut [u8],
    wants: &mut usize,
) -> u8
    ensures { IsReturned (λ a. a ≡ bound_answer model.now delivery.now code.now) result out.old
        out.new wants.new }
{
    let mut sink = Telling::new(Vec::new(alloc));
    let outcome = bound_inputs(alloc, &Unwatched, model, delivery, code, &mut sink);
    put_answer(outcome, &sink.into_inner(), out, wants)
}

/// The code file of a rule text, as `run_compile` writes it into `code`, with `code_wants`, and the line that it writes
/// beside. The status is 0, or 2 where an input is refused: then there is no code file, and `code_wants` is 0; 3 where memory
/// ran out. Buffers and lengths are as those of `ocl_check_judge`.
#[unsafe(no_mangle)]
pub extern "C" fn ocl_check_compile(
    alloc: Global,
    model: &[u8],
    rules: &[u8],
    code: &mut [u8],
    code_wants: &mut usize,
    out: &mut [u8],
    wants: &mut usize,
) -> u8
    ensures { IsCompiled model.now rules.now result code.old code.new code_wants.new out.old
        out.new wants.new }
{
    let mut file = Telling::new(Vec::new(alloc));
    let mut sink = Telling::new(Vec::new(alloc));
    let outcome = compile_inputs(alloc, &Unwatched, model, rules, &mut file, &mut sink);
    let _ = put_answer(outcome, &file.into_inner(), code, code_wants);
    put_answer(outcome, &sink.into_inner(), out, wants)
}
