//! The command `bound`.

ghost use Rattle.std.specs.Prelude.{◌≡◌, ◌++◌, true, false, IfOk, OnOk, string_bytes};
ghost use Rattle.ocl_check.specs.Answers.{IsAnswered, IsFlushedBy, IsUnread, KeepsSink, ReadBy, fails_read, fails_write};
ghost use Rattle.ocl_check.specs.Bound.{bound_line_of, bound_lines, bounds_answer, bound_answer};
ghost use Rattle.ocl_check.specs.Ending.{IsEnding};
ghost use Rattle.ocl_check.specs.Given.{given_answer, pair_answer};
ghost use Rattle.ocl_check.specs.Reply.{said};
ghost use Rattle.ocl_check.specs.Sources.{ReadsInOrder, none, ◌then◌, used};

use crate::outcome::{CommandFault, Outcome, answer, stop};
use crate::reply::Reply;
use crate::source::Source;
use crate::three_inputs::read_inputs;
use crate::watch::{Unwatched, Watch};
use imkl_population::{Population, Sizes};
use ocl_base::OutOfMemory;
use ocl_pipeline::{CodeAsker, OfCode, Place, Stopped, ask_inputs};
use rule_cost::{Bound, bound};
use rule_report::Sink;
use rule_verify::Accepted;
use std::alloc::{AllocError, Global};
use std::fmt::Write;

/// Puts the line of a rule.
fn put_bound_line(out: &mut String, name: &str, bound: Bound) -> Result<(), AllocError>
    ensures { OnOk result (string_bytes out.new ≡ string_bytes out.old ++
        bound_line_of name.now bound) }
{
    match bound {
        Bound::Steps(charges) => writeln!(out, "bound {name} {charges}"),
        Bound::Over => writeln!(out, "bound {name} over"),
    }
}

/// The reply with the bound of each rule, in populations of these sizes.
fn bounds_reply(
    alloc: Global,
    sizes: &Sizes<'_>,
    accepted: &Accepted<'_>,
) -> Result<Reply, OutOfMemory>
    requires { sizes.now.model ≡ accepted.now.model }
    ensures { IfOk result (λ r. said r ≡ (bound_lines accepted.now.unit sizes.now, 0)) }
{
    let mut text = String::new(alloc);
    for rule in 0..accepted.rules() {
        let Ok(bound) = bound(alloc, accepted, rule, sizes) else {
            return Err(OutOfMemory);
        };
        put_bound_line(&mut text, accepted.rule_name(rule), bound)?;
    }
    Ok(Reply { text, status: 0 })
}

/// Asks for the bounds of all rules.
#[derive(Clone, Copy)]
struct Bounds<'a, V> {
    /// Who watches.
    watch: &'a V,
}

impl<S: Sink, V: Watch> CodeAsker<S> for Bounds<'_, V> {
    type Output = Outcome;

    ghost can_ask = { λ s. S.has_failed s ≡ false };

    ghost answers = { λ _ given old o new. IsEnding S.contents S.has_failed S.flushes S.has_pending
        true (given_answer (pair_answer bounds_answer) given) old o new };

    fn ask(
        &self,
        alloc: Global,
        population: &Population<'_>,
        accepted: &Accepted<'_>,
        sink: &mut S,
    ) -> Outcome {
        match population.sizes(alloc) {
            Ok(sizes) => answer(sink, bounds_reply(alloc, &sizes, accepted)),
            Err(_failed) => Outcome::Failed(CommandFault::OutOfMemory),
        }
    }

    fn stop(&self, alloc: Global, place: Place<'_>, why: Stopped, sink: &mut S) -> Outcome {
        stop(alloc, self.watch, place, why, sink)
    }
}

/// Answers with the bounds of the rules of a code file, as `run_bound` does of inputs that it has read.
pub fn bound_inputs<S: Sink, V: Watch>(
    alloc: Global,
    watch: &V,
    model: &[u8],
    delivery: &[u8],
    code: &[u8],
    sink: &mut S,
) -> Outcome
    requires { S.has_failed sink.old ≡ false }
    ensures { IsEnding S.contents S.has_failed S.flushes S.has_pending true
        (bound_answer model.now delivery.now code.now) sink.old result sink.new }
{
    let asker = OfCode {
        asker: &Bounds { watch },
        code,
    };
    ask_inputs(alloc, &asker, model, delivery, sink)
}

/// Bounds the rules of a code file: reads the class model, the delivery and the code file, each
/// whole, and then writes for each rule how much it is charged at most for an object, or that this
/// bound is 2^63 or more; or one line on the first of the inputs that is refused. An input is
/// untouched until the one before it has ended. Status 0 with the bounds, 2 with a refusal; it fails
/// as `run_judge` does, but where memory runs out the sink is as it was.
pub fn run_bound<M: Source, D: Source, C: Source, S: Sink>(
    alloc: Global,
    model: &mut M,
    delivery: &mut D,
    code: &mut C,
    sink: &mut S,
) -> Outcome
    requires model { IsUnread (M.has_failed model.old) (M.reads model.old) }
    requires delivery { IsUnread (D.has_failed delivery.old) (D.reads delivery.old) }
    requires code { IsUnread (C.has_failed code.old) (C.reads code.old) }
    requires sink { S.has_failed sink.old ≡ false }
    ensures answered { ReadBy result (M.remaining model.old) (λ xs.
        ReadBy result (D.remaining delivery.old) (λ ys. ReadBy result (C.remaining code.old) (λ zs.
        IsAnswered (bound_answer xs ys zs) (S.contents sink.old) (S.contents sink.new) result))) }
    ensures sink { S.has_failed sink.new ≡ fails_write result }
    ensures flushed { IsFlushedBy S.flushes S.has_pending result sink.old sink.new }
    ensures kept { KeepsSink result sink.old sink.new }
    ensures read { ReadsInOrder (none then used M.remaining M.has_failed M.reads model.old model.new
        then used D.remaining D.has_failed D.reads delivery.old delivery.new
        then used C.remaining C.has_failed C.reads code.old code.new) (fails_read result) }
{
    match read_inputs(alloc, model, delivery, code) {
        Ok(inputs) => bound_inputs(
            alloc,
            &Unwatched,
            &inputs.model,
            &inputs.delivery,
            &inputs.rules,
            sink,
        ),
        Err(fault) => Outcome::Failed(CommandFault::from(fault)),
    }
}
