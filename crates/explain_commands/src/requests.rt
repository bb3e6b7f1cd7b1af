//! The commands of `ocl_check` over files, each answer explained; listings and schemas.

use crate::compiling::compile;
use crate::files::{read_file, report_write};
use crate::judging::judge;
use crate::placing::{Places, placed};
use explain_command_line::{ListFiles, Printing, TextsAsked};
use explain_notes::Input;
use explain_refusals::{Ending, Listener, Words};
use ocl_check::{CommandFault, Outcome, Telling};
use ocl_explain::{
    WithLastError, answer_bound, answer_desk, answer_verify, list_code, print_schema,
};
use ocl_programs::{DeskFiles, Request, RuleFiles, VerifyFiles};
use std::io;

/// Says on standard error why an input was refused, or what is hardly meant.
pub(crate) fn say(rt: &HostRuntime, words: &Words) {
    let _ = match words {
        Ok(words) => rt.eprint(words.as_str()),
        Err(_) => rt.eprintln("memory ran out before it was explained"),
    };
}

/// Says words on rule texts, each place in the text that it is in.
fn say_placed(rt: &HostRuntime, places: Places<'_>, words: &Words) {
    if places.parts.is_empty() {
        return say(rt, words);
    }
    match words {
        Ok(text) => say(rt, &placed(rt.alloc(), places, text.as_str())),
        Err(_) => say(rt, words),
    }
}

/// Says at once what is heard.
#[derive(Clone, Copy)]
pub(crate) struct StandardError<'a> {
    /// The handle of standard error.
    pub(crate) rt: &'a HostRuntime,
    /// Where the rule texts are, if several were joined.
    pub(crate) places: Places<'a>,
}

impl Listener for StandardError<'_> {
    fn hear(&self, words: Words) {
        say_placed(self.rt, self.places, &words);
    }
}

/// Says what is said behind an answer, if that was written.
pub(crate) fn end(rt: &HostRuntime, ending: Ending) -> Outcome {
    if let Outcome::Status(_) = ending.outcome {
        say(rt, &ending.words);
    }
    ending.outcome
}

/// Says what is said behind an answer by rule texts, if that was written.
pub(crate) fn end_placed(rt: &HostRuntime, places: Places<'_>, ending: Ending) -> Outcome {
    if let Outcome::Status(_) = ending.outcome {
        say_placed(rt, places, &ending.words);
    }
    ending.outcome
}

fn bound_inputs<'i>(
    rt: &HostRuntime,
    model: Input<'i>,
    delivery: Input<'i>,
    code: Input<'i>,
) -> Outcome {
    let mut sink = Telling::new(WithLastError::new(io::writer(rt)));
    let ending = answer_bound(rt.alloc(), model, delivery, code, &mut sink);
    report_write(rt, "standard output", sink.into_inner().error());
    end(rt, ending)
}

fn bound(rt: &HostRuntime, files: RuleFiles<'_>) -> Result<Outcome, CommandFault> {
    let model = read_file(rt, files.model)?;
    let delivery = read_file(rt, files.delivery)?;
    let code = read_file(rt, files.rules)?;
    Ok(bound_inputs(rt, model.input(), delivery.input(), code.input()))
}

fn desk_inputs<'i>(
    rt: &HostRuntime,
    model: Input<'i>,
    delivery: Input<'i>,
    code: Input<'i>,
    script: Input<'i>,
) -> Outcome {
    let mut sink = Telling::new(WithLastError::new(io::writer(rt)));
    let ending = answer_desk(rt.alloc(), model, delivery, code, script, &mut sink);
    report_write(rt, "standard output", sink.into_inner().error());
    end(rt, ending)
}

fn desk(rt: &HostRuntime, files: DeskFiles<'_>) -> Result<Outcome, CommandFault> {
    let model = read_file(rt, files.rules.model)?;
    let delivery = read_file(rt, files.rules.delivery)?;
    let code = read_file(rt, files.rules.rules)?;
    let script = read_file(rt, files.script)?;
    Ok(desk_inputs(
        rt,
        model.input(),
        delivery.input(),
        code.input(),
        script.input(),
    ))
}

fn verify_inputs(rt: &HostRuntime, model: Input<'_>, code: Input<'_>) -> Outcome {
    let mut sink = Telling::new(WithLastError::new(io::writer(rt)));
    let ending = answer_verify(rt.alloc(), model, code, &mut sink);
    report_write(rt, "standard output", sink.into_inner().error());
    end(rt, ending)
}

fn verify(rt: &HostRuntime, files: VerifyFiles<'_>) -> Result<Outcome, CommandFault> {
    let model = read_file(rt, files.model)?;
    let code = read_file(rt, files.code)?;
    Ok(verify_inputs(rt, model.input(), code.input()))
}

/// Answers a command of `ocl_check` as it does, with a report in the form that is wanted, and explains a refusal on standard
/// error.
pub fn answer(
    rt: &HostRuntime,
    request: Request<'_>,
    printing: Printing<'_>,
    texts: &TextsAsked<'_>,
) -> Outcome {
    let answered = match request {
        Request::Judge(files, options) => judge(rt, files, options, printing, texts),
        Request::Compile(files) => compile(rt, files, texts),
        Request::Bound(files) => bound(rt, files),
        Request::Verify(files) => verify(rt, files),
        Request::Desk(files) => desk(rt, files),
    };
    match answered {
        Ok(outcome) => outcome,
        Err(fault) => Outcome::Failed(fault),
    }
}

/// Lists a code file that was read, with a class model if there is one, and says why something is refused, if it is.
fn list_inputs(rt: &HostRuntime, code: Input<'_>, model: Option<Input<'_>>) -> Outcome {
    let mut sink = Telling::new(WithLastError::new(io::writer(rt)));
    let ending = list_code(rt.alloc(), code, model, &mut sink);
    report_write(rt, "standard output", sink.into_inner().error());
    end(rt, ending)
}

fn list_files(rt: &HostRuntime, files: ListFiles<'_>) -> Result<Outcome, CommandFault> {
    let code = read_file(rt, files.code)?;
    match files.model {
        Some(path) => {
            let model = read_file(rt, path)?;
            Ok(list_inputs(rt, code.input(), Some(model.input())))
        }
        None => Ok(list_inputs(rt, code.input(), None)),
    }
}

/// Lists a code file.
pub fn list(rt: &HostRuntime, files: ListFiles<'_>) -> Outcome {
    match list_files(rt, files) {
        Ok(outcome) => outcome,
        Err(fault) => Outcome::Failed(fault),
    }
}

/// Prints the schema of a class model that was read.
fn schema_input(rt: &HostRuntime, model: Input<'_>) -> Outcome {
    let mut sink = Telling::new(WithLastError::new(io::writer(rt)));
    let ending = print_schema(rt.alloc(), model, &mut sink);
    report_write(rt, "standard output", sink.into_inner().error());
    end(rt, ending)
}

/// Prints the JSON Schema of a class model's deliveries.
pub fn schema(rt: &HostRuntime, path: &str) -> Outcome {
    match read_file(rt, path) {
        Ok(model) => schema_input(rt, model.input()),
        Err(fault) => Outcome::Failed(fault),
    }
}
