//! The rules of a code file as OCL, over files.

use crate::files::{read_file, report_write};
use crate::requests::end;
use explain_command_line::ShowWords;
use explain_notes::Input;
use ocl_check::{CommandFault, Outcome, Telling};
use ocl_explain::{WithLastError, show_code};
use std::io;

/// Shows the rules of a code file that was read.
fn show_inputs(rt: &HostRuntime, model: Input<'_>, code: Input<'_>) -> Outcome {
    let mut sink = Telling::new(WithLastError::new(io::writer(rt)));
    let ending = show_code(rt.alloc(), model, code, &mut sink);
    report_write(rt, "standard output", sink.into_inner().error());
    end(rt, ending)
}

fn show_files(rt: &HostRuntime, words: ShowWords<'_>) -> Result<Outcome, CommandFault> {
    let model = read_file(rt, words.model)?;
    let code = read_file(rt, words.code)?;
    Ok(show_inputs(rt, model.input(), code.input()))
}

/// Shows the rules of a code file.
pub fn show_rules(rt: &HostRuntime, words: ShowWords<'_>) -> Outcome {
    match show_files(rt, words) {
        Ok(outcome) => outcome,
        Err(fault) => Outcome::Failed(fault),
    }
}
