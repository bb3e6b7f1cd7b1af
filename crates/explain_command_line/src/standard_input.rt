//! Whether standard input is named for more than one input.

use crate::command_line::{Asked, CommandLine};
use ocl_programs::{Request, STANDARD_INPUT};

/// Whether a request names standard input for an input beside which there may be more rule texts.
fn takes_standard_input(request: &Request<'_>) -> bool {
    match request {
        Request::Judge(files, _) => {
            [files.model, files.delivery, files.rules].contains(&STANDARD_INPUT)
        }
        Request::Compile(files) => [files.model, files.rules].contains(&STANDARD_INPUT),
        Request::Bound(_) | Request::Verify(_) | Request::Desk(_) => false,
    }
}

/// Whether a request, with more rule texts beside it, names standard input for more than one input.
fn request_shares(request: &Request<'_>, also: &[&str]) -> bool {
    let more = also.iter().filter(|path| **path == STANDARD_INPUT).count();
    match more {
        0 => request.shares_standard_input(),
        1 => takes_standard_input(request),
        _ => true,
    }
}

impl CommandLine<'_> {
    /// Whether standard input is named for more than one input, of which only the first would have any bytes.
    pub fn shares_standard_input(&self) -> bool {
        match self.asked {
            Asked::Answer(request, _) => request_shares(&request, &self.texts.also),
            Asked::Eval(words) => words.shares_standard_input(),
            Asked::Examples(words) => {
                words.model == STANDARD_INPUT && words.rules == STANDARD_INPUT
            }
            Asked::List(files) => {
                files.code == STANDARD_INPUT && files.model == Some(STANDARD_INPUT)
            }
            Asked::Schema(_) | Asked::Summary(_) => false,
            Asked::Show(words) => words.code == STANDARD_INPUT && words.model == STANDARD_INPUT,
            Asked::Test(words) => words.model == STANDARD_INPUT && words.rules == STANDARD_INPUT,
            Asked::Why(words) => Request::Bound(words.files).shares_standard_input(),
        }
    }
}
