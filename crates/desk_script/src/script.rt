//! A script, read line by line.

ghost use Rattle.std.specs.Prelude.{◌≡◌, ◌<◌, ◌∷◌, [], length, Ok, Err, IsOk};
ghost use Rattle.ocl_base.specs.Steps.{Gives};
ghost use Rattle.desk_script.specs.Script.{lines_of, script_of, script_fault};

use crate::call::Call;
use crate::fault::ScriptFault;
use crate::line::{cut_at, written_call};
use std::alloc::Global;

/// The first line of a text that isn't empty, and the lines below it.
fn first_line(text: &[u8]) -> (&[u8], &[u8])
    requires { 0 < length text.now }
    ensures lines { lines_of text.now ≡ result.0.now ∷ lines_of result.1.now }
    ensures shorter { length result.1.now < length text.now }
{
    let (line, below) = cut_at(b'\n', text);
    match below {
        Some(below) => (line, below),
        None => (line, &[]),
    }
}

/// The calls of a script, one in each line; the last newline may be missing. Or the first line that is no call. It takes no
/// memory for a script without lines, nor to refuse the first line.
pub fn read_script(alloc: Global, text: &[u8]) -> Result<Vec<Call>, ScriptFault>
    ensures gives { Gives script_fault (λ v. v.items) result (script_of text.now) }
    ensures empty { script_of text.now ≡ Ok [] → IsOk result }
    ensures first { script_of text.now ≡ Err 1 → result ≡ Err (ScriptFault.At 1) }
{
    let mut calls = Vec::new(alloc);
    let mut rest = text;
    'lines: while !rest.is_empty() {
        let (line, below) = first_line(rest);
        let Some(call) = written_call(line) else {
            return Err(ScriptFault::At {
                line: calls.len() + 1,
            });
        };
        if calls.push(call).is_err() {
            return Err(ScriptFault::OutOfMemory);
        }
        rest = below;
    }
    Ok(calls)
}
