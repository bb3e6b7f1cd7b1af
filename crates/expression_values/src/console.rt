//! A console: expressions line by line, in the population of a delivery that is loaded once.

ghost use Rattle.std.specs.Prelude.{⊤};

use crate::eval_words::{Unvalued, no_object, refused, unloaded};
use crate::evals::{Valued, value_for};
use explain_notes::Input;
use imkl_population::Population;
use ocl_check::CommandFault;
use ocl_pipeline::{Place, PopulationAsker, Stopped, ask_inputs};
use report_forms::object_named;
use std::alloc::{AllocError, Global};

/// Where the lines of a console come from, and where the answers go.
pub trait Terminal {
    /// The next line, without its end; none at the end of the input.
    fn next_line(&mut self, alloc: Global) -> Result<Option<Vec<u8>>, CommandFault>;

    /// Shows a line with a value.
    fn show(&mut self, line: &str) -> Result<(), CommandFault>;

    /// Says why there is no value.
    fn complain(&mut self, words: &str);
}

/// What a console works on.
#[derive(Clone, Copy, Drop)]
pub struct ConsoleAsked<'a> {
    /// The class model.
    pub model: Input<'a>,
    /// The delivery.
    pub delivery: Input<'a>,
}

/// The path of an expression in words.
pub const EXPRESSION: &str = "expression";

/// What a line asks for.
#[derive(Clone, Copy, Drop)]
enum Command<'l> {
    /// Nothing.
    Nothing,
    /// That the object of this id is `self`.
    TakeSelf(&'l [u8]),
    /// The value of an expression.
    Evaluate(&'l [u8]),
}

/// What a line asks for.
fn command_of(line: &[u8]) -> Command<'_> {
    let text = line.trim_ascii();
    if text.is_empty() {
        return Command::Nothing;
    }
    match text.strip_prefix(b":self ") {
        Some(id) => Command::TakeSelf(id.trim_ascii()),
        None => Command::Evaluate(line),
    }
}

/// The line that is printed of a value.
pub fn value_line(alloc: Global, valued: &Valued) -> Result<String, AllocError> {
    let (text, type_name) = (valued.text.as_str(), valued.type_name.as_str());
    format!(in alloc; "{text} : {type_name}\n")
}

/// The value of an expression, of which `self` is the object of an id, if there is one.
fn value_at(
    alloc: Global,
    population: &Population<'_>,
    id: &Option<Vec<u8>>,
    bytes: &[u8],
) -> Result<Valued, Unvalued> {
    let object = match id {
        Some(id) => object_named(population, 0, id),
        None => None,
    };
    value_for(alloc, population, object, EXPRESSION, bytes)
}

/// Shows the value of an expression, or says why it has none.
fn answer<T: Terminal>(
    alloc: Global,
    terminal: &mut T,
    value: Result<Valued, Unvalued>,
) -> Result<(), Unvalued> {
    match value {
        Ok(valued) => {
            let line = value_line(alloc, &valued)?;
            match terminal.show(line.as_str()) {
                Ok(()) => Ok(()),
                Err(fault) => Err(Unvalued::Failed(fault)),
            }
        }
        Err(Unvalued::Refused(words)) => {
            terminal.complain(words.as_str());
            Ok(())
        }
        Err(Unvalued::Failed(fault)) => Err(Unvalued::Failed(fault)),
    }
}

/// Takes the object of an id as `self`, if there is one.
fn take_self<T: Terminal>(
    alloc: Global,
    terminal: &mut T,
    population: &Population<'_>,
    path: &str,
    id: &[u8],
) -> Result<Option<Vec<u8>>, Unvalued> {
    if object_named(population, 0, id).is_some() {
        return Ok(Some(Vec::from_slice(alloc, id)?));
    }
    let words = no_object(alloc, path, str::from_utf8(id).unwrap_or(""));
    answer(alloc, terminal, Err(refused(words)))?;
    Ok(None)
}

/// Answers line by line.
fn run<T: Terminal>(
    alloc: Global,
    terminal: &mut T,
    population: &Population<'_>,
    path: &str,
) -> Result<(), Unvalued> {
    let mut this = None;
    for _ in 0..u64::MAX {
        let line = match terminal.next_line(alloc) {
            Ok(Some(line)) => line,
            Ok(None) => return Ok(()),
            Err(fault) => return Err(Unvalued::Failed(fault)),
        };
        match command_of(&line) {
            Command::Nothing => (),
            Command::TakeSelf(id) => {
                if let Some(id) = take_self(alloc, terminal, population, path, id)? {
                    this = Some(id);
                }
            }
            Command::Evaluate(text) => {
                let value = value_at(alloc, population, &this, text);
                answer(alloc, terminal, value)?;
            }
        }
    }
    Ok(())
}

/// Answers the lines of a console.
#[derive(Clone, Copy)]
struct Console<'a> {
    asked: ConsoleAsked<'a>,
}

impl<T: Terminal> PopulationAsker<T> for Console<'_> {
    type Output = Result<(), Unvalued>;

    ghost can_ask = { λ t. ⊤ };

    ghost answers = { λ c given old o new. ⊤ };

    fn ask(
        &self,
        alloc: Global,
        population: &Population<'_>,
        terminal: &mut T,
    ) -> Result<(), Unvalued> {
        run(alloc, terminal, population, self.asked.delivery.path)
    }

    fn stop(
        &self,
        alloc: Global,
        place: Place<'_>,
        why: Stopped,
        _terminal: &mut T,
    ) -> Result<(), Unvalued> {
        Err(unloaded(alloc, self.asked.model, self.asked.delivery, place, &why))
    }
}

/// Evaluates expressions line by line until the input ends. A line `:self ID` takes the object of that id as `self`; before,
/// there is none. A refusal is said, and the console goes on.
pub fn run_console<T: Terminal>(
    alloc: Global,
    asked: ConsoleAsked<'_>,
    terminal: &mut T,
) -> Result<(), Unvalued> {
    let asker = Console { asked };
    let (model, delivery) = (asked.model.bytes, asked.delivery.bytes);
    ask_inputs(alloc, &asker, model, delivery, terminal)
}
