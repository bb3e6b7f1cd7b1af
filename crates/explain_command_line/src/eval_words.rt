//! The words of `eval`.

use clap::{Arg, ArgMatches, Command};
use ocl_programs::{STANDARD_INPUT, word};
use std::alloc::{AllocError, Global};

/// The end of the help of `eval`.
const EVAL: &str = "\
Prints the value of an OCL expression in a delivery, and its type. `self` is the object of the id ID,
and without ID it is invalid. Without EXPR each line of standard input is an expression: one that is
refused is explained, with a mark under the place, and the next is read. A line `:self ID` chooses
`self`. Of a collection the first ten elements are printed, and how many more there are. For instance
  ocl_explain eval examples/catalogue.json examples/network.json 'KabelOfLeiding.allInstances()->size()'

Status 0: printed. 2: an input or EXPR is refused, or there is no such object. 3: memory, a read or a
write failed.";

/// The words of `eval`.
#[derive(Clone, Copy, Drop)]
pub struct EvalWords<'a> {
    /// The path of the class model.
    pub model: &'a str,
    /// The path of the delivery.
    pub delivery: &'a str,
    /// The expression, if there is one.
    pub expression: Option<&'a str>,
    /// The id of the object that is `self`, if there is one.
    pub id: Option<&'a str>,
}

impl EvalWords<'_> {
    /// Whether standard input is named for more than one input; without an expression it has the expressions.
    pub(crate) fn shares_standard_input(&self) -> bool {
        let (model, delivery) = (
            self.model == STANDARD_INPUT,
            self.delivery == STANDARD_INPUT,
        );
        (model && delivery) || ((model || delivery) && self.expression.is_none())
    }
}

/// The command.
pub(crate) fn eval<'a>(alloc: Global) -> Result<Command<'a>, AllocError> {
    Command::new(alloc, "eval")
        .about("Evaluates an expression in a delivery")
        .after_help(EVAL)
        .arg(
            Arg::new(alloc, "MODEL")
                .required(true)
                .help("The class model, a JSON file"),
        )?
        .arg(
            Arg::new(alloc, "DELIVERY")
                .required(true)
                .help("The delivery, a JSON file"),
        )?
        .arg(
            Arg::new(alloc, "EXPR")
                .allow_hyphen_values(true)
                .help("The expression; without it, each line of standard input"),
        )?
        .arg(
            Arg::new(alloc, "ID")
                .allow_hyphen_values(true)
                .help("The id of the object that is `self`"),
        )
}

/// What the matches of `eval` ask.
pub(crate) fn eval_words<'a>(matches: &ArgMatches<'a>) -> EvalWords<'a> {
    EvalWords {
        model: word(Some(matches), "MODEL"),
        delivery: word(Some(matches), "DELIVERY"),
        expression: matches.get_str("EXPR"),
        id: matches.get_str("ID"),
    }
}
