//! The words of `schema`.

use clap::{Arg, Command};
use std::alloc::{AllocError, Global};

/// The end of the help of `schema`.
const SCHEMA: &str = "\
Prints the JSON Schema (2020-12) of the deliveries of a class model, for editors and for programs that
make deliveries. Each delivery that is judged validates. For instance
  ocl_explain schema examples/catalogue.json
docs/use/schema.md has what a schema can't say.

Status 0: printed. 2: the class model is refused. 3: memory, a read or a write failed.";

/// The command.
pub(crate) fn schema<'a>(alloc: Global) -> Result<Command<'a>, AllocError> {
    Command::new(alloc, "schema")
        .about("Prints the JSON Schema of deliveries")
        .after_help(SCHEMA)
        .arg(
            Arg::new(alloc, "MODEL")
                .required(true)
                .help("The class model, a JSON file"),
        )
}
