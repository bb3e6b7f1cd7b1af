//! The version, and the ends of the commands' help texts: what they print, examples, statuses, and where the pages are.

/// The version of the programs, and the logic of the kit by which they are proved.
pub const VERSION: &str = "1.0.0 (Rattle logic dac8208d650f15bf)";

/// Of `judge`.
pub const JUDGE: &str = "\
For each rule prints a line for each object for which it fails or is undecided, then a line of its
own, and at the end a total. A refused input, or a rule above the budget, prints one line instead:
`refused WHAT NUMBER ..`.

Example: ocl_check judge --text model.json delivery.json rules.ocl

Status 0: every rule holds for each of its objects. 1: a rule fails or is undecided for an object.
2: an input, a rule's cost or the command line is refused. 3: memory, a read or a write failed.

docs/use/commands.md has every line, docs/use/language.md how rules are written.";

/// Of `compile`.
pub const COMPILE: &str = "\
Writes OUT and prints `compiled N`, N being the number of rules. A refused input prints one line
instead, and OUT is not touched: `refused WHAT NUMBER ..`.

Example: ocl_check compile model.json rules.ocl rules.code

Status 0: compiled. 2: an input or the command line is refused. 3: memory, a read or a write failed.

docs/use/commands.md has every line, docs/use/language.md how rules are written.";

/// Of `verify`.
pub const VERIFY: &str = "\
Prints `accepted N`, N being the number of rules. A refused input prints one line instead:
`refused WHAT NUMBER ..`.

Example: ocl_check verify model.json rules.code

Status 0: accepted. 2: an input or the command line is refused. 3: memory, a read or a write failed.

docs/use/commands.md has every line, docs/formats/machine.md what is accepted.";

/// Of `bound`.
pub const BOUND: &str = "\
Prints for each rule `bound NAME N`, or `bound NAME over` where N would be 2^63 or more. A refused
input prints one line instead: `refused WHAT NUMBER ..`.

Example: ocl_check bound model.json delivery.json rules.code

Status 0: printed. 2: an input or the command line is refused. 3: memory, a read or a write failed.

docs/use/commands.md has every line, docs/formats/machine.md how bounds are computed.";

/// Of `desk`.
pub const DESK: &str = "\
A job is the report on the delivery by the code, made step by step. In each line of SCRIPT a call:
  enter        a new job, number 0 first        job K
  grant K N    N charges for job K              paused K SPENT, or over K SPENT
  lines K      the lines of its report so far   these lines
  withdraw K   job K is given up                withdrawn K
A call that can't be answered gives `refused desk 1` (no such job) or `refused desk 2` (the job is
over), and the script goes on. A refused input, a script with a wrong line too, prints one line
instead: `refused WHAT NUMBER ..`.

Example: ocl_check desk model.json delivery.json rules.code calls.script

Status 0: the script was run. 2: an input, a rule's cost, the script or the command line is refused.
3: memory, a read or a write failed.

docs/use/desk.md has every line, docs/formats/machine.md what steps are charged.";
