//! The program `bench_json`: makes the tree of a JSON file, as reading a delivery does, and drops it. What that takes
//! is the least that judging the file takes.
#![tactic(auto)]

ghost use Rattle.std.specs.Prelude.{◌≡◌, true, IsUtf8, Some};
ghost use Rattle.serde_json.specs.Data.{Data};
ghost use Rattle.serde_json.specs.Read.{read};

use serde_json::Value;
use std::alloc::Global;
use std::process::ExitCode;
use std::{env, fs};

/// Whether bytes have a JSON tree, which is made and dropped; not where memory runs out.
fn has_tree(alloc: Global, bytes: &[u8]) -> bool
    ensures { result ≡ true → (d : Data) × IsUtf8 bytes.now × (read bytes.now ≡ Some d) }
{
    match Value::from_slice(alloc, bytes) {
        Ok(_) => true,
        Err(_) => false,
    }
}

/// Whether the file of this path could be read, and has a JSON tree.
fn file_has_tree(rt: &HostRuntime, path: &str) -> bool {
    match fs::read(rt, path) {
        Ok(bytes) => has_tree(rt.alloc(), &bytes),
        Err(_) => false,
    }
}

/// Reads the file that the last argument names: status 0 if it has a JSON tree, else 1.
fn main(rt: HostRuntime) -> ExitCode {
    let Ok(args) = env::args(&rt) else {
        return ExitCode::from(1);
    };
    let Ok(words) = args.collect::<Vec<String>>(rt.alloc()) else {
        return ExitCode::from(1);
    };
    match words.last() {
        Some(path) if file_has_tree(&rt, path.as_str()) => ExitCode::from(0),
        _ => ExitCode::from(1),
    }
}
