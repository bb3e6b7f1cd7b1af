//! `ocl_check` for programs in other languages: a static library, whose C header is `examples/languages/ocl_check.h`. Each
//! function takes bytes, calls the function of `ocl_check` for the same command, and writes its answer into the caller's buffer.
#![tactic(auto)]

mod buffer;
mod exports;
