//! What the program `ob_tool` does, as a library: it reads the words, runs the script, and writes the trace or the report.
//! The program has `main` alone, so this can be proved, and tested, apart from it.
#![tactic(auto)]

mod cli;
mod drive;
mod request_fault;
mod run;
mod turns;

pub use cli::entry::entry;
