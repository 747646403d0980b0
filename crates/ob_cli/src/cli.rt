//! What the words of the command line ask for, and how the program ends.

pub mod command_line;
pub mod entry;
pub mod fault;
pub mod help;
pub mod options;
pub mod request;
pub mod subcommands;
pub mod words;
