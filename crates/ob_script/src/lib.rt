//! Scripts line by line: what each line asks, and the trace of what came of it.
#![tactic(auto)]

mod reading;
mod script_fault;
mod tracing;

pub use reading::cursor::Cursor;
pub use reading::fault::LineFault;
pub use reading::faulty_line::FaultyLine;
pub use reading::first_word::FirstWord;
pub use reading::grammar::Grammar;
pub use reading::line::read_line;
pub use reading::lines::{first_word, index_or_len};
pub use reading::range::{ANY_32, ANY_64, BIT_INDEX, BLOCK_BYTES, FLAG, MARK, Range};
pub use reading::script::read_script;
pub use script_fault::ScriptFault;
pub use tracing::interpret::interpret;
pub use tracing::interpreter::Interpreter;
pub use tracing::text::{push_change, push_number, push_number_line, push_words};
pub use tracing::write::write_text;
