//! The subcommand `run`: commands to one buffer, whose calls are recorded.

ghost use Rattle.ob_script.specs.Tracing.{Interprets};
ghost use Rattle.ob_cli.specs.Run.{first_history, run_language};

pub mod blocks;
pub mod line;
pub mod session;
pub mod text;
pub mod words;

use crate::cli::options::Options;
use crate::run::session::RunSession;
use ob_script::{ScriptFault, interpret};
use std::alloc::Global;
use std::io::{Read, Write};

/// Reads a script to its end, carries out its lines on an empty buffer whose calls are recorded, and writes a line of
/// trace for each. A command that finds as many records as the limit of the options is refused, and traced as refused.
/// The first faulty line ends the script; the lines before it are carried out and traced.
///
/// `Line` comes if a line is faulty, `Read` if the reader fails or 33554432 reads do not bring the script to its
/// end, `TooLong` if it has more than 16777216 bytes, `Write` if the writer fails, and `NoMemory` if the
/// allocator refuses.
pub fn run<R: Read, W: Write>(
    alloc: Global,
    reader: &mut R,
    writer: &mut W,
    options: Options,
) -> Result<(), ScriptFault>
    ensures { Interprets (run_language (first_history options)) (R.remaining reader.old) (R.remaining reader.new)
        (W.contents writer.old) (W.contents writer.new) result }
{
    interpret(alloc, reader, writer, RunSession::new(alloc, options))
}
