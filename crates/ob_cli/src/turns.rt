//! The subcommand `core`: the turns of lanes. A module of its name would hide the library `core`.

ghost use Rattle.ob_cli.specs.Turns.{core_language};
ghost use Rattle.ob_script.specs.Tracing.{Interprets};

pub mod line;
pub mod session;
pub mod text;
pub mod words;

use crate::turns::session::CoreSession;
use ob_script::{ScriptFault, interpret};
use ob_types::WaterMark;
use std::alloc::Global;
use std::io::{Read, Write};

/// Reads a core script to its end, gives the turns of its lines to a world with its lanes, and writes a line of trace
/// for each line and a last one. The first faulty line ends the script; the lines before it are carried out and traced.
///
/// `Line` comes if a line is faulty, `Read` if the reader fails or 33554432 reads do not bring the script to its
/// end, `TooLong` if it has more than 16777216 bytes, `Write` if the writer fails, and `NoMemory` if the
/// allocator refuses.
pub fn core<R: Read, W: Write>(
    alloc: Global,
    reader: &mut R,
    writer: &mut W,
    marks: WaterMark,
) -> Result<(), ScriptFault>
    ensures { Interprets (core_language marks) (R.remaining reader.old) (R.remaining reader.new)
        (W.contents writer.old) (W.contents writer.new) result }
{
    interpret(alloc, reader, writer, CoreSession::new(alloc, marks))
}
