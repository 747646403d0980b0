use crate::reading::fault::LineFault;
use crate::reading::faulty_line::FaultyLine;
use std::alloc::AllocError;
use thiserror::Error;

/// Why a run ended before the end of its script.
#[derive(Debug, Drop, Error)]
pub enum ScriptFault {
    /// A line is faulty. The lines before it were carried out, and their trace was written, or what is told of them.
    #[error("line {}: fault {}{}", .line.number(), .fault.number(), .fault.words())]
    Line {
        /// The line, with its number.
        line: FaultyLine,
        /// What is wrong with it.
        fault: LineFault,
    },
    /// The reader failed, or 33554432 reads did not bring the script to its end. Nothing was written.
    #[error("read fault")]
    Read,
    /// The script has more than 16777216 bytes. Nothing was written.
    #[error("script too long")]
    TooLong,
    /// The writer failed. It is not known how much it took.
    #[error("write fault")]
    Write,
    /// The allocator refused memory. At most the trace of some first lines was written.
    #[error("no memory")]
    NoMemory,
}

impl From<AllocError> for ScriptFault {
    ghost use Rattle.std.specs.Prelude.{◌≡◌};
    ghost use Rattle.ob_script.specs.declared.script_fault.ScriptFault.TheVariants.{NoMemory};

    ghost from_gives = { λ _ fault. fault ≡ NoMemory };

    fn from(_error: AllocError) -> ScriptFault {
        ScriptFault::NoMemory
    }
}
