use crate::cli::request::Kind;
use crate::cli::words::{NO_MEMORY, write_list, write_words};
use crate::request_fault::RequestFault;
use clap::error::ErrorKind;
use std::alloc::AllocError;
use std::io::{self, Write};
use thiserror::Error;

/// A low mark that is above the high one, in bytes.
#[derive(Clone, Copy, Debug)]
pub struct CrossedMarks {
    pub low: u32,
    pub high: u32,
}

/// Why the program did not do all that it was asked.
#[derive(Debug, Drop, Error)]
pub enum EntryFault {
    /// The words of the command line are refused, or ask for help or the version.
    #[error(transparent)]
    CommandLine(clap::Error),
    /// The words of the command line name no subcommand.
    #[error("no subcommand")]
    NoSubcommand,
    /// The words of the command line ask for the list of the faults.
    #[error("the faults and what they say")]
    ListAsked,
    /// The low mark is above the high mark.
    #[error("bad marks")]
    BadMarks(CrossedMarks),
    /// There was no memory for the words of the command line.
    #[error("no memory")]
    NoMemory,
    /// What was asked for ended before the end of its script.
    #[error("{fault}")]
    Run { kind: Kind, fault: RequestFault },
}

impl EntryFault {
    ghost use Rattle.std.specs.Prelude.{◌≡◌};
    ghost use Rattle.ob_cli.specs.Request.{exit_status_of};

    /// The status with which the program ends.
    pub(crate) fn status(&self) -> u8
        ensures { result ≡ exit_status_of self.now }
    {
        match self {
            EntryFault::CommandLine(_)
            | EntryFault::NoSubcommand
            | EntryFault::ListAsked
            | EntryFault::BadMarks(_) => 1,
            EntryFault::NoMemory => 4,
            EntryFault::Run { fault, .. } => fault.status(),
        }
    }

    /// Tells the fault in its text and one byte 10.
    pub(crate) fn write<E: Write>(&self, errors: &mut E) -> io::Result<()> {
        match self {
            EntryFault::CommandLine(error) => write!(errors, "{error}"),
            EntryFault::ListAsked => write_list(errors),
            EntryFault::NoSubcommand
            | EntryFault::BadMarks(_)
            | EntryFault::NoMemory
            | EntryFault::Run { .. } => writeln!(errors, "{self}"),
        }
    }

    /// Tells in one line of words what is wrong and what to do, if the text of the fault does not.
    pub(crate) fn write_words<E: Write>(&self, errors: &mut E) -> io::Result<()> {
        match self {
            EntryFault::CommandLine(_) | EntryFault::NoSubcommand | EntryFault::ListAsked => Ok(()),
            EntryFault::BadMarks(marks) => {
                writeln!(errors, "--low {} is above --high {}", marks.low, marks.high)
            }
            EntryFault::NoMemory => writeln!(errors, "{NO_MEMORY}"),
            EntryFault::Run { kind, fault } => write_words(errors, *kind, fault),
        }
    }
}

impl From<AllocError> for EntryFault {
    ghost use Rattle.std.specs.Prelude.{◌≡◌};
    ghost use Rattle.ob_cli.specs.Request.{exit_status_of};

    ghost from_gives = { λ _ fault. exit_status_of fault ≡ 4 };

    fn from(_error: AllocError) -> EntryFault {
        EntryFault::NoMemory
    }
}

impl From<clap::Error> for EntryFault {
    ghost use Rattle.std.specs.Prelude.{◌≡◌, ◌⊎◌};
    ghost use Rattle.ob_cli.specs.Request.{exit_status_of};

    ghost from_gives = { λ _ fault. (exit_status_of fault ≡ 1) ⊎ (exit_status_of fault ≡ 4) };

    fn from(error: clap::Error) -> EntryFault {
        if error.kind() == ErrorKind::OutOfMemory {
            EntryFault::NoMemory
        } else {
            EntryFault::CommandLine(error)
        }
    }
}
