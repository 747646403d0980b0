//! The subcommands of the program and their options, as `clap` is told of them.

use crate::cli::help::Help;
use clap::builder::ValueParser;
use clap::{Arg, ArgAction, Command, value_parser};
use std::alloc::{AllocError, Global};

/// What `--version` tells.
const VERSION: &str = "0.1.0";

/// The greatest mark, in bytes.
const MAX_MARK: i64 = 2147483647;

/// The most records of a history, which is also its limit if none is given.
pub const MAX_RECORDS: u32 = 1048576;

/// A subcommand. Its help ends with `help`.
struct Subcommand {
    name: &'static str,
    about: &'static str,
    /// How it is called, which a refused command line shows too.
    usage: &'static str,
    help: Help,
    options: &'static [ProgramOption],
}

/// An option of a subcommand.
struct ProgramOption {
    name: &'static str,
    kind: OptionKind,
    help: &'static str,
}

/// What an option is given.
enum OptionKind {
    /// A mark, in bytes.
    Mark,
    /// A size, in bytes, up to 65535.
    Size,
    /// How many records, 1 to 1048576.
    Records,
    /// Nothing.
    Flag,
}

static SUBCOMMANDS: [Subcommand; 6] = [
    Subcommand {
        name: "run",
        about: "Reads a script from standard input, and writes one line for each of its lines to standard output",
        usage: "ob_tool run [OPTIONS] < FILE",
        help: Help::Run,
        options: &[LOW, HIGH, OVERHEAD, UNKNOWN, LIMIT, VERBOSE],
    },
    Subcommand {
        name: "core",
        about: "Reads a script of lanes and turns from standard input, and writes one line for each to standard output",
        usage: "ob_tool core [OPTIONS] < FILE",
        help: Help::Core,
        options: &[LOW, HIGH, VERBOSE],
    },
    Subcommand {
        name: "drive",
        about: "Reads a script of writers from standard input, runs them in threads, and counts what came of it",
        usage: "ob_tool drive [OPTIONS] < FILE",
        help: Help::Drive,
        options: &[
            LOW,
            HIGH,
            OVERHEAD,
            UNKNOWN,
            LIMIT,
            TASK,
            HEED,
            VERBOSE_DRIVE,
        ],
    },
    Subcommand {
        name: "summary",
        about: "Reads a trace of run or of core from standard input, and counts what it shows",
        usage: "ob_tool summary [OPTIONS] < TRACE",
        help: Help::Summary,
        options: &[VERBOSE],
    },
    Subcommand {
        name: "draw",
        about: "Reads a trace of run or of core from standard input, and draws it as a picture, an SVG",
        usage: "ob_tool draw [OPTIONS] < TRACE > PICTURE.svg",
        help: Help::Draw,
        options: &[LOW, HIGH, VERBOSE],
    },
    Subcommand {
        name: "faults",
        about: "Lists the faults of all subcommands by number, and what each says in words",
        usage: "ob_tool faults",
        help: Help::Faults,
        options: &[],
    },
];

/// An option of this name and kind, with its help.
macro_rules! option {
    ($name:literal, $kind:ident, $help:literal) => {
        ProgramOption {
            name: $name,
            kind: OptionKind::$kind,
            help: $help,
        }
    };
}

const LOW: ProgramOption = option!(
    "low",
    Mark,
    "Writers may go on once fewer bytes than this are pending: 0 to 2147483647, 32768 if not given"
);

const HIGH: ProgramOption = option!(
    "high",
    Mark,
    "Writers should stop once more bytes than this are pending: 0 to 2147483647, 65536 if not given"
);

const OVERHEAD: ProgramOption = option!(
    "overhead",
    Size,
    "Bytes that each message counts beside its own: 0 to 65535, 96 if not given"
);

const UNKNOWN: ProgramOption = option!(
    "unknown",
    Size,
    "Bytes that a message of unknown size counts: 0 to 65535, 8 if not given"
);

const LIMIT: ProgramOption = option!(
    "limit",
    Records,
    "Commands that are recorded; further ones are refused: 1 to 1048576, 1048576 if not given"
);

const TASK: ProgramOption = option!(
    "task",
    Size,
    "Bytes that a message counts beside its own while it is handed over: 0 to 65535, 32 if not given"
);

const HEED: ProgramOption = option!(
    "heed",
    Flag,
    "Each writer waits before it writes, while writers should stop and something may still be sent"
);

const VERBOSE: ProgramOption = option!(
    "verbose",
    Flag,
    "Tells on standard error what a fault means, in a line of words after it"
);

const VERBOSE_DRIVE: ProgramOption = option!(
    "verbose",
    Flag,
    "Tells on standard error how long it took, what was pending, and what a fault means"
);

/// What the program takes.
pub fn command<'a>(alloc: Global) -> Result<Command<'a>, AllocError> {
    let mut subcommands = Vec::new(alloc);
    push_subcommands(alloc, &mut subcommands)?;
    Command::new(alloc, "ob_tool")
        .version(VERSION)
        .about(
            "Carries out scripts of commands on the outbound buffer of a channel, and shows what each command does",
        )
        .subcommand_required(true)
        .subcommands(subcommands)
}

/// Adds the subcommands of the program.
fn push_subcommands<'a>(
    alloc: Global,
    subcommands: &mut Vec<Command<'a>>,
) -> Result<(), AllocError> {
    for one in &SUBCOMMANDS {
        subcommands.push(one.command(alloc)?)?;
    }
    Ok(())
}

impl Subcommand {
    /// The subcommand for `clap`.
    fn command<'a>(&self, alloc: Global) -> Result<Command<'a>, AllocError> {
        let mut options = Vec::new(alloc);
        self.push_options(alloc, &mut options)?;
        Command::new(alloc, self.name)
            .about(self.about)
            .override_usage(self.usage)
            .after_help(self.help.text())
            .args(options)
    }

    /// Adds its options.
    fn push_options<'a>(
        &self,
        alloc: Global,
        options: &mut Vec<Arg<'a>>,
    ) -> Result<(), AllocError> {
        for one in self.options {
            options.push(one.arg(alloc))?;
        }
        Ok(())
    }
}

impl ProgramOption {
    /// The option for `clap`.
    fn arg<'a>(&self, alloc: Global) -> Arg<'a> {
        let arg = Arg::new(alloc, self.name).long(self.name).help(self.help);
        match self.kind.value() {
            Some((name, parser)) => arg
                .value_name(name)
                .value_parser(parser)
                .action(ArgAction::Set),
            None => arg.action(ArgAction::SetTrue),
        }
    }
}

impl OptionKind {
    /// How `--help` calls the number that is given, and which numbers that may be, if one is given.
    fn value<'a>(&self) -> Option<(&'static str, ValueParser<'a>)> {
        match self {
            OptionKind::Mark => Some(("BYTES", value_parser!(u32).range(0..=MAX_MARK))),
            OptionKind::Size => Some(("BYTES", value_parser!(u16))),
            OptionKind::Records => Some((
                "RECORDS",
                value_parser!(u32).range(1..=i64::from(MAX_RECORDS)),
            )),
            OptionKind::Flag => None,
        }
    }
}
