ghost use Rattle.std.specs.Prelude.{◌≡◌, ◌⊎◌, ◌<◌, ◌≤◌, None, IfSome, IfOk, IfErr};
ghost use Rattle.ob_history.specs.History.{most_records, new_history};
ghost use Rattle.ob_cli.specs.Request.{exit_status_of};
ghost use Rattle.ob_cli.specs.Run.{first_history};

use crate::cli::fault::{CrossedMarks, EntryFault};
use crate::cli::options::Options;
use crate::cli::request::Request;
use crate::cli::subcommands::{MAX_RECORDS, command};
use clap::ArgMatches;
use ob_types::{Estimate, WaterMark};
use std::alloc::Global;
use std::convert::AsStr;

/// The low mark if none is given, in bytes.
const LOW: u32 = 32768;

/// The high mark if none is given, in bytes.
const HIGH: u32 = 65536;

/// The bytes added for each message if no number is given.
const OVERHEAD: u16 = 96;

/// The bytes of a message of unknown size if no number is given.
const UNKNOWN: u16 = 8;

/// The bytes that a hand-off adds to a message if no number is given.
const TASK: u16 = 32;

/// What the program's words ask for: its name, a subcommand, and the options of that.
///
/// `CommandLine` comes if `clap` refuses the words, or is asked for help or the version, `NoSubcommand` if they name
/// none, `ListAsked` if they ask for the list of the faults, `BadMarks` if the low mark is above the high one, and
/// `NoMemory` if the allocator refuses.
pub fn request_of<'a, S: AsStr>(alloc: Global, words: &'a [S]) -> Result<Request, EntryFault>
    ensures { IfErr result (λ fault. (exit_status_of fault ≡ 1) ⊎ (exit_status_of fault ≡ 4)) }
{
    let matches = command(alloc)?.try_get_matches_from(words)?;
    request(&matches)
}

/// What the subcommand and its options ask for.
fn request(matches: &ArgMatches<'_>) -> Result<Request, EntryFault>
    ensures err { IfErr result (λ fault. exit_status_of fault ≡ 1) }
{
    let Some((name, given)) = matches.subcommand() else {
        return Err(EntryFault::NoSubcommand);
    };
    if name == "faults" {
        return Err(EntryFault::ListAsked);
    }
    match request_of_subcommand(name, given) {
        Ok(Some(request)) => Ok(request),
        // `clap` lets no other name through, but none of its clauses says so.
        Ok(None) => Err(EntryFault::NoSubcommand),
        Err(marks) => Err(EntryFault::BadMarks(marks)),
    }
}

/// What the options of this subcommand ask for, or nothing if no subcommand has the name. It is refused if the
/// low mark is above the high one.
fn request_of_subcommand(
    name: &str,
    given: &ArgMatches<'_>,
) -> Result<Option<Request>, CrossedMarks> {
    match name {
        "run" => Ok(Some(Request::Run(options_of(given, TASK)?))),
        "core" => Ok(Some(Request::Core(given_marks(given)?))),
        "drive" => {
            let task = given.get_one("task").unwrap_or(TASK);
            Ok(Some(Request::Drive(options_of(given, task)?)))
        }
        "summary" => Ok(Some(Request::Summary)),
        "draw" => Ok(Some(Request::Draw(given_marks(given)?))),
        _ => Ok(None),
    }
}

/// The options that were given to `run` or to `drive`, with what a hand-off adds. A run has no flag `heed`.
fn options_of(given: &ArgMatches<'_>, task: u16) -> Result<Options, CrossedMarks>
    ensures { IfOk result (λ options. options.task ≡ task) }
{
    let marks = given_marks(given)?;
    Ok(options(
        marks,
        given.get_one("overhead").unwrap_or(OVERHEAD),
        given.get_one("unknown").unwrap_or(UNKNOWN),
        limit_of(given.get_one("limit")),
        task,
        given.get_flag("heed"),
    ))
}

/// The marks that were given.
fn given_marks(given: &ArgMatches<'_>) -> Result<WaterMark, CrossedMarks> {
    let low = given.get_one("low").unwrap_or(LOW);
    let high = given.get_one("high").unwrap_or(HIGH);
    match WaterMark::new(low, high) {
        Ok(marks) => Ok(marks),
        Err(_) => Err(CrossedMarks { low, high }),
    }
}

/// The limit that was given. `clap` has refused the numbers past the bounds, which no clause of it says, so the
/// bounds here change no number.
fn limit_of(given: Option<u32>) -> u32
    ensures some_record { 0 < result }
    ensures few_records { result ≤ most_records }
    ensures given { IfSome given (λ limit. 0 < limit → limit ≤ most_records → result ≡ limit) }
    ensures none { given ≡ None → result ≡ most_records }
{
    given.unwrap_or(MAX_RECORDS).clamp(1, MAX_RECORDS)
}

/// The options of these marks, of these numbers in bytes, of this limit, of what a hand-off adds, and of whether writers
/// heed the marks.
fn options(
    marks: WaterMark,
    overhead: u16,
    unknown: u16,
    limit: u32,
    task: u16,
    heed: bool,
) -> Options
    requires some_record { 0 < limit }
    requires few_records { limit ≤ most_records }
    ensures task { result.task ≡ task }
    ensures heed { result.heed ≡ heed }
    ensures history { first_history result ≡ new_history (record {
      marks = marks;
      estimate = record { overhead = overhead; unknown = unknown };
    }) limit }
{
    let estimate = Estimate {
        overhead: u32::from(overhead),
        unknown: u32::from(unknown),
    };
    Options {
        marks,
        estimate,
        limit,
        task: u32::from(task),
        heed,
    }
}
