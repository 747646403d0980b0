//! Runs scripts of buffer commands, or of the turns of lanes, and writes a line of trace for each; or drives the
//! writers of a script, and writes the report.
#![tactic(auto)]

ghost use Rattle.std.specs.Prelude.{◌≡◌};
ghost use Rattle.std.specs.IoError.{error_kind};

use ob_cli::entry;
use std::env;
use std::io::{self, Error, ErrorKind, Write};
use std::process::ExitCode;

fn main(rt: HostRuntime) -> ExitCode {
    let status = match words(&rt) {
        Ok(words) => entry(
            &rt,
            words.as_slice(),
            &mut rt.reader(),
            &mut rt.stdout(),
            &mut rt.stderr(),
        ),
        Err(error) => refused_words(&error, &mut rt.stderr()),
    };
    ExitCode::from(status)
}

/// The words of the command line. It fails if memory ran out, or if one of them is not UTF-8.
fn words(rt: &HostRuntime) -> io::Result<Vec<String>> {
    Ok(env::args(rt)?.collect(rt.alloc())?)
}

/// Reports why the words could not be had, and returns the status with which the program ends: 4 if memory ran out, and
/// else 1. If it cannot be reported there is nobody left to tell.
fn refused_words<E: Write>(error: &Error, errors: &mut E) -> u8
    ensures no_memory { error_kind error.now ≡ ErrorKind.OutOfMemory → result ≡ 4 }
    ensures other { ¬ (error_kind error.now ≡ ErrorKind.OutOfMemory) → result ≡ 1 }
{
    if error.kind() == ErrorKind::OutOfMemory {
        let _ = writeln!(errors, "no memory");
        return 4;
    }
    let _ = writeln!(errors, "{error}");
    1
}
