//! What `drive --verbose` tells beside its report, when threads leave nothing open but the time.

use crate::tests::play::{Host, left};
use std::test::Fail;

/// Drives of one writer, and what is told behind the line of the time: messages that no line flushes; marks that a line
/// sets, and two blocks above them; a user bit that is set and cleared, and two refusals; and a drive without the option.
static DRIVES: [(&str, &str, &str); 4] = [
    (
        "ob_tool drive --low 100 --high 200 --verbose",
        "b 0 1 3\n",
        "passes 0\nstalls 0\npeak 291 at line 3\nstops 1\ngoes 0\nunwritable 1 from line 3\npending 291\n\
        hint: nothing was flushed, so nothing was sent; a line `f W` has writer W flush\n",
    ),
    (
        "ob_tool drive --low 100 --high 200 --verbose",
        "m 1 5 7\nb 1 2 2\n",
        "passes 0\nstalls 0\npeak 196 at line 3\nstops 1\ngoes 0\nunwritable 2 from line 2\npending 196\n\
        hint: nothing was flushed, so nothing was sent; a line `f W` has writer W flush\n",
    ),
    (
        "ob_tool drive --verbose",
        "u 0 3 0\nu 0 3 1\nu 0 0 1\nx 0 7\n",
        "passes 0\nstalls 0\npeak 0 at line 1\nstops 1\ngoes 1\nunwritable 1 from line 1\npending 0\n",
    ),
    ("ob_tool drive", "b 0 1 3\n", ""),
];

/// What a drive tells behind the line of its time.
fn behind_time(left: &str) -> &str {
    let (_, told) = left
        .split_once("status 0: ")
        .unwrap_or(("", "another status"));
    match told.split_once('\n') {
        Some((time, behind)) if time.starts_with("milliseconds ") => behind,
        _ => told,
    }
}

fn tells<H: Host>(rt: &H, words: &str, script: &str, wanted: &str) -> Result<(), Fail> {
    let left = left(rt, words, &mut script.as_bytes())?;
    assert_eq!(rt; behind_time(&left), wanted, "{words}");
    Ok(())
}

#[test]
fn a_drive_tells_more_if_it_is_asked(rt: HostRuntime) -> Result<(), Fail> {
    for &(words, script, wanted) in &DRIVES {
        tells(&rt, words, script, wanted)?;
    }
    Ok(())
}
