//! Runs the program, and compares all that it leaves.

use ob_cli::entry;
use std::alloc::AllocError;
use std::io::{Read, Write};
use std::process::Abort;
use std::sync::Wait;
use std::test::Fail;
use std::thread::Threads;
use std::time::Clock;

/// What the program and its tests ask of the runtime.
pub trait Host: Abort + AllocGlobal + Threads + Wait + Clock + Sync {}

impl<H: Abort + AllocGlobal + Threads + Wait + Clock + Sync> Host for H {}

/// Runs the program, and answers its status and what it told.
pub fn ended<H: Host, R: Read, W: Write>(
    rt: &H,
    words: &[&str],
    reader: &mut R,
    writer: &mut W,
) -> Result<String, Fail> {
    let mut told: Vec<u8> = Vec::new(rt.alloc());
    let status = entry(rt, words, reader, writer, &mut told);
    let told = String::from_utf8(told)?;
    let ended = format!(in rt.alloc(); "status {status}: {told}");
    drop(told);
    Ok(ended?)
}

/// Runs the program on a script, and answers what it wrote, and behind that its status and what it told.
pub fn left<H: Host>(rt: &H, words: &str, script: &mut &[u8]) -> Result<String, Fail> {
    let words: Vec<&str> = words.split_whitespace().collect(rt.alloc())?;
    let mut written: Vec<u8> = Vec::new(rt.alloc());
    let ended = ended(rt, &words, script, &mut written);
    drop(words);
    joined(written, ended)
}

/// What the program wrote, and behind that how it ended.
fn joined(written: Vec<u8>, ended: Result<String, Fail>) -> Result<String, Fail> {
    let ended = ended?;
    let left = String::from_utf8(written);
    let mut left = left?;
    left.push_str(&ended)?;
    Ok(left)
}

/// Runs the program on a script, which it reads to its end, and compares all that it leaves.
pub fn leaves<H: Host>(rt: &H, words: &str, script: &str, wanted: &str) -> Result<(), Fail> {
    let mut unread = script.as_bytes();
    let found = left(rt, words, &mut unread)?;
    assert_eq!(rt;
        (found.as_str(), unread.len()),
        (wanted, 0),
        "{words}: {script:.200}"
    );
    Ok(())
}

/// The same of a script that was made for it.
pub fn leaves_of<H: Host>(
    rt: &H,
    words: &str,
    script: Result<String, AllocError>,
    wanted: &str,
) -> Result<(), Fail> {
    let script = script?;
    let told = leaves(rt, words, &script, wanted);
    drop(script);
    told
}
