//! Drives: writers in threads of their own, and one transport beside them. The order of their records is open.

ghost use Rattle.std.specs.Prelude.{IfOk};
ghost use Rattle.ob_pool.specs.Drive.{AreWithin};

use ob_players::buffers::Options;
use ob_players::commands::command;
use ob_players::sinks::SinkWords;
use ob_players::story::{Player, Story, parts};
use ob_players::words::{NoAnswer, Words, number_in};
use ob_pool::{Config, DriveFault, Gate, OpenGate, Plan, Report, TASK_OVERHEAD, drive};
use ob_shared::FinishFault;
use ob_stories::{DRIVES, PLANS};
use ob_transport::{Limits, ScriptSink, Sink};
use ob_types::{Cause, Command, Refusal};
use std::alloc::{AllocError, Global};
use std::process::Abort;
use std::sync::Wait;
use std::test::Fail;
use std::thread::Threads;
use std::time::Clock;

/// What a drive is given with these options: at most *n* passes of at most 16 blocks and 65536 bytes.
fn config(options: Options, turns: u64) -> Result<Config, Refusal>
    ensures { IfOk result (λ config. AreWithin config) }
{
    Ok(Config {
        marks: options.marks()?,
        estimate: options.estimate(),
        task: options.task.unwrap_or(TASK_OVERHEAD).min(65535),
        limit: options.limit.clamp(1, 1048576),
        limits: Limits {
            max_count: 16,
            max_bytes: 65536,
        },
        turns,
        heed: false,
    })
}

/// What a story gives to be driven.
#[derive(Drop)]
struct Given {
    alloc: Global,
    /// The most passes of the transport.
    turns: u64,
    plans: Vec<Plan>,
    sink: SinkWords,
}

impl Given {
    /// Takes in what a line gives.
    fn take(&mut self, asked: &str) -> Result<(), NoAnswer> {
        let mut words = Words::of(asked);
        match words.word() {
            "" | "sink" | "why" | "fails" | "among" => Ok(()),
            "turns" => {
                self.turns = words.number()?;
                Ok(())
            }
            word if self.sink.take(word, &mut words)? => Ok(()),
            word => give(self.alloc, &mut self.plans, word, &mut words),
        }
    }
}

/// Gives a command to a writer, or to `each` of the first *n*, a block as often as the last word says.
fn give(
    alloc: Global,
    plans: &mut Vec<Plan>,
    word: &str,
    words: &mut Words,
) -> Result<(), NoAnswer> {
    let number = words.small()?;
    let (from, to, word) = if word == "each" {
        (0, number, words.word())
    } else {
        (number, number.saturating_add(1), word)
    };
    widen(alloc, plans, to as usize)?;
    let command = command(alloc, word, words, 0)?;
    let count = if word == "b" { words.small() } else { Ok(1) };
    push_to_each(plans, (from, to), command, count)
}

/// Makes plans until there are *n*.
fn widen(alloc: Global, plans: &mut Vec<Plan>, count: usize) -> Result<(), NoAnswer> {
    for _ in plans.len()..count {
        plans.push(Plan::new(alloc))?;
    }
    Ok(())
}

/// Gives a command *n* times to the writers from one number to before another.
fn push_to_each(
    plans: &mut [Plan],
    (from, to): (u32, u32),
    command: Option<Command>,
    count: Result<u32, NoAnswer>,
) -> Result<(), NoAnswer> {
    let command = command.ok_or(NoAnswer::Unread)?;
    let mut told = Ok(());
    for writer in from..to {
        if let Some(plan) = plans.get_mut(writer as usize) {
            told = told.and(push_times(plan, &command, count));
        }
    }
    drop(command);
    told
}

fn push_times(
    plan: &mut Plan,
    command: &Command,
    count: Result<u32, NoAnswer>,
) -> Result<(), NoAnswer> {
    Ok(plan.push(command.copy()?, count?)?)
}

/// What is to be driven, and what came of it.
#[derive(Drop)]
pub struct Driven {
    options: Options,
    given: Given,
    /// How many bytes the sink took, and how often it failed.
    pub sink: (usize, u64),
    end: Option<Result<Report, DriveFault>>,
}

impl Player for Driven {
    /// The lines that give something were given before.
    fn answer(&mut self, asked: &str, text: &mut String) -> Result<(), NoAnswer> {
        if asked == "sink" {
            return push_sink(text, self.sink);
        }
        match &self.end {
            Some(Ok(report)) => push_of_report(text, report, asked),
            Some(Err(fault)) => push_of_fault(text, fault, asked),
            None => Ok(()),
        }
    }
}

fn push_sink(text: &mut String, (bytes, failures): (usize, u64)) -> Result<(), NoAnswer> {
    Ok(write!(text, "{bytes} bytes, {failures} failures")?)
}

fn push_of_report(text: &mut String, report: &Report, asked: &str) -> Result<(), NoAnswer> {
    if let Some(count) = asked.strip_prefix("among ") {
        return push_callers(text, report, number_in(count)? as usize);
    }
    match asked {
        "" => Ok(push_report(text, report)?),
        "fails" => Ok(push_fails(text, report)?),
        _ => Ok(()),
    }
}

fn push_of_fault(text: &mut String, fault: &DriveFault, asked: &str) -> Result<(), NoAnswer> {
    match asked {
        "" => Ok(write!(text, "drive: fault {}", fault.number())?),
        "why" => Ok(write!(text, "{fault}")?),
        _ => Ok(()),
    }
}

impl Driven {
    /// What a story gives, before it is driven.
    pub fn of(alloc: Global, story: Story) -> Result<Driven, NoAnswer> {
        let options = Options::of(story.command)?;
        let mut given = Given {
            alloc,
            turns: 16777216,
            plans: Vec::new(alloc),
            sink: SinkWords::new(alloc, u64::MAX),
        };
        for line in story.lines.lines() {
            given.take(parts(line).0)?;
        }
        Ok(Driven {
            options,
            given,
            sink: (0, 0),
            end: None,
        })
    }

    /// The sink of a story.
    pub fn script(&mut self) -> ScriptSink {
        let none = SinkWords::new(self.given.alloc, 0);
        std::mem::replace(&mut self.given.sink, none).into_sink()
    }

    /// Drives what a story gives, with its writers behind a gate.
    pub fn run<R: AllocGlobal + Threads + Wait + Clock + Sync, G: Gate + Sync, S: Sink + Send>(
        &mut self,
        rt: &R,
        gate: &G,
        sink: &mut S,
    ) -> Result<(), NoAnswer> {
        let config = config(self.options, self.given.turns)?;
        let plans = std::mem::replace(&mut self.given.plans, Vec::new(rt.alloc()));
        drop(self.end.replace(drive(rt, gate, plans, sink, config)));
        Ok(())
    }

    /// Plays a story of what was driven, if it was.
    pub fn plays(&mut self, driven: Result<(), NoAnswer>, story: Story) -> Result<(), Fail> {
        driven?;
        story.play(self.given.alloc, self)?;
        Ok(())
    }
}

/// Drives what a story gives, with its writers behind a gate, and plays it.
pub fn drives<R: Abort + AllocGlobal + Threads + Wait + Clock + Sync, G: Gate + Sync>(
    rt: &R,
    gate: &G,
    story: Story,
) -> Result<(), Fail> {
    let mut driven = Driven::of(rt.alloc(), story)?;
    let mut sink = driven.script();
    let told = driven.run(rt, gate, &mut sink);
    driven.sink = (sink.taken().len(), sink.failures());
    drop(sink);
    let told = driven.plays(told, story);
    drop(driven);
    told
}

/// Adds the numbers of a report.
fn push_report(text: &mut String, report: &Report) -> Result<(), AllocError> {
    for (name, number) in [
        ("writes", report.writes),
        ("flushes", report.flushes),
        ("cancels", report.cancels),
        ("bits", report.bits),
        ("refused", report.refused),
        ("taken", report.taken),
        ("success", report.success),
        ("failed", report.failed),
        ("cancelled", report.cancelled),
        ("left", report.left),
    ] {
        write!(text, "{name} {number}, ")?;
    }
    let (total, word) = report.hand;
    write!(text, "hand {total} {word:08x}")
}

/// Adds to the answer of a drive how many callers made the first *n* records.
fn push_callers(text: &mut String, report: &Report, count: usize) -> Result<(), NoAnswer> {
    let mut callers = 0u64;
    for one in report.recorded.records().iter().take(count) {
        callers |= 1u64.wrapping_shl(one.caller);
    }
    Ok(write!(text, "{} callers", callers.count_ones())?)
}

/// Adds the commands that failed what was flushed.
fn push_fails(text: &mut String, report: &Report) -> Result<(), AllocError> {
    for one in report.recorded.records() {
        if let Command::FailFlushed(Cause(cause), notice) = &one.command {
            write!(text, "fl {cause} {} ", u8::from(*notice))?;
        }
    }
    Ok(())
}

fn plays<R: Abort + AllocGlobal + Threads + Wait + Clock + Sync>(
    rt: &R,
    stories: &str,
) -> Result<(), Fail> {
    for text in stories.split('#').skip(1) {
        drives(rt, &OpenGate, Story::of(text))?;
    }
    Ok(())
}

#[test]
fn writers_drive(rt: HostRuntime) -> Result<(), Fail> {
    plays(&rt, DRIVES)
}

#[test]
fn plans_are_driven_or_refused(rt: HostRuntime) -> Result<(), Fail> {
    plays(&rt, PLANS)
}

#[test]
fn want_of_memory_is_told(rt: HostRuntime) -> Result<(), Fail> {
    let end = DriveFault::Finish(FinishFault::NoMemory);
    let told = format!(in rt.alloc(); "{}; {end}", DriveFault::NoMemory)?;
    assert_eq!(rt;
        told.as_str(),
        "out of memory; the buffer was not finished: out of memory"
    );
    Ok(())
}
