//! The transport: passes over a recorded buffer of one thread, and over a desk that is lent.

ghost use Rattle.ob_transport.specs.Pass.{MayOffer};
ghost use Rattle.ob_shared.specs.Calls.{IsNameOf};

use crate::tests::host::Host;
use crate::tests::keeping_buffers::{Keeping, Scarce};
use crate::tests::shared::opening;
use ob_history::{As, Booked, Receipt};
use ob_players::buffers::Options;
use ob_players::run::Single;
use ob_players::sinks::SinkWords;
use ob_players::story::{Again, Otherwise, Player, Story};
use ob_players::trace::{push_change, push_refusal, push_settled, push_settlements};
use ob_players::words::{MOST, NoAnswer, Words};
use ob_seq::Look;
use ob_shared::{Desk, Done, Named, Opening, Share, SharedBuffer};
use ob_stories::{PASSES, SCARCE, SIX, SIX_FLUSHED};
use ob_transport::{
    Drained, Limits, Pass, PassFault, ScriptSink, SinkFault, Stop, book, drain, pass,
};
use ob_types::{Answer, Command, Reply};
use std::alloc::Global;
use std::marker::Brand;
use std::process::Abort;
use std::sync::Wait;
use std::test::Fail;

/// What a transport has: a buffer, a sink, and how many blocks it offers at once.
#[derive(Drop)]
struct Transport<B> {
    single: Single<Keeping<B>>,
    sink: ScriptSink,
    max_count: u32,
    /// What the sink took and no record tells, if that is to be booked before anything else.
    unbooked: u64,
}

/// What a transport is made of, beside its buffer.
type Given = (ScriptSink, u32, Vec<Receipt>);

/// The sink of a story and how many blocks it is offered at once, both by the command line, and room for receipts, so
/// that none is lost for lack of memory.
fn given(alloc: Global, story: Story) -> Result<Given, NoAnswer> {
    let receipts = Vec::with_capacity(alloc, MOST as usize)?;
    let mut sink = SinkWords::new(alloc, 0);
    let max_count = take_all(&mut sink, &mut Words::of(story.command))?;
    Ok((sink.into_sink(), max_count, receipts))
}

/// Takes in what all words tell of a sink: how many blocks it is offered at once.
fn take_all(sink: &mut SinkWords, words: &mut Words) -> Result<u32, NoAnswer> {
    let mut max_count = 16;
    for _ in 0..MOST {
        let word = words.word();
        if !sink.take(word, words)? && word == "--count" {
            max_count = words.small()?;
        }
    }
    Ok(max_count)
}

impl<B: Booked> Transport<B> {
    fn new(alloc: Global, given: Given, booked: B) -> Transport<B> {
        let (sink, max_count, receipts) = given;
        Transport {
            single: Single::new(alloc, Keeping { booked, receipts }),
            sink,
            max_count,
            unbooked: 0,
        }
    }

    fn limits(&self) -> Limits
        ensures { MayOffer result }
    {
        Limits {
            max_count: if self.max_count == 1 { 1 } else { 16 },
            max_bytes: 1024,
        }
    }
}

impl<B: Booked> Player for Transport<B> {
    fn answer(&mut self, asked: &str, text: &mut String) -> Result<(), NoAnswer> {
        let mut words = Words::of(asked);
        match words.word() {
            "sink" => push_sink(text, self.sink.units(), self.sink.failures()),
            "settled" => push_all_settled(text, &self.single.kept.receipts),
            "pass" | "send" | "drain" | "book" => {
                let told = self.moves(&mut words, asked, text);
                let (place, look) = self.seen();
                told.and(push_seen(text, place, look, self.sink.taken()))
            }
            _ => self.single.answer(asked, text),
        }
    }
}

impl<B: Booked> Transport<B> {
    /// A pass, a drain of *n* turns, or a booking of *n* bytes.
    fn moves(&mut self, words: &mut Words, asked: &str, text: &mut String) -> Result<(), NoAnswer> {
        if asked == "pass" {
            return self.pass(text);
        }
        if asked == "send" {
            return self.send(text);
        }
        let count = words.number()?;
        if asked.starts_with("drain") {
            let limits = self.limits();
            push_drained(
                text,
                drain(&mut self.single.kept, &mut self.sink, limits, count),
            )
        } else {
            self.book(count, text)
        }
    }

    /// Makes a pass. If it fails, all that can be seen of the buffer is as before.
    fn pass(&mut self, text: &mut String) -> Result<(), NoAnswer> {
        let before = self.seen();
        let limits = self.limits();
        let passed = pass(&mut self.single.kept, &mut self.sink, limits);
        if let Err(PassFault::Unbooked { taken }) = passed {
            self.unbooked = taken;
        }
        let is_same = passed.is_ok() || self.seen() == before;
        push_passed(text, passed, is_same)
    }

    /// Makes a pass that is booked in the end, however often that is asked.
    fn send(&mut self, text: &mut String) -> Result<(), NoAnswer> {
        let passed = if self.unbooked == 0 {
            self.pass(text)
        } else {
            Ok(())
        };
        text.clear();
        let booked = if passed.is_ok() && self.unbooked > 0 {
            self.book(self.unbooked, text)
        } else {
            passed
        };
        text.clear();
        booked
    }

    /// Books taken bytes. The receipt is of their removal.
    fn book(&mut self, taken: u64, text: &mut String) -> Result<(), NoAnswer> {
        match book(&mut self.single.kept, taken) {
            Ok(receipt) => {
                self.unbooked = 0;
                push_booked(text, &receipt, taken)
            }
            Err(refusal) => push_refusal(text, refusal),
        }
    }

    /// How many calls were recorded, and what is pending.
    fn seen(&self) -> (usize, Look) {
        let kept = &self.single.kept;
        (kept.receipts.len(), kept.buffer().look())
    }
}

/// Adds how many calls are recorded, what is pending, and what the sink has taken.
fn push_seen(text: &mut String, place: usize, look: Look, taken: &[u8]) -> Result<(), NoAnswer> {
    let (total, progress) = (look.total, look.current_progress);
    write!(text, ": place {place}, t={total} cur={progress}, ")?;
    for byte in taken {
        write!(text, "{byte:02x}")?;
    }
    Ok(())
}

fn push_sink(text: &mut String, units: u128, failures: u64) -> Result<(), NoAnswer> {
    Ok(write!(text, "{units} units, {failures} failures")?)
}

fn push_all_settled(text: &mut String, receipts: &[Receipt]) -> Result<(), NoAnswer> {
    for receipt in receipts {
        push_settled(text, receipt)?;
    }
    Ok(())
}

/// Adds what a pass came to, and whether a failed one changed the buffer.
fn push_passed(
    text: &mut String,
    passed: Result<Pass, PassFault>,
    is_same: bool,
) -> Result<(), NoAnswer> {
    if !is_same {
        text.push_str("the buffer changed: ")?;
    }
    match passed {
        Ok(Pass::Idle) => text.push_str("idle")?,
        Ok(Pass::Stalled) => text.push_str("stalled")?,
        Ok(Pass::Cleared) => text.push_str("cleared")?,
        Ok(Pass::Took(n)) => write!(text, "took {n}")?,
        Err(PassFault::Unbooked { taken }) => write!(text, "{taken} unbooked")?,
        Err(fault) => return push_fault(text, fault),
    }
    Ok(())
}

/// Adds how many turns a drain used, and why it stopped.
fn push_drained(text: &mut String, drained: Result<Drained, PassFault>) -> Result<(), NoAnswer> {
    let drained = match drained {
        Ok(drained) => drained,
        Err(fault) => return push_fault(text, fault),
    };
    let stop = match drained.stop {
        Stop::Idle => "idle",
        Stop::Stalled => "stalled",
        Stop::TurnsUsed => "turns used",
    };
    Ok(write!(text, "{} turns, {stop}", drained.turns_used)?)
}

fn push_fault(text: &mut String, fault: PassFault) -> Result<(), NoAnswer> {
    match fault {
        PassFault::NoMemory | PassFault::Sink(SinkFault(12)) => Err(NoAnswer::NoMemory),
        PassFault::Sink(SinkFault(number)) => Ok(write!(text, "sink fault {number}")?),
        fault => Ok(write!(text, "pass fault {}", fault.number())?),
    }
}

fn push_booked(text: &mut String, receipt: &Receipt, taken: u64) -> Result<(), NoAnswer> {
    if receipt.command != Command::RemoveBytes(taken) {
        text.push_str("another command ")?;
    }
    match &receipt.reply {
        Ok(reply) => push_removal(text, reply),
        Err(_) => Ok(()),
    }
}

fn push_removal(text: &mut String, reply: &Reply) -> Result<(), NoAnswer> {
    if let Answer::Count(count) = reply.answer {
        write!(text, "n {count}")?;
    }
    push_change(text, reply.change)?;
    Ok(push_settlements(text, reply.settled.as_slice())?)
}

/// A recorded buffer of one thread, as a story asks for it.
fn booked(alloc: Global, story: Story) -> Result<As, NoAnswer> {
    let recorded = Options::of(story.command)?.recorded(alloc)?;
    Ok(As {
        recorded,
        caller: 7,
    })
}

fn alone(alloc: Global, story: Story) -> Result<Transport<As>, NoAnswer> {
    Ok(Transport::new(alloc, given(alloc, story)?, booked(alloc, story)?))
}

fn over_a_new_desk(rt: &impl Host, story: Story) -> Result<(), Fail> {
    let opening = opening(rt.alloc(), Options::of(story.command)?, 1)?;
    over_a_desk::<Brand>(rt, opening, story)
}

/// Lends a desk to a story, and ends the buffer with the receipts of all calls.
fn over_a_desk<L: Named>(rt: &impl Host, opening: Opening, story: Story) -> Result<(), Fail>
    requires { IsNameOf opening L.opened L.name L.parts }
{
    let (buffer, shares) = opening.begin::<L>()?;
    let dones = lends(rt, &buffer, shares, story)?;
    match buffer.finish(dones) {
        Ok(_finished) => Ok(()),
        Err(_unfinished) => Err(Fail::from("the buffer is finished")),
    }
}

/// Lends a desk to a story: what the caller hands in then.
fn lends<L: Named, R: Host>(
    rt: &R,
    buffer: &SharedBuffer<L>,
    shares: Vec<Share<L>>,
    story: Story,
) -> Result<Vec<Done<L>>, Fail> {
    let mut shares = shares;
    let share = shares.pop().ok_or("a share")?;
    let given = given(rt.alloc(), story)?;
    let (done, told) = plays_at(rt, buffer.desk(rt, share), given, story);
    told?;
    Ok(vec![in rt.alloc(); done]?)
}

/// Plays a story over a desk.
fn plays_at<'s, L: Named, R: Host>(
    rt: &R,
    desk: Desk<'_, L>,
    given: Given,
    story: Story<'s>,
) -> (Done<L>, Result<(), Otherwise<'s>>) {
    let alloc = rt.alloc();
    let mut lent = Again(Transport::new(alloc, given, desk));
    let told = story.play(alloc, &mut lent);
    let (desk, receipts) = lent.into_inner().into_parts();
    let done = Done {
        receipts,
        ..Done::new(alloc, desk.leave())
    };
    (done, told)
}

impl<B> Transport<B> {
    fn into_parts(self) -> (B, Vec<Receipt>) {
        self.single.kept.into_parts()
    }
}

/// Plays a story over a buffer of one thread.
fn plays_alone(alloc: Global, story: Story) -> Result<(), Fail> {
    story.play(alloc, &mut alone(alloc, story)?)?;
    Ok(())
}

#[test]
fn passes_of_a_transport(rt: HostRuntime) -> Result<(), Fail> {
    for text in PASSES.split('#') {
        plays_alone(rt.alloc(), Story::of(text))?;
        over_a_new_desk(&rt, Story::of(text))?;
    }
    Ok(())
}

/// Plays a story over a buffer that is out of memory at times.
fn plays_scarce(alloc: Global, story: Story) -> Result<(), Fail> {
    let scarce = Scarce {
        booked: booked(alloc, story)?,
        is_ready: false,
    };
    let mut transport = Transport::new(alloc, given(alloc, story)?, scarce);
    story.play(alloc, &mut transport)?;
    Ok(())
}

#[test]
fn unbooked_bytes_are_booked_later(rt: HostRuntime) -> Result<(), Fail> {
    for text in SCARCE.split('#') {
        plays_scarce(rt.alloc(), Story::of(text))?;
    }
    assert_eq!(rt; PassFault::Unbooked { taken: 5 }.number(), 4);
    Ok(())
}

/// Passes over regions and others, whose receipts are copied without memory: each growth may be refused in turn, and the
/// buffer can be ended with the receipts of all calls.
#[test]
fn a_refused_growth_changes_no_answer(rt: HostRuntime) -> Result<(), Fail> {
    for text in PASSES.split('#') {
        if text.contains("regions and others pass") {
            return over_a_new_desk(&rt, Story::of(text));
        }
    }
    Err(Fail::from("a story"))
}

/// What the sink took is booked, or told of and still in front: more blocks than promises are settled without memory.
#[test]
fn a_refused_growth_hides_no_bytes(rt: HostRuntime) -> Result<(), Fail> {
    let story = Story::of(SIX);
    story.play(rt.alloc(), &mut Again(alone(rt.alloc(), story)?))?;
    Ok(())
}

/// What a pass over six blocks comes to, by its name, if what it leaves is so.
fn one_of_four(passed: Result<Pass, PassFault>, left: Look) -> Option<&'static str> {
    let (name, expected) = match passed {
        Ok(Pass::Took(6)) => ("took 6", (0, 0)),
        Err(PassFault::NoMemory) => ("no memory", (6, 582)),
        Err(PassFault::Sink(SinkFault(12))) => ("sink fault 12", (6, 582)),
        Err(PassFault::Unbooked { taken: 6 }) => ("6 unbooked", (6, 582)),
        _ => return None,
    };
    ((left.size, left.total) == expected).then_some(name)
}

/// A pass over six blocks comes to one of four answers, whichever growth is refused, and says which. What stands unbooked
/// is booked then.
#[test]
fn a_pass_comes_to_one_of_four(rt: HostRuntime) -> Result<(), Fail> {
    let story = Story::of(SIX_FLUSHED);
    let mut asked = Again(alone(rt.alloc(), story)?);
    story.play(rt.alloc(), &mut asked)?;
    let mut transport = asked.into_inner();
    let limits = transport.limits();
    let passed = pass(&mut transport.single.kept, &mut transport.sink, limits);
    let Some(name) = one_of_four(passed, transport.seen().1) else {
        return Err(Fail::from("one of four answers"));
    };
    let _ = println!(rt; "came to {name}");
    if name == "6 unbooked" {
        let booked = book(&mut transport.single.kept, 6);
        assert!(rt; booked.is_ok());
        assert_eq!(rt; transport.seen().1.total, 0);
    }
    Ok(())
}
