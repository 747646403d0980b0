//! The caller of a buffer whose peer is slow.

use crate::tests::limits::cycles;
use bytes::Bytes;
use ob_callers::caller::{Peer, give_up, may_write, open, renew, respond, send, tell};
use ob_players::buffers::Options;
use ob_players::story::{Begins, Player, Story, play_each};
use ob_players::trace::push_settlements;
use ob_players::words::{NoAnswer, Words};
use ob_seq::Buffer;
use ob_stories::CONNECTIONS;
use ob_types::{Cause, Message, Outcome, PromiseId, Refusal};
use std::alloc::{AllocError, Global};
use std::test::Fail;

/// The other end of a connection whose socket takes at most *n* bytes at a time.
#[derive(Drop)]
struct SlowPeer {
    takes: usize,
    /// Why it is broken, if it is.
    broken: Option<Cause>,
    sent: Vec<u8>,
    settled: Vec<(PromiseId, Outcome)>,
    /// What it was told last.
    reading: &'static str,
}

impl Peer for SlowPeer {
    fn send(&mut self, blocks: &[Bytes]) -> Result<u64, Cause> {
        if let Some(cause) = self.broken {
            return Err(cause);
        }
        let mut room = self.takes;
        for block in blocks {
            let taken = block.len().min(room);
            if self
                .sent
                .extend_from_slice(&block.as_slice()[..taken])
                .is_err()
            {
                break;
            }
            room -= taken;
        }
        Ok(self.takes.saturating_sub(room) as u64)
    }

    fn settled(&mut self, id: PromiseId, outcome: Outcome) {
        let _ = self.settled.push((id, outcome));
    }

    fn set_reading(&mut self, reading: bool) {
        self.reading = if reading { "yes" } else { "no" };
    }
}

/// A buffer and the peer that it serves.
#[derive(Drop)]
struct Connection {
    alloc: Global,
    buffer: Buffer,
    peer: SlowPeer,
}

impl Player for Connection {
    fn answer(&mut self, asked: &str, text: &mut String) -> Result<(), NoAnswer> {
        match asked {
            "settled" => return Ok(push_settlements(text, self.peer.settled.as_slice())?),
            "sent" => return Ok(push_runs(text, self.peer.sent.as_slice())?),
            _ => {}
        }
        match self.does(&mut Words::of(asked))? {
            Ok(()) => text.push_str("ok")?,
            Err(refusal) => write!(text, "!{}", refusal.number())?,
        }
        Ok(self.push_seen(text)?)
    }
}

impl Connection {
    /// Does what a line says: what that answers.
    fn does(&mut self, words: &mut Words) -> Result<Result<(), Refusal>, NoAnswer> {
        let alloc = self.alloc;
        let Connection {
            alloc: _,
            buffer,
            peer,
        } = self;
        Ok(match words.word() {
            "respond" => {
                let bytes = response(alloc, words.small()?, words.small()?)?;
                respond(buffer, peer, bytes)
            }
            "write" => write(buffer, peer, words.small()?),
            "send" => send(buffer, peer),
            "give-up" => give_up(buffer, peer, Cause(words.small()?)),
            "renew" => renew(buffer, peer, alloc),
            "spend" => spend(buffer, words.small()?),
            "breaks" => {
                peer.broken = Some(Cause(words.small()?));
                Ok(())
            }
            "takes" => {
                peer.takes = words.small()? as usize;
                Ok(())
            }
            _ => return Err(NoAnswer::Unread),
        })
    }

    fn push_seen(&self, text: &mut String) -> Result<(), AllocError> {
        let (buffer, peer) = (&self.buffer, &self.peer);
        let may = if may_write(buffer) { "may" } else { "may not" };
        write!(text, ", reading: {}, {may} write, ", peer.reading)?;
        let (sent, settled) = (peer.sent.len(), peer.settled.len());
        write!(text, "sent={sent} settled={settled} ")?;
        let (look, left) = (buffer.look(), buffer.writes_left());
        let (total, before) = (look.total, look.before_unwritable);
        write!(text, "t={total} bu={before} left={left}")
    }
}

/// *n* bytes of one value.
fn response(alloc: Global, value: u32, length: u32) -> Result<Bytes, AllocError> {
    let value = value.min(255) as u8;
    Ok(Bytes::from_vec(vec![in alloc; value; length as usize]?)?)
}

/// Writes a message that the socket does not send before a flush.
fn write(buffer: &mut Buffer, peer: &mut SlowPeer, value: u32) -> Result<(), Refusal> {
    let written = buffer.write(Message::Other(value))?;
    tell(peer, &written);
    Ok(())
}

/// Writes, flushes and removes *n* messages.
fn spend(buffer: &mut Buffer, writes: u32) -> Result<(), Refusal> {
    let _ = cycles(buffer, writes)?;
    let _ = buffer.remove()?;
    Ok(())
}

/// Adds how often each value stands in bytes, run by run.
fn push_runs(text: &mut String, bytes: &[u8]) -> Result<(), AllocError> {
    let mut length = 0u64;
    for (index, byte) in bytes.iter().enumerate() {
        length = length.saturating_add(1);
        if bytes.get(index + 1) != Some(byte) {
            write!(text, " {length} of {byte}")?;
            length = 0;
        }
    }
    Ok(())
}

impl Begins for Connection {
    /// Over the buffer of `open`, unless the story names marks.
    fn begin(alloc: Global, story: Story) -> Result<Connection, NoAnswer> {
        let buffer = if story.command.contains("--low") {
            Options::of(story.command)?.buffer(alloc)?
        } else {
            open(alloc)?
        };
        let peer = SlowPeer {
            takes: 0,
            broken: None,
            sent: Vec::new(alloc),
            settled: Vec::new(alloc),
            reading: "untold",
        };
        Ok(Connection {
            alloc,
            buffer,
            peer,
        })
    }
}

#[test]
fn a_connection_goes_by_what_its_buffer_tells(rt: HostRuntime) -> Result<(), Fail> {
    play_each::<Connection>(rt.alloc(), CONNECTIONS)
}
