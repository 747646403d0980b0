ghost use Rattle.std.specs.Prelude.{◌≡◌, ◌≤◌, List, [], true};
ghost use Rattle.ob_types.specs.Limits.{greatest_overhead, greatest_unknown};
ghost use Rattle.ob_types.specs.declared.command.Command.{Command};
ghost use Rattle.ob_seq.specs.Unsent.{waiting_count};
ghost use Rattle.ob_connection.specs.Connected.{StandsFor, Shrinks, TakesNoRoom, accepted_writes, most_ids};
ghost use Rattle.ob_connection.specs.Connected.{room_in, roomed};

mod commands;
mod copying;
mod looks;
mod offer;
mod sending;
mod state;
mod take;
mod turns;

use crate::chunk::Chunks;
pub use copying::length_of_parts;
use ob_seq::Contents;
use ob_types::{Estimate, WaterMark};
pub use sending::{SendFault, Sent};
use std::alloc::Global;
use std::marker::Model;

/// What a server has written to one connection and the socket has not yet taken (Netty's `ChannelOutboundBuffer`), for
/// one thread, and without end.
///
/// Each call returns what the call of an `ob_seq::Buffer` returns, but for the limit on writes: ids are 64 bits, so
/// 2^64 - 1 writes are accepted.
///
/// Only a write can run out of memory, and what is gone takes none. What waits takes entries of 64 bytes, beside the memory
/// of the messages. While few wait they lie in one ring, and once 128 wait in segments of 128, each of which is freed when its last
/// entry is gone. A connection with nothing written has neither. After each removal and each failing a ring in which all lie
/// has room for fewer than eight times as many as wait, or for 4; a close gives it all back. If
/// the allocator refuses the smaller ring, the connection keeps the one that it has until the next removal.
#[repr(C)]
#[derive(Debug, Drop)]
pub struct Connection {
    /// First, as what it begins with.
    contents: Contents,
    /// How many messages are gone, which is the promise of the first that waits.
    gone: u64,
    /// What copied messages share.
    chunks: Chunks,
}

/// Each connection holds what some list of accepted commands leaves.
impl Model for Connection {
    ghost use Rattle.ob_connection.specs.Connected.{Connected, StandsForSome};
    ghost use Rattle.ob_connection.specs.Inside.{connected_of};

    ghost Value = { Connected };

    ghost view = { connected_of };

    ghost invariant = { λ connection. StandsForSome (connected_of connection) };
}

impl Connection {
    /// A connection with nothing written. It does not allocate. The overhead and the size of unknown messages
    /// are at most 65535 bytes.
    pub fn new(alloc: Global, marks: WaterMark, estimate: Estimate) -> Connection
        requires overhead { estimate.overhead ≤ greatest_overhead }
        requires unknown { estimate.unknown ≤ greatest_unknown }
        ensures settings { result.unsent.settings ≡ record { marks = marks; estimate = estimate } }
        ensures stands { StandsFor result [] }
        ensures room { room_in result ≡ 0 }
    {
        Connection {
            contents: Contents::new(alloc, marks, estimate),
            gone: 0,
            chunks: Chunks::new(alloc),
        }
    }

    /// Keeps memory for what waits and for no more: none if nothing waits. It cannot fail: if the allocator refuses a
    /// smaller block, the connection keeps the one that it has. For a connection that has sent all and is idle: each
    /// next write allocates anew. Our own; the name is Rust's.
    pub fn shrink_to_fit(&mut self)
        ensures { Shrinks self.old self.new }
    {
        self.contents.shrink_to_fit();
    }

    /// Notes where the newest entry lies, in its first word, for callers in C and Rust: they have the processor bring what
    /// lies behind it (`ffi/limekeel.h`). It changes nothing else.
    #[inline(always)]
    pub fn note_newest(&mut self)
        ensures { self.new ≡ self.old }
    {
        self.contents.note_newest();
    }

    /// Each connection stands for some list of accepted commands, so what its calls promise is promised of some list. It
    /// does nothing.
    pub fn stands_for_some_commands(&self)
        ensures { (commands : List Command) × StandsFor self.now commands }
    {
        let _gone = &self.gone;
    }

    /// How many writes were accepted, which is the id of the next one.
    fn accepted_writes(&self) -> u64
        ensures count { result ≡ accepted_writes self.now }
        ensures within { result ≤ most_ids }
    {
        self.gone + self.contents.count() as u64
    }

    /// Gives memory back that what waits does not need, as `Contents::give_back`. If nothing waits no chunk is kept.
    #[inline(always)]
    fn give_back(&mut self)
        ensures same { self.new ≡ roomed self.new self.old }
        ensures less { TakesNoRoom self.old self.new }
        ensures closed { self.old.unsent.closed ≡ true → waiting_count self.old.unsent ≡ 0 → room_in self.new ≡ 0 }
    {
        self.contents.give_back();
        if self.contents.count() == 0 {
            self.chunks.close();
        }
    }
}
