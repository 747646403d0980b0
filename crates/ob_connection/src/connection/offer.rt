//! A socket is offered what stands in front.

ghost use Rattle.std.specs.Io.Slices.{io_slice_bytes};
ghost use Rattle.std.specs.List.{concat};
ghost use Rattle.std.specs.Prelude.{◌≡◌, ◌≤◌, length, take, map, min};
ghost use Rattle.ob_connection.specs.Calls.{calls_with, had_no_room, most_pieces, with_more};
ghost use Rattle.ob_connection.specs.Inside.{answer_of, bytes_taken, Offers};

use crate::connection::Connection;
use crate::socket::{Socket, SocketFault};
use std::io;
use std::io::IoSlice;

/// How many pieces a socket is offered at once, at most: what one call of Linux takes.
const MOST_PIECES: usize = 1024;

/// For how many pieces there is room if no more messages are flushed, or no more pieces are wanted.
const FEW_PIECES: usize = 64;

/// What a socket made of an offer.
#[derive(Clone, Copy, Debug)]
pub enum Offer {
    /// There was nothing to offer, so it was not asked.
    Nothing,
    /// It took *n* bytes.
    Took(u64),
    /// It has no room now.
    Blocked,
    /// It is broken, with its own error.
    Broken(io::Error),
}

impl Offer {
    /// How many bytes the socket took.
    pub fn bytes(self) -> u64
        ensures { result ≡ bytes_taken self }
    {
        match self {
            Offer::Took(bytes) => bytes,
            Offer::Nothing | Offer::Blocked | Offer::Broken(_) => 0,
        }
    }

    /// Whether the socket was asked and has no room now.
    pub fn is_blocked(self) -> bool
        ensures { result ≡ had_no_room (answer_of self) }
    {
        match self {
            Offer::Took(bytes) => bytes == 0,
            Offer::Blocked => true,
            Offer::Nothing | Offer::Broken(_) => false,
        }
    }
}

impl Connection {
    /// Offers a socket the blocks in front, at most `max_count` of them and at most 1024, and together at most
    /// `max_bytes` bytes, but the first however long it is. It does not allocate.
    pub(super) fn offer<S: Socket>(&self, socket: &mut S, max_count: u32, max_bytes: u32) -> Offer
        ensures { Offers (min most_pieces max_count) max_bytes self.now.unsent (S.sent socket.old)
            (S.calls socket.old) result (S.sent socket.new) (S.calls socket.new) }
    {
        if self.contents.line_count().min(max_count as usize) <= FEW_PIECES {
            self.offer_few(socket, max_count, max_bytes)
        } else {
            self.offer_many(socket, max_count, max_bytes)
        }
    }

    /// The same, if at most 64 messages are flushed, or `max_count` is at most 64.
    fn offer_few<S: Socket>(&self, socket: &mut S, max_count: u32, max_bytes: u32) -> Offer
        requires { min (length self.now.unsent.line) max_count ≤ 64 }
        ensures { Offers (min most_pieces max_count) max_bytes self.now.unsent (S.sent socket.old)
            (S.calls socket.old) result (S.sent socket.new) (S.calls socket.new) }
    {
        let mut pieces = [IoSlice::new(&[]); FEW_PIECES];
        self.offer_at_most(socket, &mut pieces, max_count, max_bytes)
    }

    /// The same, whatever is flushed.
    // Its pieces take 16 KiB of the stack, for which a sending of a few messages is not to pay.
    #[inline(never)]
    fn offer_many<S: Socket>(&self, socket: &mut S, max_count: u32, max_bytes: u32) -> Offer
        ensures { Offers (min most_pieces max_count) max_bytes self.now.unsent (S.sent socket.old)
            (S.calls socket.old) result (S.sent socket.new) (S.calls socket.new) }
    {
        let mut pieces = [IoSlice::new(&[]); MOST_PIECES];
        self.offer_at_most(socket, &mut pieces, max_count, max_bytes)
    }

    /// The same by at most `max_count` of these pieces.
    fn offer_at_most<'a, S: Socket>(
        &'a self,
        socket: &mut S,
        pieces: &mut [IoSlice<'a>],
        max_count: u32,
        max_bytes: u32,
    ) -> Offer
        ensures { Offers (min (length pieces.old) max_count) max_bytes self.now.unsent (S.sent socket.old)
            (S.calls socket.old) result (S.sent socket.new) (S.calls socket.new) }
    {
        let most = pieces.len().min(max_count as usize);
        self.offer_by(socket, &mut pieces[..most], max_bytes)
    }

    /// The same by these pieces.
    fn offer_by<'a, S: Socket>(
        &'a self,
        socket: &mut S,
        pieces: &mut [IoSlice<'a>],
        max_bytes: u32,
    ) -> Offer
        ensures { Offers (length pieces.old) max_bytes self.now.unsent (S.sent socket.old) (S.calls socket.old) result
            (S.sent socket.new) (S.calls socket.new) }
    {
        let count = self.contents.gather_into(pieces, max_bytes);
        if count == 0 {
            return Offer::Nothing;
        }
        ask(socket, &pieces[..count])
    }
}

/// Lets a socket take of some pieces.
fn ask<S: Socket>(socket: &mut S, pieces: &[IoSlice<'_>]) -> Offer
    ensures asked { ¬ (result ≡ Offer.Nothing) }
    ensures within { bytes_taken result ≤ length (concat (map io_slice_bytes pieces.now)) }
    ensures sent { S.sent socket.new
        ≡ with_more (S.sent socket.old) (take (bytes_taken result) (concat (map io_slice_bytes pieces.now))) }
    ensures calls { S.calls socket.new
        ≡ with_more (S.calls socket.old) (calls_with (map io_slice_bytes pieces.now) (answer_of result)) }
{
    match socket.write_vectored(pieces) {
        Ok(bytes) => Offer::Took(bytes as u64),
        Err(SocketFault::Blocked) => Offer::Blocked,
        Err(SocketFault::Broken(error)) => Offer::Broken(error),
    }
}
