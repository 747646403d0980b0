//! The memory that copied messages share.

ghost use Rattle.std.specs.Prelude.{◌≡◌, ◌+◌, ◌≤◌, ◌++◌, length, box_value, IfOk};
ghost use Rattle.ob_connection.specs.Obeying.{joined};

use bytes::{Bytes, BytesMut};
use std::alloc::{AllocError, Global};
use std::marker::Model;
use std::mem;

/// The longest message that shares a chunk, in bytes. A longer one takes memory of its own, so that a chunk ends with
/// little unused.
const LONGEST: usize = 2048;

/// How large the first chunk is at least, in bytes.
const FIRST: usize = 1024;

/// How large a chunk is at most, in bytes.
const LARGEST: usize = 16384;

/// How many messages wait at least when the next one begins the first chunk, if little was copied before: few would pay for one.
const SHARING: usize = 4;

/// A block of memory that messages are copied into, one behind the other: each message is a part of it, and it lives as
/// long as the last of them.
#[derive(Debug, Drop)]
struct Chunk {
    /// What is left of it. It holds no byte between two calls: each message takes its own.
    rest: BytesMut,
    /// How large it was.
    size: usize,
}

impl Model for Chunk {
    ghost use Rattle.std.specs.Prelude.{◌≡◌, ℕ, []};

    ghost Value = { ℕ };

    ghost view = { λ chunk. chunk.rest.spare };

    ghost invariant = { λ chunk. chunk.rest.items ≡ [] };
}

impl Chunk {
    /// A chunk of this size.
    fn new(alloc: Global, size: usize) -> Result<Chunk, AllocError>
        ensures { IfOk result (λ chunk. size ≤ chunk) }
    {
        Ok(Chunk {
            rest: BytesMut::with_capacity(alloc, size)?,
            size,
        })
    }

    /// How many bytes it has room for.
    fn room(&self) -> usize
        ensures { result ≡ self.now }
    {
        self.rest.capacity()
    }

    /// How many bytes were copied into it.
    fn used(&self) -> usize {
        self.size.saturating_sub(self.room())
    }

    /// Copies these bytes into it.
    fn copy(&mut self, bytes: &[u8]) -> Result<Bytes, AllocError>
        requires { length bytes.now ≤ self.old }
        ensures { IfOk result (λ block. block ≡ bytes.now) }
    {
        self.rest.extend_reserved(bytes);
        let block = self.rest.freeze_to(bytes.len());
        if block.is_err() {
            self.rest.truncate(0);
        }
        block
    }

    /// Copies these parts into it, one behind the other, of `count` bytes together.
    fn copy_parts(&mut self, parts: &[&[u8]], count: usize) -> Result<Bytes, AllocError>
        requires fits { count ≤ self.old }
        requires count { count ≡ length (joined parts.now) }
        ensures { IfOk result (λ block. block ≡ joined parts.now) }
    {
        fill(&mut self.rest, parts);
        let block = self.rest.freeze_to(count);
        if block.is_err() {
            self.rest.truncate(0);
        }
        block
    }
}

/// The chunk that the next messages are copied into, if there is one. A contract sees nothing of it: what a message is
/// does not depend on where its bytes lie.
#[derive(Debug, Drop)]
pub struct Chunks {
    open: Option<Box<Chunk>>,
    /// How many bytes the chunks before this one took since nothing waited. While there is none: how many they took before that,
    /// which is how large the next one is to be, since a server's answers to one request are about as long as to the last.
    burst: usize,
    alloc: Global,
}

impl Chunks {
    /// None yet. It does not allocate.
    pub fn new(alloc: Global) -> Chunks {
        Chunks {
            open: None,
            burst: 0,
            alloc,
        }
    }

    /// Lets the chunk go: it lives on for the messages that share it.
    pub fn close(&mut self) {
        if let Some(chunk) = self.open.take() {
            self.add_to_burst(chunk.used());
        }
    }

    /// A copy of these bytes as a block, while as many messages wait: in a chunk if they are few bytes and other messages share it,
    /// and else in memory of its own.
    pub fn copy(&mut self, bytes: &[u8], waiting: usize) -> Result<Bytes, AllocError>
        ensures { IfOk result (λ block. block ≡ bytes.now) }
    {
        if bytes.len() > LONGEST || !self.are_shared(waiting) {
            return Bytes::copy_from_slice(self.alloc, bytes);
        }
        let mut chunk = self.with_room(bytes.len())?;
        let block = chunk.copy(bytes);
        self.open = Some(chunk);
        block
    }

    /// A copy of these parts as one block, one behind the other, of `count` bytes together, while as many messages wait.
    pub fn copy_parts(
        &mut self,
        parts: &[&[u8]],
        count: usize,
        waiting: usize,
    ) -> Result<Bytes, AllocError>
        requires { count ≡ length (joined parts.now) }
        ensures { IfOk result (λ block. block ≡ joined parts.now) }
    {
        if count > LONGEST || !self.are_shared(waiting) {
            return Chunk::new(self.alloc, count)?.copy_parts(parts, count);
        }
        let mut chunk = self.with_room(count)?;
        let block = chunk.copy_parts(parts, count);
        self.open = Some(chunk);
        block
    }

    /// Whether a message that is copied while as many wait shares a chunk.
    fn are_shared(&self, waiting: usize) -> bool {
        waiting >= SHARING || self.open.is_some() || self.burst >= FIRST
    }

    /// The chunk that is open, if it has room for `count` bytes, and else a new one.
    fn with_room(&mut self, count: usize) -> Result<Box<Chunk>, AllocError>
        ensures { IfOk result (λ chunk. count ≤ box_value chunk) }
    {
        let size = match self.open.take() {
            Some(chunk) if chunk.room() >= count => return Ok(chunk),
            Some(chunk) => {
                self.add_to_burst(chunk.used());
                chunk.size.saturating_mul(2)
            }
            None => mem::replace(&mut self.burst, 0).max(FIRST),
        };
        larger(self.alloc, size, count)
    }

    /// Counts what a chunk took that is no longer open.
    fn add_to_burst(&mut self, used: usize) {
        self.burst = self.burst.saturating_add(used).min(LARGEST);
    }
}

/// A chunk of this size, but with room for `count` bytes at least, and no larger than a chunk may be otherwise.
fn larger(alloc: Global, size: usize, count: usize) -> Result<Box<Chunk>, AllocError>
    ensures { IfOk result (λ chunk. count ≤ box_value chunk) }
{
    Ok(Box::new(alloc, Chunk::new(alloc, size.min(LARGEST).max(count))?)?)
}

/// Copies these parts behind what is there, for which there is room.
fn fill(rest: &mut BytesMut, parts: &[&[u8]])
    requires { length (joined parts.now) ≤ rest.old.spare }
    ensures items { rest.new.items ≡ rest.old.items ++ joined parts.now }
    ensures spare { rest.new.spare + length (joined parts.now) ≡ rest.old.spare }
{
    for part in parts {
        rest.extend_reserved(part);
    }
}
