ghost use Rattle.std.specs.Prelude.{◌≡◌, ◌+◌, ◌%◌, map, IfOk};
ghost use Rattle.std.specs.Option.{ForSome};
ghost use Rattle.std.specs.List.{range_with_len};
ghost use Rattle.ob_cli.specs.Run.{block_bytes};

use bytes::Bytes;
use std::alloc::{AllocError, Global};

/// How many bytes a block has at most that shares its memory with others.
const MAX_SHARED: u64 = 4096;

/// How many bytes the shared ones are: as many as a block has at most, from any first byte on.
const SHARED: u64 = 4351;

/// Makes the blocks of a script. Those of at most 4096 bytes are parts of the same bytes, and take no memory of their
/// own.
#[derive(Drop)]
pub struct Blocks {
    /// Bytes that count up from 0, once a block was asked for.
    counting: Option<Bytes>,
    ghost counted: { ForSome counting (λ bytes. bytes ≡ block_bytes 0 4351) },
}

impl Blocks {
    /// Before the first block.
    pub fn new() -> Blocks {
        Blocks { counting: None }
    }

    /// A script's block of *n* bytes, which count up from the first one, and from 255 on to 0.
    pub fn block(&mut self, alloc: Global, first: u8, size: u64) -> Result<Bytes, AllocError>
        ensures { IfOk result (λ bytes. bytes ≡ block_bytes first size) }
    {
        if size > MAX_SHARED {
            return block(alloc, first, size);
        }
        let start = usize::from(first);
        self.shared(alloc)?.slice(start..start + size as usize)
    }

    /// The bytes that count up from 0, made if there are none yet.
    fn shared(&mut self, alloc: Global) -> Result<&Bytes, AllocError>
        ensures { IfOk result (λ bytes. bytes.now ≡ block_bytes 0 4351) }
    {
        if self.counting.is_none() {
            self.counting = Some(block(alloc, 0, SHARED)?);
        }
        match &self.counting {
            Some(bytes) => Ok(bytes),
            // it was made just now, if it was not there
            None => unreachable!(),
        }
    }
}

/// A block whose memory is its own.
fn block(alloc: Global, first: u8, size: u64) -> Result<Bytes, AllocError>
    ensures { IfOk result (λ bytes. bytes ≡ block_bytes first size) }
{
    let bytes = counted_up(alloc, first, size)?;
    Ok(Bytes::from_vec(bytes)?)
}

/// *n* bytes, counted up from the first one.
fn counted_up(alloc: Global, first: u8, size: u64) -> Result<Vec<u8>, AllocError>
    ensures { IfOk result (λ bytes. bytes.items ≡ map (λ k. (first + k % 256) % 256) (range_with_len 0 size)) }
{
    (0..size)
        .map(|k| first.wrapping_add((k % 256) as u8))
        .collect(alloc)
}
