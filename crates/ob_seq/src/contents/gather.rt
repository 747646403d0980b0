ghost use Rattle.std.specs.Prelude.{◌≡◌, ◌++◌, ◌∷◌, [], nat_le, nat_lt, ◌||◌, ◌&&◌, IfOk, IfErr, IsOk, OnOk};
ghost use Rattle.ob_seq.specs.Looks.{blocks_left, first_blocks, with_bytes};
ghost use Rattle.ob_seq.specs.Unsent.{pending_entries};

use crate::contents::Contents;
use crate::walk::Walk;
use bytes::Bytes;
use ob_types::{Message, Refusal};
use std::alloc::AllocError;

/// For how many blocks a list has room from its first one on.
const FIRST_ROOM: usize = 16;

impl Contents {
    /// The blocks in front that `Buffer::gather` gives. It allocates the list alone.
    pub fn gather(&self, max_count: u32, max_bytes: u32) -> Result<Vec<Bytes>, Refusal>
        ensures blocks { IfOk result (λ blocks. blocks.items
            ≡ first_blocks max_count max_bytes (with_bytes (blocks_left (pending_entries self.now.line)))) }
        ensures no_memory { IfErr result (λ refusal. refusal ≡ Refusal.NoMemory) }
        ensures frugal { first_blocks max_count max_bytes (with_bytes (blocks_left (pending_entries self.now.line))) ≡ []
            → IsOk result }
    {
        let mut gathered = Vec::new(*self.entries.allocator());
        let mut room = u64::from(max_bytes);
        for entry in Walk::over(&self.entries, self.flushed) {
            let Message::Block(bytes) = &entry.message else {
                break;
            };
            let length = bytes.len() as u64;
            if length > 0 {
                if !has_room(gathered.len(), max_count as usize, length, room) {
                    break;
                }
                push_copy(&mut gathered, bytes)?;
                room = room.saturating_sub(length);
            }
        }
        Ok(gathered)
    }
}

/// Adds a block that shares its memory with this one. With the first comes room for some more, so that a list of usual
/// length is not moved while it grows.
fn push_copy(gathered: &mut Vec<Bytes>, bytes: &Bytes) -> Result<(), AllocError>
    ensures { OnOk result (gathered.new.items ≡ gathered.old.items ++ bytes.now ∷ []) }
{
    let copy = bytes.clone()?;
    if gathered.is_empty() {
        gathered.reserve(FIRST_ROOM)?;
    }
    Ok(gathered.push(copy)?)
}

/// Whether one more block goes along with `count` others, which left this much room: the first does in any case.
pub(super) fn has_room(count: usize, max_count: usize, length: u64, room: u64) -> bool
    ensures { result ≡ (nat_lt count max_count && (nat_le count 0 || nat_le length room)) }
{
    count < max_count && (length <= room || is_first(count))
}

/// Whether no block goes before this one.
// Few blocks find no room: apart, the others are not tested for it.
#[cold]
#[inline(never)]
fn is_first(count: usize) -> bool
    ensures { result ≡ nat_le count 0 }
{
    count == 0
}
