ghost use Rattle.std.specs.Io.Slices.{io_slice_bytes};
ghost use Rattle.std.specs.Prelude.{◌≡◌, ◌≤◌, length, map, take, drop};
ghost use Rattle.ob_seq.specs.Looks.{blocks_left, first_blocks, with_bytes};
ghost use Rattle.ob_seq.specs.Unsent.{pending_entries};

use crate::contents::Contents;
use crate::contents::gather::has_room;
use crate::walk::Walk;
use ob_types::Message;
use std::io::IoSlice;

impl Contents {
    /// Puts the blocks in front into these pieces, from the first piece on, and returns how many they are: those that
    /// `gather` gives for as many as there are pieces. They are borrowed, so it does not allocate, and the other pieces
    /// stay as they were.
    pub fn gather_into<'a>(&'a self, pieces: &mut [IoSlice<'a>], max_bytes: u32) -> usize
        ensures blocks { map io_slice_bytes (take result pieces.new)
            ≡ first_blocks (length pieces.old) max_bytes (with_bytes (blocks_left (pending_entries self.now.line))) }
        ensures within { result ≤ length pieces.old }
        ensures rest { drop result pieces.new ≡ drop result pieces.old }
    {
        let mut count = 0;
        let mut room = u64::from(max_bytes);
        for entry in Walk::over(&self.entries, self.flushed) {
            let Message::Block(bytes) = &entry.message else {
                break;
            };
            let length = bytes.len() as u64;
            if length > 0 {
                if !has_room(count, pieces.len(), length, room) {
                    break;
                }
                pieces[count] = IoSlice::new(bytes.as_slice());
                count += 1;
                room = room.saturating_sub(length);
            }
        }
        count
    }
}
