//! Whether what lanes are granted makes a world, or why not.

ghost use Rattle.std.specs.Prelude.{◌≡◌, ◌<◌, ◌≤◌, length, map};
ghost use Rattle.ob_core.specs.World.{most_lanes, start_fault, room_of, any_overlap, holders_of};

use crate::bits::MARK_BIT;
use crate::lane_start::LaneStart;
use crate::world_fault::WorldFault;

/// The most lanes of a world. Our own limit.
const MAX_LANES: usize = 64;

/// The most bytes that all lanes of a world may owe together, so that the total fits a u32. Our own limit.
const MAX_ROOM: u64 = 4294967295;

/// Why these lanes make no world, if they make none.
pub fn find_fault(starts: &[LaneStart]) -> Option<WorldFault>
    ensures { result ≡ start_fault starts.now }
{
    if starts.is_empty() || starts.len() > MAX_LANES {
        return Some(WorldFault::BadCount);
    }
    if total_room(starts) > MAX_ROOM {
        return Some(WorldFault::TooMuchRoom);
    }
    if has_bit_twice(starts) {
        return Some(WorldFault::BitsTwice);
    }
    None
}

/// The rooms of the lanes together.
fn total_room(starts: &[LaneStart]) -> u64
    requires { length starts.now ≤ most_lanes }
    ensures { result ≡ room_of starts.now }
{
    starts.iter().map(|start| u64::from(start.room)).sum()
}

/// Whether a bit is held twice. The mark counts as a holder of bit 0.
fn has_bit_twice(starts: &[LaneStart]) -> bool
    ensures { result ≡ any_overlap (holders_of (map (λ start. start.bits) starts.now)) }
{
    let mut taken: u32 = 1 << MARK_BIT;
    for start in starts {
        if taken & start.bits != 0 {
            return true;
        }
        taken |= start.bits;
    }
    false
}
