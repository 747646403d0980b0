ghost use Rattle.std.specs.Prelude.{◌≡◌, false, [], IfOk, IsOkUnless};
ghost use Rattle.ob_core.specs.World.{is_set};
ghost use Rattle.ob_lanes.specs.Run.{first_lane};

use crate::grant::Grant;
use crate::lane::Lane;
use crate::running::Running;
use crate::words::Words;
use atomic_table::Table;
use ob_types::{Refusal, WaterMark};
use std::alloc::Global;

/// The one word, and the lane that has the whole room and all bits. It owes nothing and has set no bit, so what it
/// reads first is a total of 0, and a word that shows none of its bits.
///
/// `room` is the most bytes that all lanes together may owe at a time, and `bits` the mask of the user bits, with an
/// index of 1 to 31 each. `NoMemory` comes only if the allocator refuses; no later call allocates.
pub fn lanes(
    alloc: Global,
    marks: WaterMark,
    room: u32,
    bits: u32,
) -> Result<(Words, Lane), Refusal>
    requires { is_set bits 0 ≡ false }
    ensures no_memory { IsOkUnless result Refusal.NoMemory }
    ensures words { IfOk result (λ ok. ok.0.grant ≡ record { marks = marks; room = room; bits = bits }) }
    ensures lane { IfOk result (λ ok. ok.1 ≡ record {
      words = ok.0;
      lane = first_lane ok.0.grant;
      made = [];
      seen = [];
      name = [];
      splits = 0;
      taken = [];
    }) }
{
    let grant = Grant { marks, room, bits };
    let (table, seat) = Table::of_words(alloc, &[0; 16], &grant)?;
    let words = Words { table, grant };
    let running = Running {
        seat,
        room,
        held: bits,
        last: Some(0),
    };
    Ok((words, Lane { running }))
}
