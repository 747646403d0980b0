ghost use Rattle.std.specs.Prelude.{◌≡◌, IfOk, IfSome, IsOkUnless};
ghost use Rattle.ob_core.specs.Turn.{event_of, core_after, change_of};
ghost use Rattle.ob_core.specs.World.{start_fault, new_world};

mod looks;

use crate::ask::Turn;
use crate::ask_fault::AskFault;
use crate::event::Event;
use crate::lane::{Lane, find_lane, make_lanes};
use crate::lane_start::LaneStart;
use crate::start_fault::find_fault;
use crate::world_fault::WorldFault;
use ob_types::{Change, WaterMark};
use std::alloc::Global;
use std::marker::Model;

/// The one word of an outbound buffer, in its two halves, a total and a word of bits, and the lanes that change them.
///
/// A schedule gives the lanes their turns. In a turn a lane makes one atomic step on the one word, so what holds of a
/// `World` under every schedule holds of every interleaving. It is our own machine for what Netty does with
/// `totalPendingSize` and `unwritable`, and the oracle of the lanes on threads: these step by its definitions, and are
/// asked the same beside it. No program runs on it but `ob_tool core`.
///
/// A call of a lane is one turn, so no lane is ever in the middle of one: `quiet` is always true, and `Ask::Go` is always
/// refused. Both are for callers that give turns to machines of which that is not so.
#[derive(Debug, Drop)]
pub struct World {
    marks: WaterMark,
    total: u32,
    word: u32,
    lanes: Vec<Lane>,
    last_change: Option<Change>,
}

impl Model for World {
    ghost use Rattle.ob_core.specs.World.{WorldState};

    ghost Value = { WorldState };

    ghost use Rattle.ob_core.specs.Inside.{core_of, IsSound};

    ghost view = { λ world. record { core = core_of world; last_change = world.last_change } };

    ghost invariant = { λ world. IsSound (core_of world) };
}

impl World {
    /// A world whose lanes are numbered from 0 in the order given. The total and the word are 0, and no
    /// lane owes anything. The faults are asked in the order of `WorldFault`; `NoMemory` comes only if there is no
    /// other.
    pub fn new(alloc: Global, marks: WaterMark, starts: &[LaneStart]) -> Result<World, WorldFault>
        ensures fault { IfSome (start_fault starts.now) (λ fault. result ≡ Err fault) }
        ensures no_memory { start_fault starts.now ≡ None → IsOkUnless result WorldFault.NoMemory }
        ensures ok { IfOk result (λ world. world ≡ new_world marks starts.now) }
    {
        if let Some(fault) = find_fault(starts) {
            return Err(fault);
        }
        let lanes = make_lanes(alloc, starts)?;
        Ok(World {
            marks,
            total: 0,
            word: 0,
            lanes,
            last_change: None,
        })
    }

    /// Gives a lane its turn, and returns what it did. It does not allocate.
    ///
    /// A refused ask changes nothing but that there is no last change then. A charge of 0 and its discharge do not touch
    /// the word, and the lane counts as owing in between.
    pub fn turn(&mut self, turn: Turn) -> Event
        ensures event { result ≡ event_of self.old.core turn }
        ensures core { self.new.core ≡ core_after self.old.core turn }
        ensures change { self.new.last_change ≡ change_of self.old.core turn }
    {
        self.last_change = None;
        let Some(lane) = find_lane(&self.lanes, turn.lane) else {
            return Event::Refused(AskFault::UnknownLane);
        };
        if let Some(fault) = lane.refusal(turn.ask) {
            return Event::Refused(fault);
        }
        let index = turn.lane as usize;
        let Some(step) = lane.step(turn.ask) else {
            self.lanes[index] = lane.after_nothing(turn.ask);
            return Event::Nothing;
        };
        let before = self.word;
        self.word = step.word_after(self.marks, self.total, before);
        self.total = step.total_after(self.total);
        self.lanes[index] = step.lane_after(lane);
        self.last_change = Change::between(before, self.word);
        turn.ask.event()
    }
}
