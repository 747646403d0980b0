ghost use Rattle.std.specs.Prelude.{◌≡◌, ◌++◌, ◌∷◌};
ghost use Rattle.ob_lanes.specs.Calls.{IsJoined};

use super::Lane;
use crate::words::Words;
use std::marker::Brand;

impl Lane {
    /// One lane with the room and the bits of both, set as they were. Its own steps are those of the first lane.
    ///
    /// The rooms of two lanes never add up to more than the whole room. The next step of the lane comes after all that
    /// both had seen.
    pub fn join(self, words: &Words, other: Lane) -> Lane
        requires words { self.words ≡ words.now }
        requires other { other.words ≡ words.now }
        ensures words { result.words ≡ self.words }
        ensures lane { IsJoined self.words.grant.room self.lane other.lane result.lane }
        ensures made { result.made ≡ self.made }
        ensures name { (result.name ≡ self.name) × (result.splits ≡ self.splits) }
        ensures taken { result.taken ≡ self.taken ++ (record { name = other.name; made = other.made }) ∷ other.taken }
        ensures seen { result.seen ≡ self.seen ++ other.seen }
    {
        let Lane { mut running } = self;
        let Lane { running: other } = other;
        words.merge_seats::<Brand>(&mut running.seat, other.seat);
        let rooms = running.room.saturating_add(other.room);
        running.room = rooms.min(words.grant.room);
        running.held |= other.held;
        // the rooms of both: with the total that it found they may come to more than there is
        running.last = None;
        Lane { running }
    }
}
