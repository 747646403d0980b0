ghost use Rattle.std.specs.Prelude.{◌≡◌, ◌+◌, [], ◌∷◌, None, IfSome, IfOk, IfErr, IsOk, IsErrAnd};
ghost use Rattle.ob_lanes.specs.Calls.{split_fault, IsSplit};

use super::Lane;
use crate::fault::SplitFault;
use crate::running::Running;
use crate::words::Words;
use std::marker::Brand;

impl Lane {
    /// Gives this much of the room, and these bits, to a new lane. The bits go as they are, set or not.
    ///
    /// `NoRoom` comes if the lane has less room, and then `NotHeld` if it does not hold one of the bits; both hand
    /// the lane back as it was. The new lane has made no step, and has seen what this one had.
    pub fn split(
        self,
        words: &Words,
        room: u32,
        bits: u32,
    ) -> Result<(Lane, Lane), (Lane, SplitFault)>
        requires { self.words ≡ words.now }
        ensures refused { IfSome (split_fault self.lane room bits) (λ fault.
            IsErrAnd result (λ refused. (refused.0 ≡ self) × (refused.1 ≡ fault))) }
        ensures split { split_fault self.lane room bits ≡ None → IsOk result }
        ensures words { IfOk result (λ lanes. (lanes.0.words ≡ self.words) × (lanes.1.words ≡ self.words)) }
        ensures parts { IfOk result (λ lanes. IsSplit room bits self.lane lanes.0.lane lanes.1.lane) }
        ensures made { IfOk result (λ lanes. (lanes.0.made ≡ self.made) × (lanes.1.made ≡ [])) }
        ensures names { IfOk result (λ lanes. (lanes.0.name ≡ self.name) × (lanes.1.name ≡ self.splits ∷ self.name)) }
        ensures splits { IfOk result (λ lanes. (lanes.0.splits ≡ self.splits + 1) × (lanes.1.splits ≡ 0)) }
        ensures taken { IfOk result (λ lanes. (lanes.0.taken ≡ self.taken) × (lanes.1.taken ≡ [])) }
        ensures seen { IfOk result (λ lanes. (lanes.0.seen ≡ self.seen) × (lanes.1.seen ≡ self.seen)) }
    {
        if room > self.running.room {
            return Err((self, SplitFault::NoRoom));
        }
        if self.running.held | bits != self.running.held {
            return Err((self, SplitFault::NotHeld));
        }
        let Lane { mut running } = self;
        let given = Running {
            seat: words.divide_seat::<Brand>(&mut running.seat, room, bits),
            room,
            held: bits,
            last: running.last,
        };
        running.room -= room;
        running.held ^= bits;
        Ok((Lane { running }, Lane { running: given }))
    }
}
