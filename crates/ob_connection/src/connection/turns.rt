//! One turn of a sending.

ghost use Rattle.std.specs.List.{concat};
ghost use Rattle.std.specs.Prelude.{◌≡◌, ◌≤◌, ◌<◌, ◌+◌, length, take, false};
ghost use Rattle.ob_seq.specs.Effect.{bytes_in};
ghost use Rattle.ob_seq.specs.Steps.Commands.{whole_cut};
ghost use Rattle.ob_connection.specs.Inside.{Becomes, removed, answer_of, bytes_taken, EndsAt, IsLeft, run_of};
ghost use Rattle.ob_connection.specs.Calls.{answers_in, with_more};
ghost use Rattle.ob_connection.specs.Sending.{AsksInTurns, EndsWithin};
ghost use Rattle.ob_connection.specs.Connected.{TakesNoRoom};

use crate::connection::Connection;
use crate::connection::offer::Offer;
use crate::ending::Ending;
use crate::socket::Socket;

impl Connection {
    /// Offers a socket the blocks in front, takes away what it took, and returns how many bytes these were, and how a
    /// sending ends that makes no further turn.
    pub(super) fn send_turn<S: Socket>(&mut self, socket: &mut S, max_bytes: u32) -> (u64, Ending)
        requires { self.old.unsent.closed ≡ false }
        ensures becomes { Becomes (removed result.0) self.old self.new }
        ensures gone { self.new.gone ≡ self.old.gone + (whole_cut result.0 (run_of self.old.unsent)).whole }
        ensures within { result.0 ≤ bytes_in (run_of self.old.unsent) }
        ensures sent { S.sent socket.new
            ≡ with_more (S.sent socket.old) (take result.0 (concat (run_of self.old.unsent))) }
        ensures asks { AsksInTurns (IsLeft max_bytes self.old) 1 result.0 (S.calls socket.old) result.1
            (S.calls socket.new) }
        ensures ends { EndsAt self.new.unsent result.1 }
        ensures still_open { self.new.unsent.closed ≡ false }
        ensures room { TakesNoRoom self.old self.new }
    {
        let offer = self.offer(socket, u32::MAX, max_bytes);
        let bytes = offer.bytes();
        self.take_bytes(bytes);
        (bytes, self.ending_after(offer))
    }

    /// Takes *n* bytes off the blocks in front.
    fn take_bytes(&mut self, n: u64)
        requires open { self.old.unsent.closed ≡ false }
        requires few { n ≤ bytes_in (run_of self.old.unsent) }
        ensures becomes { Becomes (removed n) self.old self.new }
        ensures gone { self.new.gone ≡ self.old.gone + (whole_cut n (run_of self.old.unsent)).whole }
        ensures still_open { self.new.unsent.closed ≡ false }
        ensures room { TakesNoRoom self.old self.new }
    {
        let Some(cut) = self.contents.find_cut(n) else {
            unreachable!();
        };
        self.take_cut(cut);
    }

    /// How a sending ends that makes no further turn after one that had this offer.
    fn ending_after(&self, offer: Offer) -> Ending
        requires nothing { offer ≡ Offer.Nothing → bytes_in (run_of self.now.unsent) ≡ 0 }
        requires left { ¬ (offer ≡ Offer.Nothing) → bytes_taken offer ≡ 0 → 0 < length self.now.unsent.line }
        ensures left { EndsAt self.now.unsent result }
        ensures asked { EndsWithin 1 (answers_in (answer_of offer)) result }
    {
        let is_drained = self.contents.line_count() == 0;
        match offer {
            Offer::Nothing if is_drained => Ending::Drained,
            Offer::Nothing => Ending::OtherInFront,
            Offer::Took(bytes) if bytes == 0 => Ending::Blocked,
            Offer::Took(_) if is_drained => Ending::Drained,
            Offer::Took(_) => Ending::TurnsUsed,
            Offer::Blocked => Ending::Blocked,
            Offer::Broken(error) => Ending::Broken(error),
        }
    }
}
