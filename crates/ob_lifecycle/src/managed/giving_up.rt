ghost use Rattle.std.specs.Prelude.{◌≡◌, is_err, IfErr, IfOk, OnErr, OnOk};
ghost use Rattle.ob_seq.specs.State.{closed_after};
ghost use Rattle.ob_connection.specs.Obeying.{GivesUp};
ghost use Rattle.ob_connection.specs.Connected.{room_in, Gives};
ghost use Rattle.ob_lifecycle.specs.Events.{giving_up_happens};
ghost use Rattle.ob_lifecycle.specs.Managed.{Brings};

use super::ManagedConnection;
use crate::fault::Told;
use crate::{changes, counted};
use ob_connection::Taken;
use ob_types::{Cause, Refusal};

impl ManagedConnection {
    /// As `Connection::give_up`. After `finish` it is what to do at a deadline: the promise of each message that is left
    /// fails, once, and the end is reached.
    pub fn give_up(&mut self, cause: Cause) -> Told<Result<Taken, Refusal>>
        ensures gives_up { IfOk result.answer (λ taken. GivesUp self.old.connection cause taken self.new.connection) }
        ensures open { Gives self.old.connection closed_after (is_err result.answer) }
        ensures refused { OnErr result.answer (self.new.connection ≡ self.old.connection) }
        ensures closed { IfErr result.answer (λ refusal. refusal ≡ Refusal.Closed) }
        ensures room { OnOk result.answer (room_in self.new.connection ≡ 0) }
        ensures brings { Brings self.old (giving_up_happens cause result.answer) result.finished self.new }
    {
        let answer = counted::give_up(&mut self.connection, &mut self.tally, cause);
        self.ending
            .watch
            .after(answer.is_ok(), 0, self.connection.is_empty());
        self.strain.told(changes::of_taking(&answer));
        let finished = self.ending.reach(self.connection.waiting_count());
        Told { answer, finished }
    }
}
