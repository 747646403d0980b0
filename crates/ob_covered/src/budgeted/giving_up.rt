ghost use Rattle.std.specs.Prelude.{◌≡◌, is_err, IfErr, IfOk, OnErr, OnOk};
ghost use Rattle.ob_seq.specs.State.{closed_after};
ghost use Rattle.ob_connection.specs.Obeying.{GivesUp};
ghost use Rattle.ob_connection.specs.Connected.{room_in, Gives};
ghost use Rattle.ob_covered.specs.Budgeted.{IsThrifty};
ghost use Rattle.ob_covered.specs.Cover.{Tells};

use super::Budgeted;
use super::settled::settled;
use crate::fault::Told;
use ob_connection::Taken;
use ob_types::{Cause, Refusal};

impl Budgeted {
    /// As `Connection::give_up`. What its seat held goes back, but for two quanta at most: `retire` gives back these too.
    pub fn give_up(&mut self, cause: Cause) -> Told<Result<Taken, Refusal>>
        ensures gives_up { IfOk result.answer (λ taken. GivesUp self.old.connection cause taken self.new.connection) }
        ensures open { Gives self.old.connection closed_after (is_err result.answer) }
        ensures refused { OnErr result.answer (self.new.connection ≡ self.old.connection) }
        ensures closed { IfErr result.answer (λ refusal. refusal ≡ Refusal.Closed) }
        ensures room { OnOk result.answer (room_in self.new.connection ≡ 0) }
        ensures told { Tells self.old.cover result.pressure self.new.cover }
        ensures thrifty { IsThrifty self.old self.new }
    {
        self.connection.stands_for_some_commands();
        let answer = self.connection.give_up(cause);
        settled(&self.connection, &mut self.cover, answer)
    }
}
