//! Each command as an act.
ghost use Rattle.std.specs.Prelude.{◌≡◌, false, ⊤, [], ◌∷◌};
ghost use Rattle.ob_types.specs.declared.command.Command.TheVariants as command;
ghost use Rattle.ob_types.specs.declared.promise.Outcome.TheVariants.{Success, Failed};
ghost use Rattle.ob_connection.specs.Obeying.{flushed_reply, removed_reply, taken_reply, cancelled_reply, bit_reply};
ghost use Rattle.ob_connection.specs.Obeying.{done_reply};
ghost use Rattle.ob_shared_connection.specs.Calls.{AlwaysCovered, ComesBackUncovered, GivingUp, ObeyingFreely, Taking, TakingQuietly};
ghost use Rattle.ob_shared_connection.specs.Calls.{Writing, giving_up};

use crate::act::Act;
use crate::lacking::{bytes_added, room_lacks};
use crate::not_written::{NotWritten, WriteFault};
use ob_connection::{Connection, Flushed, Refused, Removed, Taken, Written};
use ob_types::{Cause, Change, Message, Refusal, WaterMark};

#[derive(Drop)]
pub struct Write(pub Message);

impl Act for Write {
    type Answer = Written;

    type Fault = NotWritten;

    ghost commands = { λ act. command.Write act.0 ∷ [] };

    ghost does = { λ act. Writing act.0 };

    ghost uncovered = { ComesBackUncovered };

    fn adds(&self, connection: &Connection) -> u64 {
        bytes_added(connection, &self.0)
    }

    fn act(self, connection: &mut Connection, room: Option<u64>) -> Result<Written, NotWritten> {
        if room_lacks(connection, &self.0, room) {
            return Err(NotWritten {
                why: WriteFault::Uncovered,
                message: self.0,
            });
        }
        match connection.write(self.0) {
            Ok(written) => Ok(written),
            Err(Refused { refusal, message }) => Err(NotWritten {
                why: WriteFault::Refused(refusal),
                message,
            }),
        }
    }
}

#[derive(Drop)]
pub struct Flush;

impl Act for Flush {
    type Answer = Flushed;

    type Fault = Refusal;

    ghost commands = { λ _. command.Flush ∷ [] };

    ghost does = { λ _. ObeyingFreely flushed_reply command.Flush };

    ghost uncovered = { AlwaysCovered };

    fn adds(&self, _connection: &Connection) -> u64 {
        0
    }

    fn act(self, connection: &mut Connection, _room: Option<u64>) -> Result<Flushed, Refusal> {
        connection.flush()
    }
}

#[derive(Drop)]
pub struct Remove;

impl Act for Remove {
    type Answer = Removed;

    type Fault = Refusal;

    ghost commands = { λ _. command.Remove ∷ [] };

    ghost does = { λ _. ObeyingFreely removed_reply command.Remove };

    ghost uncovered = { AlwaysCovered };

    fn adds(&self, _connection: &Connection) -> u64 {
        0
    }

    fn act(self, connection: &mut Connection, _room: Option<u64>) -> Result<Removed, Refusal> {
        connection.remove()
    }
}

#[derive(Drop)]
pub struct RemoveWith(pub Cause);

impl Act for RemoveWith {
    type Answer = Removed;

    type Fault = Refusal;

    ghost commands = { λ act. command.RemoveWith act.0 ∷ [] };

    ghost does = { λ act. ObeyingFreely removed_reply (command.RemoveWith act.0) };

    ghost uncovered = { AlwaysCovered };

    fn adds(&self, _connection: &Connection) -> u64 {
        0
    }

    fn act(self, connection: &mut Connection, _room: Option<u64>) -> Result<Removed, Refusal> {
        connection.remove_with(self.0)
    }
}

#[derive(Drop)]
pub struct TakeSent(pub u64);

impl Act for TakeSent {
    type Answer = Taken;

    type Fault = Refusal;

    ghost commands = { λ act. command.RemoveBytes act.0 ∷ [] };

    ghost does = { λ act. Taking Success (command.RemoveBytes act.0) };

    ghost uncovered = { AlwaysCovered };

    fn adds(&self, _connection: &Connection) -> u64 {
        0
    }

    fn act(self, connection: &mut Connection, _room: Option<u64>) -> Result<Taken, Refusal> {
        connection.take_sent(self.0)
    }
}

#[derive(Drop)]
pub struct Progress(pub u64);

impl Act for Progress {
    type Answer = ();

    type Fault = Refusal;

    ghost commands = { λ act. command.Progress act.0 ∷ [] };

    ghost does = { λ act. ObeyingFreely done_reply (command.Progress act.0) };

    ghost uncovered = { AlwaysCovered };

    fn adds(&self, _connection: &Connection) -> u64 {
        0
    }

    fn act(self, connection: &mut Connection, _room: Option<u64>) -> Result<(), Refusal> {
        connection.progress(self.0)
    }
}

#[derive(Drop)]
pub struct Cancel(pub u64);

impl Act for Cancel {
    type Answer = bool;

    type Fault = Refusal;

    ghost commands = { λ act. command.Cancel (record { 0 = act.0 }) ∷ [] };

    ghost does = { λ act. ObeyingFreely (cancelled_reply act.0) (command.Cancel (record { 0 = act.0 })) };

    ghost uncovered = { AlwaysCovered };

    fn adds(&self, _connection: &Connection) -> u64 {
        0
    }

    fn act(self, connection: &mut Connection, _room: Option<u64>) -> Result<bool, Refusal> {
        connection.cancel(self.0)
    }
}

#[derive(Drop)]
pub struct FailFlushed(pub Cause, pub bool);

impl Act for FailFlushed {
    type Answer = Taken;

    type Fault = Refusal;

    ghost commands = { λ act. command.FailFlushed act.0 act.1 ∷ [] };

    ghost does = { λ act. TakingQuietly (Failed act.0) (act.1 ≡ false) (command.FailFlushed act.0 act.1) };

    ghost uncovered = { AlwaysCovered };

    fn adds(&self, _connection: &Connection) -> u64 {
        0
    }

    fn act(self, connection: &mut Connection, _room: Option<u64>) -> Result<Taken, Refusal> {
        connection.fail_flushed(self.0, self.1)
    }
}

#[derive(Drop)]
pub struct Close(pub Cause);

impl Act for Close {
    type Answer = Taken;

    type Fault = Refusal;

    ghost commands = { λ act. command.Close act.0 ∷ [] };

    ghost does = { λ act. TakingQuietly (Failed act.0) ⊤ (command.Close act.0) };

    ghost uncovered = { AlwaysCovered };

    fn adds(&self, _connection: &Connection) -> u64 {
        0
    }

    fn act(self, connection: &mut Connection, _room: Option<u64>) -> Result<Taken, Refusal> {
        connection.close(self.0)
    }
}

#[derive(Drop)]
pub struct GiveUp(pub Cause);

impl Act for GiveUp {
    type Answer = Taken;

    type Fault = Refusal;

    ghost commands = { λ act. giving_up act.0 };

    ghost does = { λ act. GivingUp act.0 };

    ghost uncovered = { AlwaysCovered };

    fn adds(&self, _connection: &Connection) -> u64 {
        0
    }

    fn act(self, connection: &mut Connection, _room: Option<u64>) -> Result<Taken, Refusal> {
        connection.give_up(self.0)
    }
}

#[derive(Drop)]
pub struct UserBit(pub u32, pub bool);

impl Act for UserBit {
    type Answer = Option<Change>;

    type Fault = Refusal;

    ghost commands = { λ act. command.UserBit act.0 act.1 ∷ [] };

    ghost does = { λ act. ObeyingFreely bit_reply (command.UserBit act.0 act.1) };

    ghost uncovered = { AlwaysCovered };

    fn adds(&self, _connection: &Connection) -> u64 {
        0
    }

    fn act(
        self,
        connection: &mut Connection,
        _room: Option<u64>,
    ) -> Result<Option<Change>, Refusal> {
        connection.user_bit(self.0, self.1)
    }
}

#[derive(Drop)]
pub struct SetMarks(pub WaterMark);

impl Act for SetMarks {
    type Answer = ();

    type Fault = Refusal;

    ghost commands = { λ act. command.SetMarks act.0 ∷ [] };

    ghost does = { λ act. ObeyingFreely done_reply (command.SetMarks act.0) };

    ghost uncovered = { AlwaysCovered };

    fn adds(&self, _connection: &Connection) -> u64 {
        0
    }

    fn act(self, connection: &mut Connection, _room: Option<u64>) -> Result<(), Refusal> {
        connection.set_marks(self.0)
    }
}
