ghost use Rattle.std.specs.Prelude.{◌≡◌};
ghost use Rattle.ob_connection.specs.Connected.{waiting_status};

use ob_types::{Outcome, PromiseState};

/// What a connection reports of a promise.
#[derive(Clone, Copy, Debug, PartialEq, Eq)]
pub enum Status {
    /// It may still be cancelled.
    Waiting,
    /// A flush has fixed it: it can no longer be cancelled.
    Fixed,
    /// It is settled, and its message still stands in the connection: it was cancelled.
    Settled(Outcome),
    /// It is settled, and its message is gone. The call that took it away reported the outcome, which is kept nowhere.
    SettledBefore,
}

impl Status {
    /// What is reported of the promise of a message that waits.
    pub(crate) fn of(state: PromiseState) -> Status
        ensures { result ≡ waiting_status state }
    {
        match state {
            PromiseState::Waiting => Status::Waiting,
            PromiseState::Fixed => Status::Fixed,
            PromiseState::Settled(outcome) => Status::Settled(outcome),
        }
    }
}
