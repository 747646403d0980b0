//! The looks at a managed connection.

ghost use Rattle.std.specs.Prelude.{◌≡◌};
ghost use Rattle.ob_lifecycle.specs.Events.{is_finishing, was_over};
ghost use Rattle.ob_lifecycle.specs.Managed.{Gives};
ghost use Rattle.ob_lifecycle.specs.Strain.{numbers_after};

use super::ManagedConnection;
use crate::count::Count;
use crate::counted::pending_in;
use crate::numbers::Numbers;
use ob_connection::Connection;

impl ManagedConnection {
    /// The connection, for all its looks.
    pub fn connection(&self) -> &Connection
        ensures { result.now ≡ self.now.connection }
    {
        &self.connection
    }

    /// Whether the end was asked for.
    pub fn is_finishing(&self) -> bool
        ensures { Gives self.now (λ opened events. is_finishing events) result }
    {
        self.ending.asked
    }

    /// Whether the end was reached: a call has told it.
    pub fn is_finished(&self) -> bool
        ensures { Gives self.now was_over result }
    {
        self.ending.over
    }

    /// What was written, how it ended, how often and for how long writers were stopped, and the refusals. It goes over the flushed messages, and does not allocate.
    pub fn numbers(&self) -> Numbers
        ensures { Gives self.now numbers_after result }
    {
        let pending = pending_in(&self.connection);
        let tally = &self.tally;
        Numbers {
            accepted: tally.accepted,
            sent: Count {
                messages: tally.accepted.messages
                    - (tally.failed.messages + tally.cancelled.messages + pending.messages),
                bytes: tally.accepted.bytes
                    - (tally.failed.bytes + tally.cancelled.bytes + pending.bytes),
            },
            failed: tally.failed,
            cancelled: tally.cancelled,
            pending,
            peak: tally.peak,
            stops: self.strain.stops,
            stopped: self.strain.stopped,
            refusals: self.strain.refusals,
        }
    }
}
