//! Bells, at which handles wait.
ghost use Rattle.std.specs.Prelude.{◌≡◌, ◌<◌};
ghost use Rattle.ob_connection.specs.Connected.{Gives};
ghost use Rattle.ob_shared_connection.specs.Ruled.{bell_word};
ghost use Rattle.ob_shared_connection.specs.Values.{moment_after};

use crate::moment::Moment;
use crate::patience::Patience;
use crate::rule::{WORK, WRITERS};
use ob_connection::Connection;

/// Who waits at a bell. It stands in contracts alone.
pub enum Waiter {
    /// A handle that waits until it may write.
    Writer,
    /// The transport, which waits until it has something to send.
    Sender,
}

/// A word of the table at which handles wait.
pub trait Bell {
    ghost use Rattle.ob_shared_connection.specs.declared.bell.Waiter.{Waiter};

    /// Who waits there.
    ghost waiter: { Waiter };

    /// Which word it is.
    fn word() -> usize
        ensures is { result ≡ bell_word waiter }
        ensures within { result < 6 };

    /// For how long who waits there leaves the lock to others.
    fn patience() -> Patience;

    /// What who waits there finds now.
    fn moment(connection: &Connection) -> Moment
        ensures { Gives connection.now (moment_after waiter) result };
}

/// The bell of those who wait until they may write.
pub struct Writers;

impl Bell for Writers {
    ghost use Rattle.ob_shared_connection.specs.declared.bell.Waiter.TheVariants.{Writer};

    ghost waiter = { Writer };

    fn word() -> usize {
        WRITERS
    }

    fn patience() -> Patience {
        Patience::Short
    }

    fn moment(connection: &Connection) -> Moment {
        if connection.is_closed() {
            return Moment::Closed;
        }
        if connection.is_writable() {
            Moment::Ready
        } else {
            Moment::NotYet
        }
    }
}

/// The bell of the transport, which waits for flushed messages.
pub struct Work;

impl Bell for Work {
    ghost use Rattle.ob_shared_connection.specs.declared.bell.Waiter.TheVariants.{Sender};

    ghost waiter = { Sender };

    fn word() -> usize {
        WORK
    }

    fn patience() -> Patience {
        Patience::Long
    }

    fn moment(connection: &Connection) -> Moment {
        if !connection.is_empty() {
            return Moment::Ready;
        }
        if connection.is_closed() {
            Moment::Closed
        } else {
            Moment::NotYet
        }
    }
}
