use crate::event::Event;

/// What a lane is asked to do.
///
/// Our own choice: each is one call of a writer that shares the one word with others.
#[derive(Clone, Copy, Debug, PartialEq, Eq)]
pub enum Ask {
    /// Adds *n* bytes to the total (Netty's `incrementPendingOutboundBytes`). The lane owes them from then on. Bit 0 of
    /// the word is set in the same step if the total is above the high mark then.
    Charge(u32),
    /// Takes the bytes that the lane owes off the total (Netty's `decrementPendingOutboundBytes`). Bit 0 of the word is
    /// cleared in the same step if the total is below the low mark then.
    Discharge,
    /// Sets a user bit of index 1 to 31 if the flag is false, and clears it if it is true
    /// (Netty's `setUserDefinedWritability`).
    Bit(u32, bool),
    /// Reads the word.
    Word,
    /// Reads the total.
    Total,
    /// Goes on with the call that the lane is in the middle of: always refused with `NotInside`, as `World` says.
    Go,
}

impl Ask {
    ghost use Rattle.std.specs.Prelude.{◌≡◌};
    ghost use Rattle.ob_core.specs.Turn.{event_of_ask};

    /// The event of a turn if its ask is a step.
    pub(crate) fn event(self) -> Event
        ensures { result ≡ event_of_ask self }
    {
        match self {
            Ask::Charge(_) => Event::Added,
            Ask::Discharge => Event::Subtracted,
            Ask::Bit(_, false) => Event::BitSet,
            Ask::Bit(_, true) => Event::BitCleared,
            Ask::Word => Event::ReadWord,
            Ask::Total => Event::ReadTotal,
            Ask::Go => Event::Nothing,
        }
    }
}

/// One turn of a schedule: a lane, counted from 0, and what it is asked.
#[derive(Clone, Copy, Debug, PartialEq, Eq)]
pub struct Turn {
    /// Which lane has the turn, in the order in which the lanes were given.
    pub lane: u32,
    /// What it is asked.
    pub ask: Ask,
}
