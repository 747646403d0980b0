ghost use Rattle.std.specs.Prelude.{◌≡◌, false, []};
ghost use Rattle.ob_history.specs.History.{IsLegal};
ghost use Rattle.ob_shared.specs.Published.{IsReader};
ghost use Rattle.ob_shared.specs.Calls.{IsRead, Sight, sight_of};

use crate::named::Named;
use crate::rule::View;
use crate::shared_buffer::SharedBuffer;
use crate::words::Words;
use atomic_table::Seat;
use ob_history::{Glance, a_history_keeps_to_the_limits};
use ob_types::unpack;
use std::marker::{Model, PhantomData};

/// Reads the word and the total of a shared buffer without its lock: for a writer that wants to know whether it may go
/// on, or for a watcher. It may go to another thread. Contracts see the records that it has seen, and what its reads found.
///
/// Each share has a reader of its own (`Share::read`); `Share::reader` gives more of them.
#[derive(Drop)]
pub struct Reader<L: Named> {
    seat: Seat<(), View>,
    of: PhantomData<L>,
}

impl<L: Named> Model for Reader<L> {
    ghost Value = { Sight };

    ghost view = { λ reader. record { seen = reader.seat.me.0.seen; reads = reader.seat.me.0.reads } };

    ghost invariant = { λ reader. IsReader L.opened reader.seat };
}

impl<L: Named> Reader<L> {
    /// A reader with this seat.
    pub(crate) fn new(seat: Seat<(), View>) -> Reader<L>
        requires { IsReader L.opened seat }
        ensures seen { result.seen ≡ seat.me.0.seen }
        ensures reads { result.reads ≡ seat.me.0.reads }
    {
        Reader {
            seat,
            of: PhantomData,
        }
    }

    /// The word and the total after a history that begins with all that this reader had seen: never older than its last
    /// glance or look, and perhaps older than another caller's newest record. One load; it does not allocate, and waits
    /// for nobody. Our own: Netty's readers look at two fields, and race.
    pub fn read(&mut self, buffer: &SharedBuffer<L>) -> Glance
        ensures { IsRead L.opened.settings self.old result self.new }
    {
        // for the proof alone: the total is below 2^32
        a_history_keeps_to_the_limits();
        let (word, total) = unpack(buffer.words().read(&mut self.seat));
        Glance { word, total }
    }

    /// Another reader, which has seen what this one has.
    pub(crate) fn another(&mut self, words: &Words<L>) -> Reader<L>
        ensures another { result ≡ sight_of self.old.seen }
        ensures same { self.new ≡ self.old }
    {
        words.reader(&mut self.seat)
    }

    /// The seat of the reader.
    pub(crate) fn into_seat(self) -> Seat<(), View>
        ensures reader { IsReader L.opened result }
        ensures seen { result.me.0.seen ≡ self.seen }
    {
        self.seat
    }
}
