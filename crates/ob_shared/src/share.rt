ghost use Rattle.std.specs.Prelude.{◌≡◌, ◌+◌, ◌-◌, ◌<◌, ◌^◌, []};
ghost use Rattle.ob_shared.specs.Calls.{one_more, new_share, IsRead, sight_of};

use crate::named::Named;
use crate::reader::Reader;
use crate::shared_buffer::SharedBuffer;
use ob_history::Glance;
use std::marker::Model;
use std::sync::ledger;
use std::sync::ledger::Book;

/// What one caller of a shared buffer needs to make calls, and to read without the lock. Contracts see it as the caller,
/// with the number of records that it made, and what it has seen of the history.
#[derive(Drop)]
pub struct Share<L: Named> {
    caller: u32,
    made: u32,
    part: ledger::Share<L>,
    pub(crate) reader: Reader<L>,
}

impl<L: Named> Model for Share<L> {
    ghost use Rattle.std.specs.Prelude.{◌≡◌};
    ghost use Rattle.ob_shared.specs.Calls.{ShareValue};

    ghost Value = { ShareValue };

    ghost view = { λ share. record {
      maker = record { caller = share.caller; made = share.made };
      sight = share.reader;
    } };

    ghost invariant = { λ share. (share.part.parts ≡ 1) × (share.part.amount ≡ share.made) };
}

impl<L: Named> Share<L> {
    /// A share of a caller that has made no record and seen none.
    pub(crate) fn new(caller: u32, part: ledger::Share<L>, reader: Reader<L>) -> Share<L>
        requires part { part.parts ≡ 1 }
        requires none_made { part.amount ≡ 0 }
        requires none_seen { reader ≡ sight_of [] }
        ensures { result ≡ new_share caller }
    {
        Share {
            caller,
            made: 0,
            part,
            reader,
        }
    }

    /// The number of the caller, from 0. It does not allocate.
    pub fn caller(&self) -> u32
        ensures { result ≡ self.now.maker.caller }
    {
        self.caller
    }

    /// How many records were made with this share. It does not allocate.
    pub fn made(&self) -> u32
        ensures { result ≡ self.now.maker.made }
    {
        self.made
    }

    /// The word and the total after a history that begins with all that this share has seen: never older than what its
    /// caller's last desk left or its last glance showed, and perhaps older than another caller's newest record. One
    /// load; it does not allocate, and waits for nobody. Our own: Netty's `isWritable` may be older than what the
    /// thread itself has seen change.
    pub fn read(&mut self, buffer: &SharedBuffer<L>) -> Glance
        ensures read { IsRead L.opened.settings self.old.sight result self.new.sight }
        ensures same { self.new.maker ≡ self.old.maker }
    {
        self.reader.read(buffer)
    }

    /// A reader for whoever shall read beside this caller, as a watcher in another thread. It has seen what this share
    /// has. It does not allocate. Our own.
    pub fn reader(&mut self, buffer: &SharedBuffer<L>) -> Reader<L>
        ensures reader { result ≡ sight_of self.old.sight.seen }
        ensures same { self.new ≡ self.old }
    {
        self.reader.another(buffer.words())
    }

    /// Counts one record more, in the share and in the book.
    pub(crate) fn count(&mut self, book: &mut Book<L>)
        requires few { book.old.total < 2 ^ 32 - 1 }
        ensures made { self.new.maker ≡ one_more self.old.maker }
        ensures sight { self.new.sight ≡ self.old.sight }
        ensures book { book.new.total ≡ book.old.total + 1 }
    {
        let Share {
            caller: _,
            made,
            part,
            reader: _,
        } = self;
        book.audit(part);
        book.add(part, 1);
        *made += 1;
    }

    /// The share's part of the ledger, which has the number of its records, and its reader.
    pub(crate) fn into_parts(self) -> (ledger::Share<L>, Reader<L>)
        ensures one { result.0.parts ≡ 1 }
        ensures made { result.0.amount ≡ self.maker.made }
        ensures sight { result.1 ≡ self.sight }
    {
        (self.part, self.reader)
    }
}
