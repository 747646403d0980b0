ghost use Rattle.std.specs.Prelude.{◌≡◌, true, false, []};
ghost use Rattle.ob_history.specs.History.{IsBeginning, IsLegal, glance_after};
ghost use Rattle.ob_shared.specs.Published.{Reads, publishing, reading};
ghost use Rattle.ob_shared.specs.Calls.{packed_glance, sight_of};

use crate::named::Named;
use crate::reader::Reader;
use crate::rule::{Cut, Learn, PUBLISHED, Publish, Read, Records, Rule, Take, View};
use atomic_table::{Seat, Table};
use ob_history::Recorded;
use ob_types::{Estimate, WaterMark, pack};
use std::alloc::Global;
use std::marker::{Brand, Model, PhantomData};
use std::mem;

/// The published word, beside the lock: the word and the total after the last record, in one number. Threads share it
/// by reference.
#[derive(Drop)]
pub struct Words<L: Named> {
    table: Table<(), View, (WaterMark, Estimate), Rule, Global>,
    of: PhantomData<L>,
    ghost table_is: { table.shared.table_id ≡ L.opened.table },
    ghost marks_are: { table.shared.key.0 ≡ L.opened.settings.marks },
    ghost estimate_is: { table.shared.key.1 ≡ L.opened.settings.estimate },
    ghost words: { table.shared.table_id.words ≡ 16 },
}

impl<L: Named> Words<L> {
    /// The words that were opened under the name.
    pub fn new(table: Table<(), View, (WaterMark, Estimate), Rule, Global>) -> Words<L>
        requires table { table.shared.table_id ≡ L.opened.table }
        requires marks { table.shared.key.0 ≡ L.opened.settings.marks }
        requires estimate { table.shared.key.1 ≡ L.opened.settings.estimate }
        requires words { table.shared.table_id.words ≡ 16 }
    {
        Words {
            table,
            of: PhantomData,
        }
    }

    /// Publishes the glance after the last record, of a history that begins with all that this seat has seen, and returns
    /// its number. One store, or one load if that is the number which this seat published last: a store has to wait for
    /// all that was written before.
    pub fn publish<E: Records>(
        &self,
        seat: &mut Seat<(), View>,
        recorded: &Recorded,
        last: u64,
    ) -> u64
        requires table { seat.old.table_id ≡ L.opened.table }
        requires publishes { seat.old.me.0.publishes ≡ true }
        requires longer { IsBeginning seat.old.me.0.seen recorded.now.records }
        requires settings { recorded.now.settings ≡ L.opened.settings }
        requires records { E.records ≡ recorded.now.records }
        requires last { last ≡ packed_glance (glance_after L.opened.settings seat.old.me.0.seen) }
        ensures table { seat.new.table_id ≡ seat.old.table_id }
        ensures me { seat.new.me ≡ (publishing recorded.now.records [], seat.old.me.1) }
        ensures legal { IsLegal L.opened.settings recorded.now.records }
        ensures number { result ≡ packed_glance (glance_after L.opened.settings recorded.now.records) }
    {
        // for the proof alone: the records are legal
        let _records = recorded.records();
        let glance = recorded.glance();
        let number = pack(glance.word, glance.total);
        if number == last {
            self.table.shared.load::<Publish<E>>(seat, PUBLISHED);
            return number;
        }
        self.table
            .shared
            .store::<Publish<E>>(seat, PUBLISHED, number);
        number
    }

    /// Reads what is published. One load.
    pub fn read(&self, seat: &mut Seat<(), View>) -> u64
        requires table { seat.old.table_id ≡ L.opened.table }
        requires reads { seat.old.me.0.publishes ≡ false }
        ensures table { seat.new.table_id ≡ seat.old.table_id }
        ensures told { Reads L.opened.settings seat.old.me result seat.new.me }
    {
        self.table.shared.load::<Read<L>>(seat, PUBLISHED)
    }

    /// A reader with a new seat, which has seen what this one has. It costs a load.
    pub fn reader(&self, seat: &mut Seat<(), View>) -> Reader<L>
        requires table { seat.old.table_id ≡ L.opened.table }
        requires legal { IsLegal L.opened.settings seat.old.me.0.seen }
        ensures table { seat.new.table_id ≡ seat.old.table_id }
        ensures me { seat.new.me ≡ seat.old.me }
        ensures reader { result ≡ sight_of seat.old.me.0.seen }
    {
        Reader::new(self.cut(seat))
    }

    /// A new seat that reads, and has seen what this one has. It costs a load.
    fn cut(&self, seat: &mut Seat<(), View>) -> Seat<(), View>
        requires table { seat.old.table_id ≡ L.opened.table }
        ensures table { seat.new.table_id ≡ seat.old.table_id }
        ensures me { seat.new.me ≡ seat.old.me }
        ensures other { result.table_id ≡ seat.old.table_id }
        ensures given { result.me ≡ (reading seat.old.me.0.seen [], []) }
    {
        self.table.shared.split_seat::<Cut>(seat)
    }

    /// Joins a seat to the one that publishes, which learns that what the other had seen is a beginning of what it has
    /// seen itself. The join costs a load, and so does the learning.
    pub fn take(&self, seat: &mut Seat<(), View>, other: Seat<(), View>)
        requires table { seat.old.table_id ≡ L.opened.table }
        requires publishes { seat.old.me.0.publishes ≡ true }
        requires other { other.table_id ≡ L.opened.table }
        requires reads { other.me.0.publishes ≡ false }
        requires slots { other.me.1 ≡ [] }
        ensures table { seat.new.table_id ≡ seat.old.table_id }
        ensures publishes { seat.new.me.0.publishes ≡ true }
        ensures seen { seat.new.me.0.seen ≡ seat.old.me.0.seen }
        ensures part { IsBeginning other.me.0.seen seat.old.me.0.seen }
    {
        self.table.shared.join_seat::<Take>(seat, other);
        self.table.shared.load::<Learn>(seat, PUBLISHED);
    }
}

/// The one seat that publishes, which lies under the lock. Contracts see the records after which it published last.
#[derive(Drop)]
pub struct Publisher<L: Named> {
    seat: Seat<(), View>,
    /// The number that is published.
    number: u64,
    of: PhantomData<L>,
}

impl<L: Named> Model for Publisher<L> {
    ghost use Rattle.std.specs.Prelude.{List};
    ghost use Rattle.ob_history.specs.declared.record.Record.{Record};
    ghost use Rattle.ob_shared.specs.Published.{HasPublished};

    ghost Value = { List Record };

    ghost view = { λ publisher. publisher.seat.me.0.seen };

    ghost invariant = { λ publisher. HasPublished L.opened publisher.seat publisher.number };
}

impl<L: Named> Publisher<L> {
    /// The first seat of the words that were opened, with the number that is published then.
    pub fn new(seat: Seat<(), View>, number: u64) -> Publisher<L>
        requires table { seat.table_id ≡ L.opened.table }
        requires me { seat.me ≡ (publishing [] [], []) }
        requires number { number ≡ packed_glance (glance_after L.opened.settings []) }
        ensures { result ≡ [] }
    {
        Publisher {
            seat,
            number,
            of: PhantomData,
        }
    }

    /// Publishes the glance after the last record of a history that begins with what was published before.
    pub fn publish(&mut self, words: &Words<L>, recorded: &Recorded)
        requires longer { IsBeginning self.old recorded.now.records }
        requires settings { recorded.now.settings ≡ L.opened.settings }
        ensures { self.new ≡ recorded.now.records }
    {
        self.number = words.publish::<Brand>(&mut self.seat, recorded, self.number);
    }

    /// A reader that has seen all that was published.
    pub fn reader(&mut self, words: &Words<L>) -> Reader<L>
        ensures reader { result ≡ sight_of self.old }
        ensures same { self.new ≡ self.old }
    {
        words.reader(&mut self.seat)
    }

    /// Takes in a reader, which had seen a beginning of what was published.
    pub fn take(&mut self, words: &Words<L>, reader: Reader<L>)
        ensures part { IsBeginning reader.seen self.old }
        ensures same { self.new ≡ self.old }
    {
        words.take(&mut self.seat, reader.into_seat());
    }

    /// A meeting under the lock: the reader has seen all that was published, and had seen a beginning of it.
    pub fn meet(&mut self, words: &Words<L>, reader: &mut Reader<L>)
        ensures met { reader.new ≡ sight_of self.old }
        ensures part { IsBeginning reader.old.seen self.old }
        ensures same { self.new ≡ self.old }
    {
        let fresh = self.reader(words);
        let old = mem::replace(reader, fresh);
        self.take(words, old);
    }
}
