ghost use Rattle.std.specs.Prelude.{◌≡◌, ◌≤◌, ℕ, false, true, [], IfErr, IfOk, OnOk, Some, option_map};
ghost use Rattle.std.specs.Box.{box_value};

mod bells;
mod locking;

use crate::carried::Carried;
use crate::ended::Ended;
use crate::handle::TooManyHandles;
use crate::plays::{
    Accepted, Appoint, Cut, Find, List, Name, Publish, Published, Read, Resign, Take,
};
use crate::rule::{FREE, GIVEN, GIVEN_OUT, LOCK, Opened, PUBLISHED, ROLE, Rule, VACANT, WORDS};
use crate::view::View;
use atomic_table::{Refused, Table};
use ob_connection::Connection;
use ob_covered::Cover;
use std::alloc::Global;
use std::marker::Brand;

/// What one handle steps with. It has no bytes.
pub type Seat = atomic_table::Seat<Carried, View>;

/// The table that all handles of a connection share: the lock is one of its words, and the connection lies in its slot.
#[derive(Drop)]
pub struct Shared {
    pub table: Table<Carried, View, Opened, Rule, Global>,
    ghost words: { table.shared.table_id.words ≡ 6 },
    ghost slots: { table.shared.table_id.slots ≡ 1 },
}

impl Shared {
    ghost use Rattle.ob_types.specs.Limits.{greatest_overhead, greatest_unknown};
    ghost use Rattle.ob_shared_connection.specs.Ruled.{both_views, first_view, named_view, new_view, resigned_view};
    ghost use Rattle.ob_shared_connection.specs.Ruled.{sending_view, sharing_view, shown_view, view_with, within_of};
    ghost use Rattle.ob_shared_connection.specs.Ruled.{IsSeatOf, IsSameSeat};
    ghost use Rattle.ob_shared_connection.specs.Values.{budget_of, commands_by, MayGive};
    ghost use Rattle.ob_shared_connection.specs.Steps.{HasLock, IsEndOf, IsNow, Reads, Rests};

    /// A table with a connection that has nothing written, and its first seat; the cover comes back if there is no memory.
    pub fn new(
        alloc: Global,
        opened: Opened,
        cover: Option<Box<Cover, Global>>,
    ) -> Result<(Shared, Seat), Option<Box<Cover, Global>>>
        requires overhead { opened.estimate.overhead ≤ greatest_overhead }
        requires unknown { opened.estimate.unknown ≤ greatest_unknown }
        requires budget { budget_of (option_map (λ held. box_value held) cover) ≡ within_of opened }
        ensures seat { IfOk result (λ made. IsSeatOf made.0 made.1) }
        ensures me { IfOk result (λ made. made.1.me ≡ (first_view opened, [])) }
        ensures back { IfErr result (λ back. back ≡ cover) }
    {
        let connection = Connection::new(alloc, opened.marks, opened.estimate);
        let _look = connection.look();
        let mut slots = Vec::new(alloc);
        if let Err(refused) = slots.push(Carried { connection, cover }) {
            return Err(refused.value.cover);
        }
        let words: [u64; WORDS] = [FREE, 1, 0, 0, 0, 0];
        match Table::new(alloc, &words, slots, &opened) {
            Ok((table, seat)) => Ok((Shared { table }, seat)),
            Err(Refused { mut slots }) => match slots.pop() {
                Some(carried) => Err(carried.cover),
                None => Err(None),
            },
        }
    }

    /// The same within a budget, under this cover.
    pub fn covered(alloc: Global, opened: Opened, cover: Cover) -> Result<(Shared, Seat), Cover>
        requires overhead { opened.estimate.overhead ≤ greatest_overhead }
        requires unknown { opened.estimate.unknown ≤ greatest_unknown }
        requires budget { Some cover.seat.budget ≡ within_of opened }
        ensures seat { IfOk result (λ made. IsSeatOf made.0 made.1) }
        ensures me { IfOk result (λ made. made.1.me ≡ (first_view opened, [])) }
        ensures back { IfErr result (λ back. back ≡ cover) }
    {
        let cover = match Box::new(alloc, cover) {
            Ok(cover) => cover,
            Err(refused) => return Err(refused.value),
        };
        match Shared::new(alloc, opened, Some(cover)) {
            Ok(made) => Ok(made),
            Err(Some(cover)) => Err(Box::into_inner(cover)),
            // a cover went in, so one comes back
            Err(None) => unreachable!(),
        }
    }

    /// Publishes the glance after all calls.
    #[inline(always)]
    pub fn publish(&self, seat: &mut Seat, number: u64)
        requires table { IsSeatOf self.now seat.old }
        requires lock { HasLock seat.old.me }
        requires now { IsNow seat.old.me.0 number }
        ensures seat { IsSameSeat seat.old seat.new }
        ensures me { seat.new.me ≡ (shown_view seat.old.me.0, seat.old.me.1) }
    {
        // a store costs more than a load
        if !self.is_published::<Brand>(seat, number) {
            self.table.shared.store::<Publish>(seat, PUBLISHED, number);
        }
    }

    /// Whether the glance after all calls is published already.
    #[inline(always)]
    fn is_published<N: Published>(&self, seat: &mut Seat, number: u64) -> bool
        requires table { IsSeatOf self.now seat.old }
        requires lock { HasLock seat.old.me }
        requires now { IsNow seat.old.me.0 number }
        requires number { N.number ≡ number }
        ensures seat { IsSameSeat seat.old seat.new }
        ensures shown { result ≡ true → seat.new.me ≡ (shown_view seat.old.me.0, seat.old.me.1) }
        ensures other { result ≡ false → seat.new.me ≡ seat.old.me }
    {
        self.table.shared.load::<Find<N>>(seat, PUBLISHED) == number
    }

    /// Reads what is published. One load.
    pub fn read(&self, seat: &mut Seat) -> u64
        requires table { IsSeatOf self.now seat.old }
        requires free { seat.old.me.0.holds ≡ false }
        ensures seat { IsSameSeat seat.old seat.new }
        ensures reads { Reads seat.old.me result seat.new.me }
    {
        self.table.shared.load::<Read>(seat, PUBLISHED)
    }

    /// Puts commands that were just accepted behind the list. It is for the proof alone: no word changes.
    #[inline(always)]
    pub fn list<C: Accepted>(&self, seat: &mut Seat)
        requires table { IsSeatOf self.now seat.old }
        requires lock { HasLock seat.old.me }
        requires may { MayGive seat.old.me.0.sends C.commands }
        ensures seat { IsSameSeat seat.old seat.new }
        ensures me { seat.new.me ≡ (view_with C.commands seat.old.me.0, seat.old.me.1) }
    {
        let _found = self.table.shared.load::<List<C>>(seat, LOCK);
    }

    /// Has the seat that has the lock send from now on, if nobody does.
    pub fn appoint(&self, seat: &mut Seat) -> bool
        requires table { IsSeatOf self.now seat.old }
        requires lock { HasLock seat.old.me }
        ensures seat { IsSameSeat seat.old seat.new }
        ensures sends { result ≡ true → seat.new.me ≡ (sending_view seat.old.me.0, seat.old.me.1) }
        ensures kept { result ≡ false → seat.new.me ≡ seat.old.me }
    {
        self.table.shared.swap::<Appoint>(seat, ROLE, GIVEN_OUT) == VACANT
    }

    /// Has the seat that sends do so no more: nobody does then.
    pub fn resign(&self, seat: &mut Seat)
        requires table { IsSeatOf self.now seat.old }
        requires sends { seat.old.me.0.sends ≡ true }
        ensures seat { IsSameSeat seat.old seat.new }
        ensures me { seat.new.me ≡ (resigned_view seat.old.me.0, seat.old.me.1) }
    {
        self.table.shared.store::<Resign>(seat, ROLE, VACANT);
    }

    /// A new seat, which has seen what this one has, gets half of its share, and has no number yet.
    fn cut(&self, seat: &mut Seat) -> Seat
        requires table { IsSeatOf self.now seat.old }
        requires there { seat.old.me.0.spent ≡ false }
        requires free { seat.old.me.0.holds ≡ false }
        ensures seat { IsSameSeat seat.old seat.new }
        ensures me { seat.new.me ≡ (sharing_view seat.old.me.0, seat.old.me.1) }
        ensures other { IsSeatOf self.now result }
        ensures given { result.me ≡ (new_view (sharing_view seat.old.me.0), []) }
    {
        self.table.shared.split_seat::<Cut>(seat)
    }

    /// Gives a new seat its number, and counts its handle.
    fn name(&self, seat: &mut Seat) -> Result<(), TooManyHandles>
        requires table { IsSeatOf self.now seat.old }
        requires new { seat.old.me ≡ (new_view seat.old.me.0, []) }
        ensures seat { IsSameSeat seat.old seat.new }
        ensures named { OnOk result (seat.new.me ≡ (named_view seat.new.me.0.caller seat.old.me.0, [])) }
        ensures own { OnOk result (commands_by seat.new.me.0.caller seat.old.me.0.seen ≡ []) }
    {
        let mut given = self.table.shared.peek(GIVEN);
        'tries: for _ in 0..u64::MAX {
            if given == u64::MAX {
                return Err(TooManyHandles);
            }
            let found = self
                .table
                .shared
                .compare_exchange::<Name>(seat, GIVEN, given, given + 1);
            if found == given {
                return Ok(());
            }
            given = found;
        }
        Err(TooManyHandles)
    }

    /// The seat of another handle, which has seen what this one has.
    pub fn another(&self, seat: &mut Seat) -> Result<Seat, TooManyHandles>
        requires table { IsSeatOf self.now seat.old }
        requires rests { Rests seat.old.me }
        ensures seat { IsSameSeat seat.old seat.new }
        ensures me { seat.new.me ≡ (sharing_view seat.old.me.0, seat.old.me.1) }
        ensures other { IfOk result (λ other. IsSeatOf self.now other) }
        ensures given { IfOk result (λ other.
            other.me ≡ (named_view other.me.0.caller (new_view (sharing_view seat.old.me.0)), [])) }
        ensures own { IfOk result (λ other. commands_by other.me.0.caller seat.old.me.0.seen ≡ []) }
    {
        let mut other = self.cut(seat);
        self.name(&mut other)?;
        Ok(other)
    }

    /// Takes another seat in, which had seen a beginning of all that this one has seen then. It is for the proof alone: no
    /// word changes.
    pub fn take(&self, seat: &mut Seat, other: Seat)
        requires table { IsSeatOf self.now seat.old }
        requires rests { Rests seat.old.me }
        requires other { IsSeatOf self.now other }
        requires other_rests { Rests other.me }
        ensures seat { IsSameSeat seat.old seat.new }
        ensures reads { (found : ℕ) × Reads (both_views seat.old.me.0 other.me.0, seat.old.me.1) found seat.new.me }
    {
        self.table.shared.join_seat::<Take>(seat, other);
        let _found = self.table.shared.load::<Read>(seat, PUBLISHED);
    }

    /// Gives the memory of the table back, and what lies in it.
    pub fn end(self, seat: Seat) -> Ended
        requires table { IsSeatOf self seat }
        requires rests { Rests seat.me }
        ensures { IsEndOf seat.me.0 result }
    {
        let Shared { table } = self;
        let mut closed = table.close_with(seat);
        let is_left = closed.word(LOCK) == FREE;
        let handles = closed.word(GIVEN);
        let carried = closed.take(0);
        closed.free();
        let (connection, cover) = carried.into_parts();
        Ended {
            connection,
            cover,
            handles,
            is_left,
        }
    }
}
