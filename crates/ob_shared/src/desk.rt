ghost use Rattle.std.specs.Prelude.{◌≡◌, ◌<◌, OnOk, OnErr, vec_capacity, vec_len};
ghost use Rattle.std.specs.Sync.Mutex.{mutex_guard_value};
ghost use Rattle.ob_history.specs.History.{next_record, KeepsReceipt, IsBeginning, IsCall, IsRecording, IsReservation};
ghost use Rattle.ob_history.specs.History.{IsBufferOf, AreGivenSince, IsLookAt};
ghost use Rattle.ob_shared.specs.Calls.{one_more, share_after, IsAsOpened};

use crate::locked::Locked;
use crate::named::Named;
use crate::rung::Owed;
use crate::share::Share;
use crate::shared_buffer::SharedBuffer;
use ob_history::{Booked, Receipt, Seen};
use ob_seq::Buffer;
use ob_types::{Command, Refusal};
use std::marker::Model;
use std::sync::MutexGuard;

/// A shared buffer in the hands of one caller, who has the lock until the desk is left: the guard of a mutex, with the
/// caller's share in it. Contracts see the history under the lock, and the caller.
///
/// Hold it for the calls that belong together, and do nothing meanwhile that waits: all other callers wait for it. A
/// desk that is dropped lets the lock go too, but its share is lost, and the buffer can no longer be finished.
pub struct Desk<'b, L: Named> {
    shared: &'b SharedBuffer<L>,
    locked: MutexGuard<'b, Locked<L>>,
    share: Share<L>,
    /// Whether a call at this desk settled something, so that those who wait have to look.
    owed: Owed,
}

impl<'b, L: Named> Model for Desk<'b, L> {
    ghost use Rattle.std.specs.Sync.Mutex.{mutex_guard_value};
    ghost use Rattle.ob_shared.specs.Calls.{Held};

    ghost Value = { Held };

    ghost view = { λ desk. record {
      history = mutex_guard_value desk.locked;
      maker = desk.share.maker;
    } };
}

impl<'b, L: Named> Desk<'b, L> {
    /// A desk with the lock that was just taken. Its share meets the history.
    pub(crate) fn new(
        shared: &'b SharedBuffer<L>,
        guard: MutexGuard<'b, Locked<L>>,
        share: Share<L>,
    ) -> Desk<'b, L>
        ensures history { result.history ≡ mutex_guard_value guard.entry }
        ensures maker { result.maker ≡ share.maker }
        ensures part { IsBeginning share.sight.seen result.history.records }
        ensures opened { IsAsOpened L.opened result.history }
    {
        let mut guard = guard;
        let mut share = share;
        guard.is_as_opened();
        guard.meet(shared.words(), &mut share);
        Desk {
            shared,
            locked: guard,
            share,
            owed: Owed::nothing(),
        }
    }

    /// What is pending now, and how many calls are recorded. It does not allocate.
    pub fn look(&self) -> Seen
        ensures { IsLookAt self.now.history result }
    {
        self.locked.look()
    }

    /// Makes a call, as `call` does, and puts its receipt behind others, in a place that is there for it: for who keeps
    /// many, since a receipt is large, and so it is made where it stays. Our own.
    ///
    /// `HistoryFull` and `NoMemory` come as in `call`, and leave all as it was, the receipts too.
    // in one piece with its callers, so that the command is not passed through memory
    #[inline(always)]
    pub fn keep(&mut self, command: Command, receipts: &mut Vec<Receipt>) -> Result<(), Refusal>
        requires { vec_len receipts.old < vec_capacity receipts.old }
        ensures is_recording { IsRecording self.old.history self.old.maker.caller command result self.new.history }
        ensures kept { KeepsReceipt (next_record self.old.history self.old.maker.caller command)
            receipts.old.items receipts.new.items result }
        ensures places { vec_capacity receipts.new ≡ vec_capacity receipts.old }
        ensures made { OnOk result (self.new.maker ≡ one_more self.old.maker) }
        ensures none_made { OnErr result (self.new.maker ≡ self.old.maker) }
    {
        let locked = &mut *self.locked;
        let words = self.shared.words();
        locked.keep(words, &mut self.share, &mut self.owed, command, receipts)
    }

    /// The receipts of the records of the desk's caller from a place on, in the order of its calls. So a receipt can be
    /// had again that was let go, as by a pass of a transport, or that could not be kept because memory had run out.
    ///
    /// It goes over the records from that place on once, with the lock in hand. `NoMemory` comes if the allocator
    /// refused, or a block has more owners than can be counted. Our own.
    pub fn receipts_since(&self, place: u32) -> Result<Vec<Receipt>, Refusal>
        ensures { AreGivenSince (λ receipts. receipts.items)
            self.now.history.records self.now.maker.caller place result }
    {
        self.locked.receipts_since(self.share.caller(), place)
    }

    /// Lets the lock go, and gives the share back, which has seen the whole history then. If a call at this desk
    /// settled something, it wakes all who wait for a promise. It does not allocate.
    pub fn leave(self) -> Share<L>
        ensures share { result ≡ share_after self.entry.maker self.entry.history.records }
        ensures opened { IsAsOpened L.opened self.entry.history }
    {
        let Desk {
            shared,
            locked,
            share,
            owed,
        } = self;
        let mut locked = locked;
        let mut share = share;
        locked.is_as_opened();
        locked.meet(shared.words(), &mut share);
        drop(locked);
        owed.pay(shared.settled());
        share
    }
}

impl<'b, L: Named> Drop for Desk<'b, L> {
    fn drop(self) {
        let _share = self.leave();
    }
}

impl<'b, L: Named> Booked for Desk<'b, L> {
    ghost history = { λ desk. desk.history };

    ghost caller = { λ desk. desk.maker.caller };

    fn call(&mut self, command: Command) -> Result<Receipt, Refusal>
        ensures is_call { IsCall self.old.history self.old.maker.caller command result self.new.history }
        ensures made { OnOk result (self.new.maker ≡ one_more self.old.maker) }
        ensures caller { self.new.maker.caller ≡ self.old.maker.caller }
        ensures none_made { OnErr result (self.new.maker ≡ self.old.maker) }
    {
        let locked = &mut *self.locked;
        let words = self.shared.words();
        locked.call(words, &mut self.share, &mut self.owed, command)
    }

    fn record(&mut self, command: Command) -> Result<(), Refusal>
        ensures is_recording { IsRecording self.old.history self.old.maker.caller command result self.new.history }
        ensures made { OnOk result (self.new.maker ≡ one_more self.old.maker) }
        ensures caller { self.new.maker.caller ≡ self.old.maker.caller }
        ensures none_made { OnErr result (self.new.maker ≡ self.old.maker) }
    {
        let locked = &mut *self.locked;
        let words = self.shared.words();
        locked.record(words, &mut self.share, &mut self.owed, command)
    }

    fn reserve(&mut self, count: u32) -> Result<(), Refusal>
        ensures is_reservation { IsReservation self.old.history count result self.new.history }
        ensures caller { self.new.maker.caller ≡ self.old.maker.caller }
        ensures made { self.new.maker.made ≡ self.old.maker.made }
    {
        self.locked.reserve(count)
    }

    fn buffer(&self) -> &Buffer
        ensures { IsBufferOf self.now.history result.now }
    {
        self.locked.buffer()
    }
}
