ghost use Rattle.std.specs.Prelude.{◌≡◌, ℕ, ◌≤◌, ◌↔◌, length, Some, IsErrAnd, IsErrOf, IsOk, IsOkUnless, IfOk, IfErr};
ghost use Rattle.std.specs.List.{All};
ghost use Rattle.std.specs.Sync.Mutex.{mutex_guard_value};
ghost use Rattle.ob_types.specs.declared.promise.PromiseId.{PromiseId};
ghost use Rattle.ob_seq.specs.Pending.{times_settled};
ghost use Rattle.ob_history.specs.History.{IsBeginning, settlements_in};
ghost use Rattle.ob_shared.specs.Calls.{IsKept, IsToldFreely, IsUnknown, IsUnsettled, TellsOf, HandsInAll, StandsIn};
ghost use Rattle.ob_shared.specs.Calls.{first_short, IsGivenBack, HasNoLooks, LacksShare, made_by, IsAsOpened};
ghost use Rattle.ob_shared.specs.Calls.{IsCheckIn};
ghost use Rattle.ob_shared.specs.declared.finish_fault.FinishFault.TheVariants.{ReceiptsMissing};

use crate::callers::Callers;
use crate::desk::Desk;
use crate::done::{Done, Final, Unfinished};
use crate::finish_fault::FinishFault;
use crate::locked::Locked;
use crate::named::Named;
use crate::reader::Reader;
use crate::share::Share;
use crate::words::Words;
use ob_history::{Booked, Receipt, Seen, a_history_settles_each_promise_once};
use ob_types::{Command, PromiseId, Refusal};
use std::hint::spin_loop;
use std::sync::{Condvar, Mutex, MutexGuard, Wait};
use std::thread::{Parker, yield_now};
use std::time::Duration;

/// How often a thread that finds the lock taken pauses and tries again, before it lets others run.
const PAUSES: u32 = 6;

/// How long the first of these pauses is, in turns of a loop that waits for nothing: some microseconds. Each is twice as long
/// as the one before it, up to eight times that.
const PAUSE: u32 = 32;

/// How often it lets others run and tries again, before it naps.
const YIELDS: u32 = 10;

/// How often it naps and tries again, before it sleeps until it is woken.
const NAPS: u32 = 100;

/// How many microseconds a nap takes.
const NAP: u64 = 50;

/// A buffer with its whole history under a lock. Callers give it commands from a desk, each with its share. The word and
/// the total after the last record are published beside the lock, for whoever reads them without it.
///
/// Whenever a caller has the lock, the records are a legal history, their number is what all shares made together, the
/// settings and the limit are those of the opening, and what is published is the glance after them.
#[derive(Drop)]
pub struct SharedBuffer<L: Named> {
    locked: Mutex<Locked<L>>,
    /// Where those wait whose promise is not settled.
    settled: Condvar,
    callers: Callers<L>,
    words: Words<L>,
}

impl<L: Named> SharedBuffer<L> {
    /// A buffer with this history, under a lock that nobody holds.
    pub(crate) fn new(locked: Locked<L>, callers: Callers<L>, words: Words<L>) -> SharedBuffer<L> {
        SharedBuffer {
            locked: Mutex::new(locked),
            settled: Condvar::new(),
            callers,
            words,
        }
    }

    /// What is published beside the lock.
    pub(crate) fn words(&self) -> &Words<L> {
        &self.words
    }

    /// A desk for the caller of a share, whose history begins with all that the share has seen. It waits while another
    /// caller has one: it pauses for some microseconds and tries again, six times; then it lets other threads run between
    /// tries, ten times; then it naps for 50 microseconds, a hundred times; and then it sleeps until it is woken. It does
    /// not allocate. The lock is never poisoned, and no desk is refused; that it is given in any order, or ever, is not
    /// promised.
    #[inline(always)]
    pub fn desk<R: Wait>(&self, rt: &R, share: Share<L>) -> Desk<'_, L>
        ensures maker { result.maker ≡ share.maker }
        ensures part { IsBeginning share.sight.seen result.history.records }
        ensures opened { IsAsOpened L.opened result.history }
    {
        Desk::new(self, self.lock(rt), share)
    }

    /// The lock.
    // in one piece with its callers, since it is mostly free
    #[inline(always)]
    fn lock<R: Wait>(&self, rt: &R) -> MutexGuard<'_, Locked<L>> {
        match self.locked.try_lock() {
            Some(guard) => guard,
            None => self.wait_for_lock(rt),
        }
    }

    /// The lock, which was found taken. Who waits for it pauses, lets others run, and then naps: whoever has it goes on
    /// meanwhile, and wakes nobody. A thread that sleeps on the lock itself is handed it in the end, and until that thread
    /// is awake nobody has it.
    #[cold]
    #[inline(never)]
    fn wait_for_lock<R: Wait>(&self, rt: &R) -> MutexGuard<'_, Locked<L>> {
        for turn in 0..PAUSES {
            pause(PAUSE << turn.min(3));
            if let Some(guard) = self.locked.try_lock() {
                return guard;
            }
        }
        for _ in 0..YIELDS {
            yield_now();
            if let Some(guard) = self.locked.try_lock() {
                return guard;
            }
        }
        // nobody else has this one, so nothing but time ends a nap
        let parker = Parker::new();
        for _ in 0..NAPS {
            parker.park_timeout(rt, Duration::from_micros(NAP));
            if let Some(guard) = self.locked.try_lock() {
                return guard;
            }
        }
        self.locked.lock(rt)
    }

    /// Makes one call from a desk of its own, and keeps its receipt after the caller's others. It waits while another
    /// caller has a desk.
    ///
    /// `HistoryFull` comes if the history is full. `NoMemory` comes if the allocator refuses room for the receipt, which
    /// is made before the call, or memory for the call. Each leaves the caller and the buffer as they were, so no receipt
    /// is lost. Our own.
    pub fn call<R: Wait>(
        &self,
        rt: &R,
        caller: Done<L>,
        command: Command,
    ) -> (Done<L>, Result<(), Refusal>)
        ensures { IsKept L.opened caller command result.1 result.0 }
    {
        let Done {
            share,
            mut receipts,
            told,
            seen,
        } = caller;
        let room = receipts.reserve(1);
        if room.is_err() {
            let caller = Done {
                share,
                receipts,
                told,
                seen,
            };
            return (caller, Err(Refusal::NoMemory));
        }
        let mut desk = self.desk(rt, share);
        let answer = desk.call(command);
        let share = desk.leave();
        let answer = match answer {
            Ok(receipt) => {
                receipts.push_reserved(receipt);
                Ok(())
            }
            Err(refusal) => Err(refusal),
        };
        let caller = Done {
            share,
            receipts,
            told,
            seen,
        };
        (caller, answer)
    }

    /// Waits until a promise is settled, and gives a desk for the caller of the share, with the receipt of the record
    /// that settled it. While it waits the lock is free. It asks again whenever a desk was left at which a call settled
    /// something, and walks over the records once, when there is something to find.
    ///
    /// `UnknownPromise` comes at once, exactly if no write was accepted under the id. `NoMemory` comes only if the
    /// promise is settled and the allocator refused the receipt, and never if at most three others were settled with
    /// it. The desk is given in any case.
    ///
    /// Whoever has a desk of this buffer already, or waits for what it alone could settle, waits for ever.
    pub fn wait_settled<R: Wait>(
        &self,
        rt: &R,
        share: Share<L>,
        id: PromiseId,
    ) -> (Desk<'_, L>, Result<Receipt, Refusal>)
        ensures maker { result.0.maker ≡ share.maker }
        ensures part { IsBeginning share.sight.seen result.0.history.records }
        ensures opened { IsAsOpened L.opened result.0.history }
        ensures told { IfOk result.1 (TellsOf result.0.history.records id) }

        ensures unknown { IsErrOf result.1 Refusal.UnknownPromise ↔ IsUnknown result.0.history.records id }
        ensures no_memory { ¬ IsUnknown result.0.history.records id → IsOkUnless result.1 Refusal.NoMemory }
        ensures settled { ¬ IsUnknown result.0.history.records id → ¬ IsUnsettled result.0.history.records id }
        ensures frugal { IsToldFreely result.0.history.records id → ¬ IsErrOf result.1 Refusal.NoMemory }
    {
        let mut locked = self.lock(rt);
        for _ in rt.forever() {
            match locked.told(id) {
                Some(answer) => return (Desk::new(self, locked, share), answer),
                None => locked = self.sleep(rt, locked, id),
            }
        }
        unreachable!()
    }

    /// Looks under the lock, for a reader that has no share: what is pending after all records, and how many they are. The
    /// reader has seen all of them then, and what it had seen begins them. It waits while a caller has a desk, and does
    /// not allocate. Our own.
    pub fn check_in<R: Wait>(&self, rt: &R, reader: &mut Reader<L>) -> Seen
        ensures { IsCheckIn L.opened.settings reader.old result reader.new }
    {
        self.lock(rt).check_in(&self.words, reader)
    }

    /// Ends the buffer, if each caller has handed in, and gives the whole history. Its records are a legal history,
    /// as many as were made with all shares together. The records of each caller are the receipts that it handed in, in
    /// the order of its calls; each receipt that a caller was told of is the record at its place, and each look is of
    /// the history. What each share had seen begins the records. No promise is settled twice.
    ///
    /// So whatever the schedule was, the history kept under the lock is one of one thread: each reply and each change
    /// of writability is what a buffer of one thread returns there.
    ///
    /// `SharesMissing` comes exactly if a caller's share is not handed in, and else `ReceiptsMissing` exactly if a
    /// caller hands in another number of receipts than were made with its share; it names the first. Then all is
    /// compared, Done by Done, in each first its receipts, then those that it was told of, then its looks:
    /// `ForeignReceipt` names the first that is not of the history, and `NoMemory` comes only if a look was to be
    /// compared and the allocator refused, and so never without a look. With each fault all that was handed in is given
    /// back, each share after it has met the history, and the buffer stays as it was.
    pub fn finish(self, dones: Vec<Done<L>>) -> Result<Final, Unfinished<L>>
        ensures missing { IsErrAnd result (λ unfinished. unfinished.fault ≡ FinishFault.SharesMissing)
            ↔ LacksShare L.opened.callers dones.items }
        ensures short { ¬ LacksShare L.opened.callers dones.items → (caller : ℕ) →
            IsErrAnd result (λ unfinished. unfinished.fault ≡ ReceiptsMissing caller)
            ↔ first_short dones.items ≡ Some caller }
        ensures frugal { HasNoLooks dones.items
            → ¬ IsErrAnd result (λ unfinished. unfinished.fault ≡ FinishFault.NoMemory) }
        ensures back { IfErr result (λ unfinished.
            IsGivenBack L.opened dones.items unfinished.fault unfinished.dones.items) }

        ensures opened { IfOk result (λ finished. IsAsOpened L.opened finished.recorded) }
        ensures counted { IfOk result (λ finished. length finished.recorded.records ≡ made_by dones.items) }
        ensures own { IfOk result (λ finished. All (HandsInAll finished.recorded.records) dones.items) }
        ensures stands { IfOk result (λ finished.
            All (StandsIn finished.recorded.settings finished.recorded.records) dones.items) }
        ensures saw { IfOk result (λ finished.
            All (λ one. IsBeginning one.sight.seen finished.recorded.records) dones.items) }
        ensures once { IfOk result (λ finished. (id : PromiseId) →
            times_settled id (settlements_in finished.recorded.records) ≤ 1) }
    {
        let SharedBuffer {
            locked,
            settled: _,
            callers,
            words,
        } = self;
        let mut locked = locked.into_inner();
        locked.is_as_opened();
        match locked.fault(&callers, &dones) {
            Some(fault) => {
                let mut dones = dones;
                locked.meet_all(&words, &mut dones);
                Err(Unfinished {
                    buffer: SharedBuffer::new(locked, callers, words),
                    dones,
                    fault,
                })
            }
            None => {
                a_history_settles_each_promise_once();
                Ok(Final {
                    recorded: locked.into_recorded(&words, &callers, dones),
                })
            }
        }
    }

    /// Where those wait whose promise is not settled.
    pub(crate) fn settled(&self) -> &Condvar {
        &self.settled
    }

    /// Sleeps until those who wait are woken, with the lock free. What it lets go has just been asked: so the promise is
    /// settled after that, and then it is rung for.
    fn sleep<'b, R: Wait>(
        &'b self,
        rt: &R,
        asked: MutexGuard<'b, Locked<L>>,
        _id: PromiseId,
    ) -> MutexGuard<'b, Locked<L>>
        requires known { ¬ IsUnknown (mutex_guard_value asked).records _id }
        requires unsettled { IsUnsettled (mutex_guard_value asked).records _id }
    {
        self.settled.wait(rt, asked)
    }
}

/// Lets time pass, and does not give the processor away.
fn pause(turns: u32) {
    for _ in 0..turns {
        spin_loop();
    }
}
