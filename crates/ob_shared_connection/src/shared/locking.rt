//! How the lock is taken and let go.
ghost use Rattle.std.specs.Prelude.{◌≡◌, false, true, []};
ghost use Rattle.ob_shared_connection.specs.Ruled.{is_owed, free_view, IsSeatOf, IsSameSeat};
ghost use Rattle.ob_shared_connection.specs.Steps.{Locks, MayLeave, Rests};
ghost use Rattle.ob_shared_connection.specs.declared.bell.Waiter.TheVariants as waiter;

use crate::bell::{Work, Writers};
use crate::owed::Owed;
use crate::patience::{Patience, pause};
use crate::plays::{Lock, Unlock};
use crate::rule::{FREE, LOCK, TAKEN, WAITED};
use crate::shared::{Seat, Shared};
use crate::wakes::Wakes;
use std::sync::Wait;
use std::thread::{Parker, yield_now};
use std::time::Duration;

/// How often a thread that finds the lock taken pauses and tries again, before it lets others run.
const PAUSES: u32 = 6;

/// How often it lets others run and tries again, before it naps.
const YIELDS: u32 = 10;

/// How often it naps and tries again, before it sleeps until it is woken.
const NAPS: u32 = 100;

/// How many microseconds a nap takes.
const NAP: u64 = 50;

impl Shared {
    /// Takes the lock if it is free.
    #[inline(always)]
    pub fn try_lock(&self, seat: &mut Seat) -> bool
        requires table { IsSeatOf self.now seat.old }
        requires rests { Rests seat.old.me }
        ensures seat { IsSameSeat seat.old seat.new }
        ensures taken { result ≡ true → Locks seat.old.me seat.new.me }
        ensures missed { result ≡ false → seat.new.me ≡ seat.old.me }
    {
        self.table
            .shared
            .compare_exchange::<Lock>(seat, LOCK, FREE, TAKEN)
            == FREE
    }

    /// Takes the lock if it is free; else whoever has it knows that another waits.
    fn ask_lock(&self, seat: &mut Seat) -> bool
        requires table { IsSeatOf self.now seat.old }
        requires rests { Rests seat.old.me }
        ensures seat { IsSameSeat seat.old seat.new }
        ensures taken { result ≡ true → Locks seat.old.me seat.new.me }
        ensures missed { result ≡ false → seat.new.me ≡ seat.old.me }
    {
        self.table.shared.swap::<Lock>(seat, LOCK, WAITED) == FREE
    }

    /// Takes the lock. Who finds it taken pauses, then lets others run, then naps, and then sleeps until it is woken.
    // in one piece with its callers: most often it is free
    #[inline(always)]
    pub fn lock<R: Wait>(&self, rt: &R, seat: &mut Seat, patience: Patience)
        requires table { IsSeatOf self.now seat.old }
        requires rests { Rests seat.old.me }
        ensures seat { IsSameSeat seat.old seat.new }
        ensures locks { Locks seat.old.me seat.new.me }
    {
        if !self.try_lock(seat) {
            self.lock_later(rt, seat, patience);
        }
    }

    /// The same for one who found it taken.
    #[inline(never)]
    fn lock_later<R: Wait>(&self, rt: &R, seat: &mut Seat, patience: Patience)
        requires table { IsSeatOf self.now seat.old }
        requires rests { Rests seat.old.me }
        ensures seat { IsSameSeat seat.old seat.new }
        ensures locks { Locks seat.old.me seat.new.me }
    {
        if self.pausing(seat, patience) || self.yielding(seat) || self.napping(rt, seat) {
            return;
        }
        'asks: for _ in rt.forever() {
            if self.ask_lock(seat) {
                return;
            }
            self.table.shared.park(rt, LOCK, WAITED as u32);
        }
        unreachable!()
    }

    /// Tries to take the lock, and pauses between tries: whoever has it makes several calls meanwhile.
    fn pausing(&self, seat: &mut Seat, patience: Patience) -> bool
        requires table { IsSeatOf self.now seat.old }
        requires rests { Rests seat.old.me }
        ensures seat { IsSameSeat seat.old seat.new }
        ensures taken { result ≡ true → Locks seat.old.me seat.new.me }
        ensures missed { result ≡ false → seat.new.me ≡ seat.old.me }
    {
        'pauses: for turn in 0..PAUSES {
            pause(patience.pauses(turn));
            if self.try_lock(seat) {
                return true;
            }
        }
        false
    }

    /// Tries to take the lock, and lets other threads run between tries.
    fn yielding(&self, seat: &mut Seat) -> bool
        requires table { IsSeatOf self.now seat.old }
        requires rests { Rests seat.old.me }
        ensures seat { IsSameSeat seat.old seat.new }
        ensures taken { result ≡ true → Locks seat.old.me seat.new.me }
        ensures missed { result ≡ false → seat.new.me ≡ seat.old.me }
    {
        'yields: for _ in 0..YIELDS {
            yield_now();
            if self.try_lock(seat) {
                return true;
            }
        }
        false
    }

    /// Tries to take the lock, and naps between tries: whoever has it goes on meanwhile, and wakes nobody.
    fn napping<R: Wait>(&self, rt: &R, seat: &mut Seat) -> bool
        requires table { IsSeatOf self.now seat.old }
        requires rests { Rests seat.old.me }
        ensures seat { IsSameSeat seat.old seat.new }
        ensures taken { result ≡ true → Locks seat.old.me seat.new.me }
        ensures missed { result ≡ false → seat.new.me ≡ seat.old.me }
    {
        // nobody else has this one, so nothing but time ends a nap
        let parker = Parker::new();
        'naps: for _ in 0..NAPS {
            parker.park_timeout(rt, Duration::from_micros(NAP));
            if self.try_lock(seat) {
                return true;
            }
        }
        false
    }

    /// Lets the lock go, and tells whom to wake: it wakes nobody.
    #[inline(always)]
    pub fn leave(&self, seat: &mut Seat, writers: Owed<Writers>, work: Owed<Work>) -> Wakes
        requires table { IsSeatOf self.now seat.old }
        requires may { MayLeave seat.old.me }
        requires writers { writers.waits ≡ is_owed waiter.Writer seat.old.me.0.bells }
        requires work { work.waits ≡ is_owed waiter.Sender seat.old.me.0.bells }
        ensures seat { IsSameSeat seat.old seat.new }
        ensures view { seat.new.me.0 ≡ free_view seat.old.me.0 }
        ensures slots { seat.new.me.1 ≡ [] }
        ensures writers_told { result.writers ≡ is_owed waiter.Writer seat.old.me.0.bells }
        ensures work_told { result.work ≡ is_owed waiter.Sender seat.old.me.0.bells }
    {
        let found = self.table.shared.swap::<Unlock>(seat, LOCK, FREE);
        Wakes {
            next: found == WAITED,
            writers: writers.tell(),
            work: work.tell(),
        }
    }

    /// Wakes one who sleeps for the lock.
    pub fn wake_next(&self) {
        self.table.shared.wake_one(LOCK);
    }
}
