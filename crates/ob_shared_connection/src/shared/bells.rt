//! How bells ring, and how handles sleep at them.
ghost use Rattle.std.specs.Prelude.{◌≡◌, false, true};
ghost use Rattle.ob_shared_connection.specs.Ruled.{awaited, is_owed, silenced, silent, hearing_view, IsSeatOf, IsSameSeat};
ghost use Rattle.ob_shared_connection.specs.Steps.{HasLock, Hushes};

use crate::bell::Bell;
use crate::owed::Owed;
use crate::patience::pause;
use crate::place::Place;
use crate::plays::{Await, Hear, Silence};
use crate::rule::{AWAITED, SILENT};
use crate::shared::{Seat, Shared};
use std::sync::Wait;
use std::time::Duration;

/// How often a thread that is to sleep at a bell looks whether it has rung already, with pauses between: some tens of
/// microseconds, less than it takes to wake a thread.
const LOOKS: u32 = 40;

impl Shared {
    /// Has a bell ring if who waits there may go on: it is silent then, and what is owed is told.
    #[inline(always)]
    pub fn hush<B: Bell>(&self, seat: &mut Seat, due: bool) -> Owed<B>
        requires table { IsSeatOf self.now seat.old }
        requires lock { HasLock seat.old.me }
        requires unowed { is_owed B.waiter seat.old.me.0.bells ≡ false }
        ensures seat { IsSameSeat seat.old seat.new }
        ensures hushes { Hushes B.waiter due result.waits seat.old.me seat.new.me }
    {
        if !due || self.is_silent::<B>(seat) {
            return Owed::new(false);
        }
        self.silence::<B>(seat);
        Owed::new(true)
    }

    /// Whether nobody waits at a bell. One load.
    #[inline(always)]
    fn is_silent<B: Bell>(&self, seat: &mut Seat) -> bool
        requires table { IsSeatOf self.now seat.old }
        requires lock { HasLock seat.old.me }
        ensures seat { IsSameSeat seat.old seat.new }
        ensures none { result ≡ true → seat.new.me ≡ (hearing_view (silent B.waiter seat.old.me.0.bells) seat.old.me.0, seat.old.me.1) }
        ensures some_one { result ≡ false → seat.new.me ≡ seat.old.me }
    {
        self.table.shared.load::<Hear<B>>(seat, B::word()) == SILENT
    }

    /// Silences a bell: those who wait there are owed to be woken.
    fn silence<B: Bell>(&self, seat: &mut Seat)
        requires table { IsSeatOf self.now seat.old }
        requires lock { HasLock seat.old.me }
        ensures seat { IsSameSeat seat.old seat.new }
        ensures me { seat.new.me ≡ (hearing_view (silenced B.waiter seat.old.me.0.bells) seat.old.me.0, seat.old.me.1) }
    {
        self.table
            .shared
            .store::<Silence<B>>(seat, B::word(), SILENT);
    }

    /// Tells at a bell that someone is to wait there.
    pub fn await_bell<B: Bell>(&self, seat: &mut Seat) -> Place<B>
        requires table { IsSeatOf self.now seat.old }
        requires lock { HasLock seat.old.me }
        ensures seat { IsSameSeat seat.old seat.new }
        ensures me { seat.new.me ≡ (hearing_view (awaited B.waiter seat.old.me.0.bells) seat.old.me.0, seat.old.me.1) }
    {
        self.table
            .shared
            .store::<Await<B>>(seat, B::word(), AWAITED);
        Place::new()
    }

    /// Sleeps at a bell unless it has rung since, until it rings. It may also return for no reason.
    pub fn sleep<B: Bell, R: Wait>(&self, rt: &R, place: Place<B>) {
        place.leave();
        if !self.has_rung::<B>() {
            self.table.shared.park(rt, B::word(), AWAITED as u32);
        }
    }

    /// The same, for no longer than this.
    pub fn sleep_within<B: Bell, R: Wait>(&self, rt: &R, place: Place<B>, limit: Duration) {
        place.leave();
        if !self.has_rung::<B>() {
            self.table
                .shared
                .park_timeout(rt, B::word(), AWAITED as u32, limit);
        }
    }

    /// Whether a bell rings while one looks at it for a while.
    fn has_rung<B: Bell>(&self) -> bool {
        'looks: for _ in 0..LOOKS {
            if self.table.shared.peek(B::word()) != AWAITED {
                return true;
            }
            pause(16);
        }
        false
    }

    /// Wakes all who sleep at a bell.
    pub fn wake_all<B: Bell>(&self) {
        self.table.shared.wake_all(B::word());
    }
}
