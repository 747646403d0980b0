ghost use Rattle.std.specs.Prelude.{◌≡◌, ◌≢◌, ◌≤◌, false, true, IfErr, IfOk, IfSome, IsOkUnless, None, OnErr, OnOk, Some, option_map};
ghost use Rattle.std.specs.Box.{box_value};
ghost use Rattle.std.specs.Arc.{arc_value};

mod sending;
mod within;

use crate::act::Act;
use crate::ask::Ask;
use crate::bell::Bell;
use crate::ended::Ended;
use crate::glance::Glance;
use crate::handle::TooManyHandles;
use crate::looks::{At, Leave};
use crate::moment::Moment;
use crate::patience::Patience;
use crate::place::Place;
use crate::plays::Accepted;
use crate::rule::Opened;
use crate::shared::{Seat, Shared};
use crate::wakes::Wakes;
use ob_covered::Cover;
use ob_types::{Estimate, Refusal, WaterMark, pack, unpack};
use std::alloc::Global;
use std::marker::Brand;
use std::sync::{Arc, Wait};
use std::time::{Clock, Duration, Instant};

/// What a handle and a guard are made of: the table, and a seat at it.
#[derive(Drop)]
pub struct Caller {
    pub shared: Arc<Shared, Global>,
    pub seat: Seat,
    ghost seat_of: { seat.table_id ≡ (arc_value shared).table.shared.table_id },
}

impl Caller {
    ghost use Rattle.ob_types.specs.Limits.{greatest_overhead, greatest_unknown};
    ghost use Rattle.ob_shared_connection.specs.Calls.{IsAnother, IsButForShare, IsEnd, IsFirst, IsJoined, IsCall};
    ghost use Rattle.ob_shared_connection.specs.Calls.{IsLock, UnderLock, IsLook};
    ghost use Rattle.ob_shared_connection.specs.Values.{appointed, resigned, sharing, budget_of, MayGive, IsGlance};
    ghost use Rattle.ob_shared_connection.specs.Values.{IsMoment, Waited, is_due};
    ghost use Rattle.ob_shared_connection.specs.Ruled.{within_of};
    ghost use Rattle.ob_shared_connection.specs.Steps.{caller_handle, caller_held, IsFree, IsHolder};

    /// The first caller of a connection with nothing written.
    pub fn open(alloc: Global, marks: WaterMark, estimate: Estimate) -> Result<Caller, Refusal>
        requires overhead { estimate.overhead ≤ greatest_overhead }
        requires unknown { estimate.unknown ≤ greatest_unknown }
        ensures free { IfOk result IsFree }
        ensures first { IfOk result (λ caller.
            IsFirst (record { marks = marks; estimate = estimate }) (caller_handle caller)) }
        ensures budget { IfOk result (λ caller. (caller_handle caller).budget ≡ None) }
        ensures no_memory { IsOkUnless result Refusal.NoMemory }
    {
        let opened = Opened {
            marks,
            estimate,
            budget: None,
        };
        let Ok((shared, seat)) = Shared::new(alloc, opened, None) else {
            return Err(Refusal::NoMemory);
        };
        let shared = Arc::new(alloc, shared)?;
        Ok(Caller { shared, seat })
    }

    /// The same, under this cover, which comes back if there is no memory.
    // what lies in a table does not come back as it was, so the memory that the table goes into is asked for before it
    pub fn open_within(
        alloc: Global,
        marks: WaterMark,
        estimate: Estimate,
        cover: Cover,
    ) -> Result<Caller, Cover>
        requires overhead { estimate.overhead ≤ greatest_overhead }
        requires unknown { estimate.unknown ≤ greatest_unknown }
        ensures free { IfOk result IsFree }
        ensures first { IfOk result (λ caller.
            IsFirst (record { marks = marks; estimate = estimate }) (caller_handle caller)) }
        ensures budget { IfOk result (λ caller. (caller_handle caller).budget ≡ Some cover.seat.budget) }
        ensures back { IfErr result (λ back. back ≡ cover) }
    {
        let Ok(budget) = Arc::try_clone(cover.budget()) else {
            return Err(cover);
        };
        let Ok(
            Caller {
                mut shared,
                seat: _,
            },
        ) = Caller::open(alloc, marks, estimate)
        else {
            return Err(cover);
        };
        // nobody else has the new `Arc`, so this is always there
        let Some(place) = Arc::get_mut(&mut shared) else {
            return Err(cover);
        };
        let opened = Opened {
            marks,
            estimate,
            budget: Some(budget),
        };
        let (covered, seat) = Shared::covered(alloc, opened, cover)?;
        *place = covered;
        Ok(Caller { shared, seat })
    }

    /// Another caller, which has seen what this one has.
    pub fn another(&mut self) -> Result<Caller, TooManyHandles>
        requires { IsFree self.old }
        ensures free { IsFree self.new }
        ensures shares { OnOk result (caller_handle self.new ≡ sharing (caller_handle self.old)) }
        ensures same { OnErr result (IsButForShare (caller_handle self.old) (caller_handle self.new)) }
        ensures other_free { IfOk result IsFree }
        ensures other { IfOk result (λ other. IsAnother (caller_handle self.old) (caller_handle other)) }
    {
        let shared = Arc::try_clone(&self.shared)?;
        let seat = shared.another(&mut self.seat)?;
        Ok(Caller { shared, seat })
    }

    /// Takes the lock.
    #[inline(always)]
    pub fn lock<R: Wait>(&mut self, rt: &R, patience: Patience)
        requires { IsFree self.old }
        ensures holds { IsHolder self.new }
        ensures locks { IsLock (caller_handle self.old) (caller_held self.new) }
    {
        self.shared.lock(rt, &mut self.seat, patience);
    }

    /// Takes the lock if it is free.
    #[inline(always)]
    pub fn try_lock(&mut self) -> bool
        requires { IsFree self.old }
        ensures holds { result ≡ true → IsHolder self.new }
        ensures locks { result ≡ true → IsLock (caller_handle self.old) (caller_held self.new) }
        ensures free { result ≡ false → IsFree self.new }
        ensures same { result ≡ false → caller_handle self.new ≡ caller_handle self.old }
    {
        self.shared.try_lock(&mut self.seat)
    }

    /// Lets the lock go, and wakes those who wait for it, or for what was done under it.
    #[inline(always)]
    pub fn unlock(&mut self)
        requires { IsHolder self.old }
        ensures free { IsFree self.new }
        ensures same { caller_handle self.new ≡ caller_handle self.old }
    {
        let wakes = self.leave();
        wakes.pay(&self.shared);
    }

    /// Lets the lock go, and tells whom to wake: it wakes nobody.
    #[inline(always)]
    pub fn leave(&mut self) -> Wakes
        requires { IsHolder self.old }
        ensures free { IsFree self.new }
        ensures same { caller_handle self.new ≡ caller_handle self.old }
    {
        let parting = self.ask(Leave);
        self.shared
            .publish(&mut self.seat, pack(parting.word, parting.total));
        let writers = self.shared.hush(&mut self.seat, parting.writers);
        let work = self.shared.hush(&mut self.seat, parting.work);
        self.shared.leave(&mut self.seat, writers, work)
    }

    /// Takes the lock, and waits at a bell until who waits there may go on.
    pub fn wait<B: Bell, R: Wait>(&mut self, rt: &R) -> Moment
        requires { IsFree self.old }
        ensures holds { IsHolder self.new }
        ensures locks { IsLock (caller_handle self.old) (caller_held self.new) }
        ensures finds { IsMoment B.waiter (caller_held self.new) result }
        ensures came { is_due result ≡ true }
    {
        self.lock(rt, B::patience());
        'waits: for _ in rt.forever() {
            let moment = self.moment::<B>();
            if moment.is_due() {
                return moment;
            }
            let place = self.leave_to_wait::<B>();
            self.shared.sleep(rt, place);
            self.lock(rt, B::patience());
        }
        unreachable!()
    }

    /// The same, until this time at the latest: if there is none, or the clock cannot be read, it looks once.
    pub fn wait_within<B: Bell, R: Wait + Clock>(&mut self, rt: &R, limit: Duration) -> Moment
        requires { IsFree self.old }
        ensures holds { IsHolder self.new }
        ensures locks { IsLock (caller_handle self.old) (caller_held self.new) }
        ensures finds { IsMoment B.waiter (caller_held self.new) result }
    {
        let end = time_after(rt, limit);
        self.lock(rt, B::patience());
        'waits: for _ in rt.forever() {
            let moment = self.moment::<B>();
            if moment.is_due() {
                return moment;
            }
            let Some(left) = time_until(rt, end) else {
                return moment;
            };
            let place = self.leave_to_wait::<B>();
            self.shared.sleep_within(rt, place, left);
            self.lock(rt, B::patience());
        }
        unreachable!()
    }

    /// What who waits at a bell finds, if the lock is free. If that is not yet what one waits for, it tells there that
    /// someone waits: whoever makes it so is told.
    pub fn try_wait<B: Bell>(&mut self) -> Option<(Moment, Wakes)>
        requires { IsFree self.old }
        ensures free { IsFree self.new }
        ensures sends { (caller_handle self.new).sends ≡ (caller_handle self.old).sends }
        ensures under { IfSome result (λ told. UnderLock (caller_handle self.old) (Waited B.waiter told.0)
            (caller_handle self.new)) }
        ensures busy { result ≡ None → caller_handle self.new ≡ caller_handle self.old }
    {
        if !self.try_lock() {
            return None;
        }
        let moment = self.moment::<B>();
        if !moment.is_due() {
            let place = self.shared.await_bell::<B>(&mut self.seat);
            place.leave();
        }
        Some((moment, self.leave()))
    }

    /// What who waits at a bell finds.
    fn moment<B: Bell>(&mut self) -> Moment
        requires { IsHolder self.old }
        ensures holds { IsHolder self.new }
        ensures same { caller_held self.new ≡ caller_held self.old }
        ensures finds { IsMoment B.waiter (caller_held self.old) result }
    {
        self.ask(At::<B>::new())
    }

    /// Tells at a bell that this caller is to wait, and lets the lock go.
    fn leave_to_wait<B: Bell>(&mut self) -> Place<B>
        requires { IsHolder self.old }
        ensures free { IsFree self.new }
        ensures same { caller_handle self.new ≡ caller_handle self.old }
    {
        let place = self.shared.await_bell(&mut self.seat);
        self.unlock();
        place
    }

    /// Reads the word and the total without the lock.
    pub fn glance(&mut self) -> Glance
        requires { IsFree self.old }
        ensures free { IsFree self.new }
        ensures glance { IsGlance (caller_handle self.old) result (caller_handle self.new) }
    {
        let (word, total) = unpack(self.shared.read(&mut self.seat));
        Glance { word, total }
    }

    /// Does something to the connection under the lock.
    #[inline(always)]
    pub fn act<A: Act>(&mut self, act: A) -> Result<A::Answer, A::Fault>
        requires holds { IsHolder self.old }
        requires may { MayGive (caller_handle self.old).sends (A.commands act) }
        ensures holds { IsHolder self.new }
        ensures call { IsCall A.uncovered (A.does act) (A.commands act) (caller_held self.old) result (caller_held self.new) }
        ensures covered { IfErr result (λ fault. A.uncovered fault → (caller_handle self.old).budget ≢ None) }
    {
        self.act_for::<A, Brand>(act)
    }

    #[inline(always)]
    fn act_for<A: Act, C: Accepted>(&mut self, act: A) -> Result<A::Answer, A::Fault>
        requires holds { IsHolder self.old }
        requires may { MayGive (caller_handle self.old).sends (A.commands act) }
        requires commands { C.commands ≡ A.commands act }
        ensures holds { IsHolder self.new }
        ensures call { IsCall A.uncovered (A.does act) (A.commands act) (caller_held self.old) result (caller_held self.new) }
        ensures covered { IfErr result (λ fault. A.uncovered fault → (caller_handle self.old).budget ≢ None) }
    {
        let Caller { shared, seat } = self;
        let carried = seat.slot_mut(&shared.table.shared, 0);
        let answer = carried.act(act)?;
        shared.list::<C>(seat);
        Ok(answer)
    }

    /// Looks at the connection under the lock.
    #[inline(always)]
    pub fn ask<A: Ask>(&mut self, ask: A) -> A::Answer
        requires { IsHolder self.old }
        ensures holds { IsHolder self.new }
        ensures look { IsLook (A.shows ask) result (caller_held self.old) (caller_held self.new) }
    {
        let shared = &self.shared;
        let carried = self.seat.slot_mut(&shared.table.shared, 0);
        ask.ask(&carried.connection)
    }

    /// One call, which takes the lock and lets it go.
    #[inline(always)]
    pub fn call<A: Act, R: Wait>(&mut self, rt: &R, act: A) -> Result<A::Answer, A::Fault>
        requires free { IsFree self.old }
        requires may { MayGive (caller_handle self.old).sends (A.commands act) }
        ensures free { IsFree self.new }
        ensures sends { (caller_handle self.new).sends ≡ (caller_handle self.old).sends }
        ensures under { UnderLock (caller_handle self.old)
            (λ before after. IsCall A.uncovered (A.does act) (A.commands act) before result after) (caller_handle self.new) }
        ensures covered { IfErr result (λ fault. A.uncovered fault → (caller_handle self.old).budget ≢ None) }
    {
        self.lock(rt, Patience::Short);
        let answer = self.act(act);
        self.unlock();
        answer
    }

    /// One call if the lock is free, which takes it and lets it go, and tells whom to wake.
    pub fn try_call<A: Act>(&mut self, act: A) -> Result<(Result<A::Answer, A::Fault>, Wakes), A>
        requires free { IsFree self.old }
        requires may { MayGive (caller_handle self.old).sends (A.commands act) }
        ensures free { IsFree self.new }
        ensures sends { (caller_handle self.new).sends ≡ (caller_handle self.old).sends }
        ensures under { IfOk result (λ told. UnderLock (caller_handle self.old)
            (λ before after. IsCall A.uncovered (A.does act) (A.commands act) before told.0 after) (caller_handle self.new)) }
        ensures covered { IfOk result (λ told. IfErr told.0 (λ fault.
            A.uncovered fault → (caller_handle self.old).budget ≢ None)) }
        ensures busy { OnErr result (caller_handle self.new ≡ caller_handle self.old) }
        ensures back { IfErr result (λ again. again ≡ act) }
    {
        if !self.try_lock() {
            return Err(act);
        }
        let answer = self.act(act);
        let wakes = self.leave();
        Ok((answer, wakes))
    }

    /// One look if the lock is free, which takes it and lets it go, and tells whom to wake.
    pub fn try_look<A: Ask>(&mut self, ask: A) -> Result<(A::Answer, Wakes), A>
        requires { IsFree self.old }
        ensures free { IsFree self.new }
        ensures sends { (caller_handle self.new).sends ≡ (caller_handle self.old).sends }
        ensures under { IfOk result (λ told. UnderLock (caller_handle self.old) (IsLook (A.shows ask) told.0)
            (caller_handle self.new)) }
        ensures busy { OnErr result (caller_handle self.new ≡ caller_handle self.old) }
        ensures back { IfErr result (λ again. again ≡ ask) }
    {
        if !self.try_lock() {
            return Err(ask);
        }
        let answer = self.ask(ask);
        let wakes = self.leave();
        Ok((answer, wakes))
    }

    /// One look, which takes the lock and lets it go.
    pub fn look<A: Ask, R: Wait>(&mut self, rt: &R, ask: A) -> A::Answer
        requires { IsFree self.old }
        ensures free { IsFree self.new }
        ensures sends { (caller_handle self.new).sends ≡ (caller_handle self.old).sends }
        ensures under { UnderLock (caller_handle self.old) (IsLook (A.shows ask) result) (caller_handle self.new) }
    {
        self.lock(rt, Patience::Short);
        let answer = self.ask(ask);
        self.unlock();
        answer
    }

    /// Takes the role of the one that sends, if nobody has it.
    pub fn appoint(&mut self) -> bool
        requires { IsHolder self.old }
        ensures holds { IsHolder self.new }
        ensures sends { result ≡ true → caller_held self.new ≡ appointed (caller_held self.old) }
        ensures kept { result ≡ false → caller_held self.new ≡ caller_held self.old }
    {
        self.shared.appoint(&mut self.seat)
    }

    /// Gives the role up.
    pub fn resign(&mut self)
        requires free { IsFree self.old }
        requires sends { (caller_handle self.old).sends ≡ true }
        ensures free { IsFree self.new }
        ensures resigns { caller_handle self.new ≡ resigned (caller_handle self.old) }
    {
        self.shared.resign(&mut self.seat);
    }

    /// Takes another caller in.
    pub fn join(&mut self, other: Caller)
        requires free { IsFree self.old }
        requires other_free { IsFree other }
        requires table { (caller_handle other).connection ≡ (caller_handle self.old).connection }
        ensures free { IsFree self.new }
        ensures joined { IsJoined (caller_handle self.old) (caller_handle other) (caller_handle self.new) }
    {
        let Caller { shared: _, seat } = other;
        self.shared.take(&mut self.seat, seat);
    }

    /// Ends the connection, if this is its only caller.
    pub fn finish(self) -> Result<Ended, Caller>
        requires { IsFree self }
        ensures ended { IfOk result (λ ended. IsEnd (caller_handle self) ended) }
        ensures back { IfErr result (λ caller. caller ≡ self) }
    {
        let Caller { shared, seat } = self;
        match Arc::try_unwrap(shared) {
            Ok(shared) => Ok(shared.end(seat)),
            Err(shared) => Err(Caller { shared, seat }),
        }
    }
}

/// When a limit of time is over that begins now. None if the clock cannot be read, or ends before that.
fn time_after<C: Clock>(clock: &C, limit: Duration) -> Option<Instant> {
    Instant::now(clock).ok()?.checked_add(limit)
}

/// How long it is until then. None if it is over, or the clock cannot be read.
fn time_until<C: Clock>(clock: &C, end: Option<Instant>) -> Option<Duration> {
    let left = end?.saturating_duration_since(Instant::now(clock).ok()?);
    if left.is_zero() { None } else { Some(left) }
}
