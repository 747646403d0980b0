//! Seats in threads of their own. Each test needs threads that cross: one after the other, they do not meet.
ghost use Rattle.std.specs.Prelude.{◌≡◌};

use crate::tests::{opened, seen};
use ob_budget::{Budget, Pressure, RaiseFault, Seat};
use std::process::Abort;
use std::sync::atomic::{AtomicU64, Ordering};
use std::test::Fail;
use std::thread::{Threads, join, sleep};
use std::time::{Clock, Duration};

/// How often a thread raises its seat.
const ROUNDS: u32 = 20_000;

/// A seat, and what it has told.
#[derive(Drop)]
struct Party {
    seat: Seat,
    began: u64,
    ended: u64,
}

impl Party {
    fn new(seat: Seat) -> Party
        ensures { result.seat ≡ seat }
    {
        Party {
            seat,
            began: 0,
            ended: 0,
        }
    }

    fn hears(&mut self, pressure: Option<Pressure>)
        ensures { self.new.seat ≡ self.old.seat }
    {
        match pressure {
            Some(Pressure::Began) => self.began = self.began.saturating_add(1),
            Some(Pressure::Ended) => self.ended = self.ended.saturating_add(1),
            None => {}
        }
    }

    fn raises(&mut self, budget: &Budget, amount: u64) -> Result<(), RaiseFault>
        requires { self.old.seat.budget ≡ budget.now }
        ensures { self.new.seat.budget ≡ self.old.seat.budget }
    {
        match self.seat.raise(budget, amount) {
            Ok(pressure) => {
                self.hears(pressure);
                Ok(())
            }
            Err(fault) => Err(fault),
        }
    }

    /// Gives back all that the seat holds.
    fn rests(&mut self, rt: &impl Abort, budget: &Budget)
        requires { self.old.seat.budget ≡ budget.now }
        ensures { self.new.seat.budget ≡ self.old.seat.budget }
    {
        let held = self.seat.held();
        match self.seat.lower(budget, held) {
            Ok(pressure) => self.hears(pressure),
            Err(fault) => panic!(rt; "{fault}"),
        }
    }
}

/// Asks each millisecond whether a number has come that is not less, ten thousand times.
fn wait_for<R: Abort + Clock>(rt: &R, number: &AtomicU64, least: u64) {
    for _ in 0..10_000u32 {
        if number.load(Ordering::SeqCst) >= least {
            return;
        }
        sleep(rt, Duration::from_millis(1));
    }
    panic!(rt; "the others do not come")
}

/// Takes more than half of the room, and gives it back once another was refused it.
fn holds_it<R: Abort + Clock>(
    rt: &R,
    budget: &Budget,
    seat: Seat,
    holds: &AtomicU64,
    refused: &AtomicU64,
) -> Party
    requires { seat.budget ≡ budget.now }
    ensures { result.seat.budget ≡ budget.now }
{
    let mut party = Party::new(seat);
    assert_eq!(rt; party.raises(budget, 900), Ok(()));
    holds.store(1, Ordering::SeqCst);
    wait_for(rt, refused, 1);
    party.rests(rt, budget);
    party
}

/// Is refused more than half of the room while another holds it, and gets it once that has given it back.
fn gets_it<R: Abort + Clock>(
    rt: &R,
    budget: &Budget,
    seat: Seat,
    holds: &AtomicU64,
    refused: &AtomicU64,
) -> Party
    requires { seat.budget ≡ budget.now }
    ensures { result.seat.budget ≡ budget.now }
{
    let mut party = Party::new(seat);
    wait_for(rt, holds, 1);
    assert_eq!(rt; party.raises(budget, 900), Err(RaiseFault::Full));
    refused.store(1, Ordering::SeqCst);
    'tries: for _ in 0..10_000u32 {
        if party.raises(budget, 900).is_ok() {
            party.rests(rt, budget);
            return party;
        }
        sleep(rt, Duration::from_millis(1));
    }
    panic!(rt; "the room does not come")
}

/// Both, in a thread of their own each.
fn hands_over<R: Threads + Abort + Clock + Sync>(
    rt: &R,
    budget: &Budget,
    first: Seat,
    second: Seat,
) -> (Party, Party)
    requires { (first.budget ≡ budget.now) × (second.budget ≡ budget.now) }
    ensures { (result.0.seat.budget ≡ budget.now) × (result.1.seat.budget ≡ budget.now) }
{
    let (held, full) = (AtomicU64::new(0), AtomicU64::new(0));
    let (holds, refused) = (&held, &full);
    join(
        rt,
        move || -> Party
            requires { first.budget ≡ budget.now }
            ensures { result.seat.budget ≡ budget.entry.now }
        { holds_it(rt, budget, first, holds, refused) },
        move || -> Party
            requires { second.budget ≡ budget.now }
            ensures { result.seat.budget ≡ budget.entry.now }
        { gets_it(rt, budget, second, holds, refused) },
    )
}

/// Once all four are there, raises the seat by up to 699 bytes time and again, and gives all back.
fn comes_and_goes<R: Abort + Clock>(
    rt: &R,
    budget: &Budget,
    seat: Seat,
    arrived: &AtomicU64,
) -> Party
    requires { seat.budget ≡ budget.now }
    ensures { result.seat.budget ≡ budget.now }
{
    let mut party = Party::new(seat);
    arrived.fetch_add(1, Ordering::SeqCst);
    wait_for(rt, arrived, 4);
    let mut amount = 1_u64;
    'rounds: for _ in 0..ROUNDS {
        amount = (amount % 699) * 37 % 699 + 1;
        let raised = party.raises(budget, amount);
        // three others do not come in between 65,536 times
        assert!(rt; raised != Err(RaiseFault::Busy));
        let total = budget.glance().look().total;
        assert!(rt; total <= 1000 && (raised.is_err() || total >= amount));
        party.rests(rt, budget);
    }
    party
}

/// Two of them, in a thread of their own each.
fn two_come_and_go<R: Threads + Abort + Clock + Sync>(
    rt: &R,
    budget: &Budget,
    first: Seat,
    second: Seat,
    arrived: &AtomicU64,
) -> (Party, Party)
    requires { (first.budget ≡ budget.now) × (second.budget ≡ budget.now) }
    ensures { (result.0.seat.budget ≡ budget.now) × (result.1.seat.budget ≡ budget.now) }
{
    join(
        rt,
        move || -> Party
            requires { first.budget ≡ budget.now }
            ensures { result.seat.budget ≡ budget.entry.now }
        { comes_and_goes(rt, budget, first, arrived) },
        move || -> Party
            requires { second.budget ≡ budget.now }
            ensures { result.seat.budget ≡ budget.entry.now }
        { comes_and_goes(rt, budget, second, arrived) },
    )
}

/// One party with the seats of both, and what both have told.
fn joined(budget: &Budget, mut first: Party, second: Party) -> Party
    requires { (first.seat.budget ≡ budget.now) × (second.seat.budget ≡ budget.now) }
    ensures { result.seat.budget ≡ budget.now }
{
    first.seat.join(budget, second.seat);
    first.began = first.began.saturating_add(second.began);
    first.ended = first.ended.saturating_add(second.ended);
    first
}

/// Ends the budget, of which nothing is held then: as many turns were told to begin as to end.
fn ends(rt: &impl Abort, budget: Budget, party: Party) -> u64
    requires { party.seat.budget ≡ budget }
{
    let Party { seat, began, ended } = party;
    let Ok(end) = seat.finish(budget) else {
        panic!(rt; "a seat is out")
    };
    assert_eq!(rt; (end, began), (seen(0, false), ended));
    began
}

#[test]
fn room_moves_to_a_thread_that_was_refused_it(rt: HostRuntime) -> Result<(), Fail> {
    let (budget, mut first) = opened(rt.alloc())?;
    let second = first.split(&budget)?;
    let (first, second) = hands_over(&rt, &budget, first, second);
    let party = joined(&budget, first, second);
    assert_eq!(rt; ends(&rt, budget, party), 2);
    Ok(())
}

#[test]
fn four_threads_keep_within_a_scarce_room(rt: HostRuntime) -> Result<(), Fail> {
    let (budget, mut first) = opened(rt.alloc())?;
    let second = first.split(&budget)?;
    let third = first.split(&budget)?;
    let fourth = first.split(&budget)?;
    let count = AtomicU64::new(0);
    let arrived = &count;
    let (one, other) = pairs(&rt, &budget, (first, second), (third, fourth), arrived);
    let party = joined(&budget, one, other);
    ends(&rt, budget, party);
    Ok(())
}

/// Two pairs, in a thread of their own each.
fn pairs<R: Threads + Abort + Clock + Sync>(
    rt: &R,
    budget: &Budget,
    one: (Seat, Seat),
    other: (Seat, Seat),
    arrived: &AtomicU64,
) -> (Party, Party)
    requires one { (one.0.budget ≡ budget.now) × (one.1.budget ≡ budget.now) }
    requires other { (other.0.budget ≡ budget.now) × (other.1.budget ≡ budget.now) }
    ensures { (result.0.seat.budget ≡ budget.now) × (result.1.seat.budget ≡ budget.now) }
{
    join(
        rt,
        move || -> Party
            requires { (one.0.budget ≡ budget.now) × (one.1.budget ≡ budget.now) }
            ensures { result.seat.budget ≡ budget.entry.now }
        { pair(rt, budget, one, arrived) },
        move || -> Party
            requires { (other.0.budget ≡ budget.now) × (other.1.budget ≡ budget.now) }
            ensures { result.seat.budget ≡ budget.entry.now }
        { pair(rt, budget, other, arrived) },
    )
}

fn pair<R: Threads + Abort + Clock + Sync>(
    rt: &R,
    budget: &Budget,
    seats: (Seat, Seat),
    arrived: &AtomicU64,
) -> Party
    requires { (seats.0.budget ≡ budget.now) × (seats.1.budget ≡ budget.now) }
    ensures { result.seat.budget ≡ budget.now }
{
    let (first, second) = two_come_and_go(rt, budget, seats.0, seats.1, arrived);
    joined(budget, first, second)
}
