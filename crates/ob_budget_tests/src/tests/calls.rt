//! Each call, by one thread.
ghost use Rattle.std.specs.Prelude.{◌≡◌};

use crate::tests::{opened, seen};
use ob_budget::{Bounds, BoundsFault, Budget, Look, OneSeat, Pressure, RaiseFault, Seat};
use std::process::Abort;
use std::test::Fail;

#[test]
fn bounds_are_made_or_refused(rt: HostRuntime) {
    let greatest = 4_611_686_018_427_387_903;
    let cases = [
        (greatest, 7, 7, None),
        (0, 0, 0, None),
        (5, 8, 7, Some(BoundsFault::LowAboveHigh)),
        (greatest + 1, 8, 7, Some(BoundsFault::LowAboveHigh)),
        (greatest + 1, 7, 8, Some(BoundsFault::RoomTooGreat)),
    ];
    for (room, low, high, fault) in cases {
        match Bounds::new(room, low, high) {
            Ok(bounds) => {
                assert_eq!(rt;
                    (bounds.room(), bounds.low(), bounds.high()),
                    (room, low, high)
                );
                assert_eq!(rt; fault, None);
            }
            Err(why) => assert_eq!(rt; Some(why), fault),
        }
    }
}

#[test]
fn pressure_is_told_as_it_begins_and_as_it_ends(rt: HostRuntime) -> Result<(), Fail> {
    let (budget, mut seat) = opened(rt.alloc())?;
    // equality with a mark turns nothing
    let turns = [
        seat.raise(&budget, 800),
        seat.raise(&budget, 1),
        seat.raise(&budget, 199),
        seat.raise(&budget, 1),
        seat.raise(&budget, u64::MAX),
        seat.raise(&budget, 0),
    ];
    assert_eq!(rt;
        turns,
        [
            Ok(None),
            Ok(Some(Pressure::Began)),
            Ok(None),
            Err(RaiseFault::Full),
            Err(RaiseFault::Full),
            Ok(None),
        ]
    );
    assert_eq!(rt;
        [seat.last_look(), seat.look(&budget), budget.glance().look()],
        [seen(1000, true), seen(1000, true), seen(1000, true)]
    );
    assert!(rt; seat.held() >= 801);
    assert_eq!(rt; seat.lower(&budget, 800), Ok(None));
    assert!(rt; seat.held() >= 1);
    assert_eq!(rt; seat.lower(&budget, 1), Ok(Some(Pressure::Ended)));
    end_is(&rt, budget, seat, seen(199, false))
}

#[test]
fn room_goes_from_one_seat_to_another(rt: HostRuntime) -> Result<(), Fail> {
    let (budget, mut first) = opened(rt.alloc())?;
    let mut second = first.split(&budget)?;
    assert_eq!(rt;
        (first.seats(), second.seats()),
        (4_611_686_018_427_387_903, 1)
    );
    assert_eq!(rt;
        [first.raise(&budget, 600), second.raise(&budget, 600)],
        [Ok(None), Err(RaiseFault::Full)]
    );
    assert!(rt; first.held() >= 300);
    // what the second saw last left no room: it looks anew
    assert_eq!(rt;
        (first.lower(&budget, 300), second.raise(&budget, 600)),
        (Ok(None), Ok(Some(Pressure::Began)))
    );
    assert_eq!(rt; (first.held(), second.held()), (300, 600));
    first.join(&budget, second);
    assert_eq!(rt; first.seats(), 4_611_686_018_427_387_904);
    end_is(&rt, budget, first, seen(900, true))
}

#[test]
fn a_budget_with_a_seat_out_does_not_end(rt: HostRuntime) -> Result<(), Fail> {
    let (budget, mut first) = opened(rt.alloc())?;
    let mut half = first.halve(&budget)?;
    let mut one = half.split(&budget)?;
    assert_eq!(rt; (first.seats(), half.seats()), (1 << 61, (1 << 61) - 1));
    assert_eq!(rt;
        (one.split(&budget).err(), one.halve(&budget).err()),
        (Some(OneSeat), Some(OneSeat))
    );
    half.join(&budget, one);
    let Err(out) = first.finish(budget) else {
        return Err(Fail::new("a half was out"));
    };
    let mut first = out.seat;
    let budget = out.budget;
    assert_eq!(rt; budget.bounds().room(), 1000);
    first.join(&budget, half);
    end_is(&rt, budget, first, seen(0, false))
}

/// Ends the budget with all of its seats, and compares what it then shows.
fn end_is(rt: &impl Abort, budget: Budget, seat: Seat, look: Look) -> Result<(), Fail>
    requires { seat.budget ≡ budget }
{
    let Ok(end) = seat.finish(budget) else {
        return Err(Fail::new("a seat is out"));
    };
    assert_eq!(rt; end, look);
    Ok(())
}
