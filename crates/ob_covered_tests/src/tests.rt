//! Covered connections, at a budget of 1000 bytes with marks of 200 and 800. A block of four bytes counts 100.
ghost use Rattle.std.specs.Prelude.{◌≡◌, IfOk};
ghost use Rattle.std.specs.Arc.{arc_value};

use bytes::Bytes;
use ob_budget::{Bounds, Budget, Pressure, RaiseFault};
use ob_covered::{Budgeted, Cover, NotWritten, WriteFault};
use ob_types::{Cause, Estimate, Message, Refusal, WaterMark};
use std::alloc::Global;
use std::process::Abort;
use std::sync::Arc;
use std::test::Fail;

/// A budget, and two covers with this quantum.
fn opened(alloc: Global, quantum: u64) -> Result<(Arc<Budget>, Cover, Cover), Fail> {
    let (budget, mut seat) = Budget::open(alloc, Bounds::new(1000, 200, 800)?)?;
    let other = seat.split(&budget)?;
    let Ok(budget) = Arc::new(alloc, budget) else {
        return Err(Fail::new("out of memory"));
    };
    let first = Cover::new(Arc::try_clone(&budget)?, seat, quantum);
    let second = Cover::new(Arc::try_clone(&budget)?, other, quantum);
    Ok((budget, first, second))
}

/// A connection under this cover.
fn under(alloc: Global, cover: Cover) -> Result<Budgeted, Fail> {
    let estimate = Estimate {
        overhead: 96,
        unknown: 8,
    };
    Ok(Budgeted::new(alloc, WaterMark::new(5000, 9000)?, estimate, cover))
}

/// Writes a block of four bytes, and says which turn of pressure that made, or why it was refused.
fn write(connection: &mut Budgeted) -> Result<Option<Pressure>, WriteFault> {
    let told = connection.write(Message::Block(Bytes::from_static(b"four")));
    match told.answer {
        Ok(_written) => Ok(told.pressure),
        Err(NotWritten { why, message: _ }) => Err(why),
    }
}

/// The bytes that all hold.
fn total(budget: &Budget) -> u64 {
    budget.glance().look().total
}

const FULL: Result<Option<Pressure>, WriteFault> = Err(WriteFault::OverBudget(RaiseFault::Full));

#[test]
fn pressure_comes_and_goes_and_the_room_ends(rt: HostRuntime) -> Result<(), Fail> {
    let (budget, cover, _other) = opened(rt.alloc(), 0)?;
    let mut connection = under(rt.alloc(), cover)?;
    fill(&rt, &budget, &mut connection)?;
    empty(&rt, &budget, &mut connection);
    Ok(())
}

/// Ten blocks take the whole room, and pressure begins with the ninth.
fn fill(rt: &impl Abort, budget: &Budget, connection: &mut Budgeted) -> Result<(), WriteFault> {
    for count in 1..=10u64 {
        let told = write(connection)?;
        assert_eq!(rt; told.is_some(), count == 9, "write {count}");
        assert_eq!(rt;
            (total(budget), connection.held()),
            (count * 100, count * 100)
        );
    }
    assert_eq!(rt; write(connection), FULL);
    assert_eq!(rt; connection.connection().look().total, 1000);
    Ok(())
}

/// It ends once less than the low mark is left, and then there is room again.
fn empty(rt: &impl Abort, budget: &Budget, connection: &mut Budgeted) {
    assert!(rt; connection.flush().answer.is_ok());
    let told = connection.take_sent(28);
    assert_eq!(rt;
        (told.answer.is_ok(), told.pressure, total(budget)),
        (true, None, 300)
    );
    let told = connection.take_sent(8);
    assert_eq!(rt;
        (told.answer.is_ok(), told.pressure, total(budget)),
        (true, Some(Pressure::Ended), 100)
    );
    assert_eq!(rt; write(connection), Ok(None));
}

#[test]
fn cover_is_asked_for_before_a_message_is_made(rt: HostRuntime) -> Result<(), Fail> {
    let (budget, cover, other) = opened(rt.alloc(), 0)?;
    let mut one = under(rt.alloc(), cover)?;
    let mut late = under(rt.alloc(), other)?;
    let told = one.cover_ahead(900);
    assert_eq!(rt;
        (told.answer, told.pressure),
        (Ok(()), Some(Pressure::Began))
    );
    assert_eq!(rt; (write(&mut one), total(&budget)), (Ok(None), 900));
    let told = late.cover_ahead(101);
    assert_eq!(rt; (told.answer, told.pressure), (Err(RaiseFault::Full), None));
    assert_eq!(rt; (late.held(), total(&budget)), (0, 900));
    // a flush gives back what no write used
    assert_eq!(rt;
        (one.flush().pressure, one.held()),
        (Some(Pressure::Ended), 100)
    );
    Ok(())
}

#[test]
fn a_quantum_serves_several_writes(rt: HostRuntime) -> Result<(), Fail> {
    let (budget, cover, _other) = opened(rt.alloc(), 250)?;
    let mut connection = under(rt.alloc(), cover)?;
    write_by_quanta(&rt, &budget, &mut connection)?;
    Ok(())
}

/// Five blocks take two quanta, which are given back by a rest.
fn write_by_quanta(
    rt: &impl Abort,
    budget: &Budget,
    connection: &mut Budgeted,
) -> Result<(), WriteFault> {
    let mut totals = [0u64; 5];
    for seen in totals.iter_mut() {
        let _told = write(connection)?;
        *seen = total(budget);
    }
    assert_eq!(rt; totals, [250, 250, 500, 500, 500]);
    // 500 are pending, and 500 held: nothing is spare
    assert!(rt; connection.flush().answer.is_ok());
    assert!(rt; connection.take_sent(20).answer.is_ok());
    // nothing is pending, and two quanta are held
    assert_eq!(rt; total(budget), 500);
    let _told = connection.rest();
    assert_eq!(rt; total(budget), 0);
    Ok(())
}

#[test]
fn what_one_gives_up_another_may_write(rt: HostRuntime) -> Result<(), Fail> {
    let (budget, cover, other) = opened(rt.alloc(), 0)?;
    let mut first = under(rt.alloc(), cover)?;
    let mut second = under(rt.alloc(), other)?;
    give_way(&rt, &mut first, &mut second)?;
    let told = second.retire();
    assert_eq!(rt;
        (told.answer.held(), told.pressure, total(&budget)),
        (0, None, 0)
    );
    Ok(())
}

/// The second gets room once the first, which has it all, is given up.
fn give_way(
    rt: &impl Abort,
    first: &mut Budgeted,
    second: &mut Budgeted,
) -> Result<(), WriteFault> {
    for _ in 0..10u32 {
        let _told = write(first)?;
    }
    assert_eq!(rt; write(second), FULL);
    let told = first.give_up(Cause(7));
    assert_eq!(rt;
        (told.answer.is_ok(), told.pressure),
        (true, Some(Pressure::Ended))
    );
    assert_eq!(rt;
        (write(first), write(second)),
        (Err(WriteFault::Refused(Refusal::Closed)), Ok(None))
    );
    Ok(())
}

#[test]
fn commands_return_what_those_of_a_connection_do(rt: HostRuntime) -> Result<(), Fail> {
    let (budget, cover, _other) = opened(rt.alloc(), 0)?;
    let mut connection = under(rt.alloc(), cover)?;
    let marks = WaterMark::new(1, 2)?;
    let Some(answers) = give_each(&budget, &mut connection, marks) else {
        return Err(Fail::new("four are written, and it is open"));
    };
    assert_eq!(rt; answers, ([true; 9], [4, 300, 200, 0]));
    Ok(())
}

/// Each command in turn: whether it did what one of a connection does, the count of the flush, and what all hold behind
/// the flush, which voids the message that was taken back, behind two removals, and behind all.
fn give_each(
    budget: &Budget,
    connection: &mut Budgeted,
    marks: WaterMark,
) -> Option<([bool; 9], [u64; 4])> {
    for _ in 0..4u32 {
        let _told = write(connection).ok()?;
    }
    let cancelled = connection.cancel(1).answer == Ok(true);
    let flushed = connection.flush().answer.ok()?.count;
    let held = total(budget);
    let progressed = connection.progress(2).answer == Ok(());
    let bit = connection.user_bit(1, false).answer.is_ok();
    let set = connection.set_marks(marks).answer == Ok(());
    let removed = connection.remove().answer.is_ok();
    // the voided one: it frees nothing, and no promise ends
    let removed_with = connection.remove_with(Cause(3)).answer.is_ok();
    let less = total(budget);
    let failed = connection.fail_flushed(Cause(4), true).answer.is_ok();
    let closed = connection.close(Cause(5)).answer.is_ok();
    let all = [
        cancelled,
        progressed,
        bit,
        set,
        removed,
        removed_with,
        failed,
        closed,
        connection.connection().is_closed(),
    ];
    Some((all, [flushed, held, less, total(budget)]))
}

#[test]
fn covers_of_one_budget_see_one_total(rt: HostRuntime) -> Result<(), Fail> {
    let alloc = rt.alloc();
    let Ok(mut first) = Cover::open(alloc, Bounds::new(1000, 200, 800)?, 0) else {
        return Err(Fail::new("out of memory"));
    };
    let Ok(mut other) = first.share() else {
        return Err(Fail::new("no seat for another thread"));
    };
    let Ok(of_one) = other.split() else {
        return Err(Fail::new("no seat for a connection"));
    };
    let mut connection = under(alloc, of_one)?;
    let block = Bytes::from_static(&[0; 804]);
    let written = connection.write_shared(&block);
    assert_eq!(rt;
        (written.answer.is_ok(), written.pressure),
        (true, Some(Pressure::Began))
    );
    let lent = connection.write_static(&[0; 4]);
    assert_eq!(rt; (lent.answer.is_ok(), lent.pressure), (true, None));
    let looks = [first.look(), other.look(), connection.look_at_budget()];
    assert_eq!(rt;
        looks.map(|look| (look.total, look.is_pressed)),
        [(1000, true); 3]
    );
    let none = Estimate {
        overhead: 0,
        unknown: 0,
    };
    let ended = connection.renew(alloc, WaterMark::new(1, 2)?, none);
    assert_eq!(rt;
        (ended, connection.held(), first.look().total),
        (Some(Pressure::Ended), 0, 0)
    );
    Ok(())
}
