//! Of `ob_types`: sizes, words, settlements.

use super::{ESTIMATE, four_bytes, marks};
use ob_types::{
    Answer, Cause, Change, Message, Outcome, PromiseId, PromiseState, Refusal, Reply, Settlements,
    Spare, pack, pending_size, pending_size_of_block, pending_size_of_length, unpack,
};
use std::alloc::{AllocError, Global};
use std::test::Fail;

/// A block counts its bytes, a region none, and any other message what the estimate says; each the overhead too.
#[test]
fn messages_count_their_bytes_and_the_overhead(rt: HostRuntime) {
    let sizes = [
        pending_size(&four_bytes(), ESTIMATE),
        pending_size(&Message::Region(1000), ESTIMATE),
        pending_size(&Message::Other(7), ESTIMATE),
        pending_size_of_block(b"four", ESTIMATE),
        pending_size_of_length(4, ESTIMATE),
        pending_size_of_length(2147483551, ESTIMATE),
        pending_size_of_length(2147483552, ESTIMATE),
    ];
    let wanted = [
        Ok(100),
        Ok(96),
        Ok(104),
        Ok(100),
        Ok(100),
        Ok(2147483647),
        Err(Refusal::Oversize),
    ];
    assert_eq!(rt; sizes, wanted);
}

/// A word of 0 is writable. It stands in the high half of the packed number.
#[test]
fn words_turn_and_are_packed(rt: HostRuntime) -> Result<(), Fail> {
    let marks = marks()?;
    assert_eq!(rt;
        (
            Change::between(0, 1),
            Change::between(1, 0),
            Change::between(1, 3),
            pack(1, 496),
            unpack(4294967792),
            marks.low(),
            marks.high(),
        ),
        (
            Some(Change::Unwritable),
            Some(Change::Writable),
            None,
            4294967792,
            (1, 496),
            100,
            200,
        )
    );
    Ok(())
}

#[test]
fn a_promise_waits_until_a_flush_fixes_it(rt: HostRuntime) {
    let states = [
        PromiseState::Waiting,
        PromiseState::Fixed,
        PromiseState::Settled(Outcome::Success),
    ];
    assert_eq!(rt;
        states.map(|state| state.is_waiting()),
        [true, false, false]
    );
}

/// A reply of a removal of two messages that both failed.
fn reply_of_two(alloc: Global) -> Result<Reply, AllocError> {
    let mut settled = Settlements::with_room(alloc, 2)?;
    settled.push(PromiseId(0), Outcome::Failed(Cause(3)))?;
    settled.push(PromiseId(1), Outcome::Failed(Cause(3)))?;
    Ok(Reply {
        answer: Answer::Count(2),
        settled,
        change: None,
    })
}

/// Memory for a copy can be taken before there is anything to copy.
#[test]
fn a_reply_is_copied_into_spare_memory(rt: HostRuntime) -> Result<(), Fail> {
    let reply = reply_of_two(rt.alloc())?;
    if reply.settled.as_slice().len() > 2 {
        return Err(Fail::new("a reply of two settles two"));
    }
    let copy = reply.copy_in(Spare::new(rt.alloc(), 2)?);
    assert!(rt; copy.is_same(&reply));
    Ok(())
}
