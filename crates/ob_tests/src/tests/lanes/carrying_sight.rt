//! A lane without room and bits that carries what another lane has seen.

ghost use Rattle.std.specs.Prelude.{◌≡◌, ◌++◌, IfOk};

use super::{accepted, join_and_finish, open, split};
use ob_lanes::{Lane, Words};
use ob_types::Change::{Unwritable, Writable};
use std::test::Fail;

/// The first lane tells the second what it has seen: a lane without room and bits goes from the one to the other.
fn tell(words: &Words, speaker: Lane, listener: Lane) -> Result<(Lane, Lane), Fail>
    requires { (speaker.words ≡ words.now) × (listener.words ≡ words.now) }
    ensures words { IfOk result (λ ok. (ok.0.words ≡ words.now) × (ok.1.words ≡ words.now)) }
    ensures heard { IfOk result (λ ok. ok.1.seen ≡ listener.seen ++ speaker.seen) }
{
    let (speaker, told) = accepted(speaker.split(words, 0, 0))?;
    Ok((speaker, listener.join(words, told)))
}

/// B sets its bit and tells A, which reads it then, with the room and the bits that it had.
#[test]
fn a_lane_carries_what_was_seen(rt: HostRuntime) -> Result<(), Fail> {
    let (words, lane) = open(rt.alloc(), 10, 6)?;
    let (a, mut b) = split(&words, lane, 3, 4)?;
    let set = b.bit(&words, 2, false);
    let (mut b, mut a) = tell(&words, b, a)?;
    let read = (a.word(&words), a.room(), a.held());
    let cleared = b.bit(&words, 2, true);
    assert_eq!(rt;
        (set, read, cleared),
        (Ok(Some(Unwritable)), (4, 7, 2), Ok(Some(Writable)))
    );
    join_and_finish(&rt, words, a, b);
    Ok(())
}
