//! Lanes that hold user bits.

ghost use Rattle.std.specs.Prelude.{◌≡◌, IfOk};

use super::{not_charged, open, split};
use ob_lanes::{Lane, NotHeld, SplitFault, Words};
use ob_types::Change::{Unwritable, Writable};
use std::process::Abort;
use std::test::Fail;

/// A split that is refused gives the lane back.
fn not_split(
    rt: &impl Abort,
    words: &Words,
    lane: Lane,
    room: u32,
    bits: u32,
    wanted: SplitFault,
) -> Result<Lane, Fail>
    requires { lane.words ≡ words.now }
    ensures { IfOk result (λ lane. lane.words ≡ words.now) }
{
    match lane.split(words, room, bits) {
        Ok(_lanes) => Err(Fail::new("the split is refused")),
        Err((lane, fault)) => {
            assert_eq!(rt; fault, wanted);
            Ok(lane)
        }
    }
}

/// A holds bit 1 and B bit 2. Each sets its own, neither may touch another, and A clears its own while B's stays.
fn set_and_clear(rt: &impl Abort, words: &Words, a: &mut Lane, b: &mut Lane)
    requires { (a.old.words ≡ words.now) × (b.old.words ≡ words.now) }
    ensures { (a.new.words ≡ words.now) × (b.new.words ≡ words.now) }
{
    let told = [
        a.bit(words, 1, false),
        b.bit(words, 2, false),
        b.bit(words, 1, true),
        a.bit(words, 0, false),
        a.bit(words, 1, true),
    ];
    let expected = [
        Ok(Some(Unwritable)),
        Ok(None),
        Err(NotHeld),
        Err(NotHeld),
        Ok(None),
    ];
    assert_eq!(rt; (told, a.word(words)), (expected, 4));
}

/// One lane again, which clears the bit that B had set, and ends.
fn clear_and_finish(rt: &impl Abort, words: Words, a: Lane, b: Lane)
    requires { (a.words ≡ words) × (b.words ≡ words) }
{
    let mut all = a.join(&words, b);
    let change = all.bit(&words, 2, true);
    assert_eq!(rt;
        (change, all.finish(words).ok()),
        (Ok(Some(Writable)), Some((0, 0)))
    );
}

#[test]
fn lanes_with_bits(rt: HostRuntime) -> Result<(), Fail> {
    let (words, a) = open(rt.alloc(), 10, 6)?;
    let a = not_split(&rt, &words, a, 11, 8, SplitFault::NoRoom)?;
    let a = not_split(&rt, &words, a, 0, 8, SplitFault::NotHeld)?;
    let (mut a, mut b) = split(&words, a, 0, 4)?;
    assert_eq!(rt; (a.held(), b.held()), (2, 4));
    set_and_clear(&rt, &words, &mut a, &mut b);
    let b = not_charged(&rt, &words, b, 1)?;
    clear_and_finish(&rt, words, a, b);
    Ok(())
}
