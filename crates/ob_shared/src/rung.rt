//! How those who wait for a promise are woken.

ghost use Rattle.std.specs.Prelude.{◌≡◌, ◌+◌, ◌<◌, cond};
ghost use Rattle.ob_shared.specs.Calls.{settles_any};

use ob_types::{Refusal, Reply};
use std::sync::Condvar;

/// How many calls settled a promise. It lies under the lock.
#[derive(Drop)]
pub struct Rung {
    pub count: u32,
}

/// For how many calls those who wait are to be woken. It cannot be let go, and `pay` alone takes it.
// a whole word, so that a desk has no padding that is moved with it
pub struct Owed {
    calls: u64,
}

impl Rung {
    /// No call has settled a promise.
    pub fn never() -> Rung
        ensures { result.count ≡ 0 }
    {
        Rung { count: 0 }
    }

    /// Rings for an answer, if that settles a promise.
    pub fn hear(&mut self, answer: &Result<Reply, Refusal>, owed: &mut Owed)
        requires { self.old.count < 4294967295 }
        ensures { self.new.count ≡ self.old.count + cond (settles_any answer.now) 1 0 }
    {
        if settles(answer) {
            self.ring(owed);
        }
    }

    /// Counts once more, and makes that a debt. Nothing else counts.
    fn ring(&mut self, owed: &mut Owed)
        requires { self.old.count < 4294967295 }
        ensures rung { self.new.count ≡ self.old.count + 1 }
        ensures owed { 0 < owed.new.calls }
    {
        self.count += 1;
        owed.calls = owed.calls.saturating_add(1);
    }
}

impl Owed {
    /// Nobody is to be woken.
    pub fn nothing() -> Owed {
        Owed { calls: 0 }
    }

    /// Wakes all who wait, if that is owed.
    pub fn pay(self, bell: &Condvar) {
        let Owed { calls } = self;
        if calls > 0 {
            bell.notify_all();
        }
    }
}

/// Whether an answer settles a promise.
fn settles(answer: &Result<Reply, Refusal>) -> bool
    ensures { result ≡ settles_any answer.now }
{
    match answer {
        Ok(reply) => !reply.settled.as_slice().is_empty(),
        Err(_) => false,
    }
}
