use crate::bell::{Work, Writers};
use crate::shared::Shared;

/// Whom a handle has to wake that let the lock go without that. It cannot be dropped: `Handle::wake` or `Transport::wake`
/// takes it.
///
/// All are false if no thread of the process waits in this crate, as where each makes calls alone that try the lock: a
/// library that may wake nobody takes it apart.
#[must_use]
pub struct Wakes {
    /// Whether one who sleeps for the lock.
    pub next: bool,
    /// Whether all who wait until they may write.
    pub writers: bool,
    /// Whether the transport, which waits for flushed messages.
    pub work: bool,
}

impl Wakes {
    /// Wakes them. No contract sees that: what waking does is said of no memory.
    // most often nobody is to be woken
    #[inline(always)]
    pub(crate) fn pay(self, shared: &Shared) {
        if self.next || self.writers || self.work {
            self.pay_each(shared);
        } else {
            let Wakes {
                next: _,
                writers: _,
                work: _,
            } = self;
        }
    }

    #[inline(never)]
    fn pay_each(self, shared: &Shared) {
        let Wakes {
            next,
            writers,
            work,
        } = self;
        if next {
            shared.wake_next();
        }
        if writers {
            shared.wake_all::<Writers>();
        }
        if work {
            shared.wake_all::<Work>();
        }
    }
}
