ghost use Rattle.std.specs.Prelude.{◌≡◌, ◌≤◌, ◌<◌, ◌+◌, max, false, None, Some, if◌then◌else◌};
ghost use Rattle.ob_lifecycle.specs.Events.{beyond, is_untold, most_told, none, plus};

use crate::count::Count;

/// What is counted of a connection as it goes. What was sent is what was accepted, less all else.
#[derive(Drop)]
pub struct Tally {
    pub accepted: Count,
    pub failed: Count,
    pub cancelled: Count,
    pub peak: u64,
    /// Whether a cancellation came since the last flush, which may void something then.
    pub cancels: bool,
}

impl Tally {
    /// Nothing.
    pub fn new() -> Tally
        ensures { result ≡ record { accepted = none; failed = none; cancelled = none; peak = 0; cancels = false } }
    {
        let none = Count {
            messages: 0,
            bytes: 0,
        };
        Tally {
            accepted: none,
            failed: none,
            cancelled: none,
            peak: 0,
            cancels: false,
        }
    }

    /// The bytes of all that was accepted with one more message of this size, if it can be counted.
    #[inline(always)]
    pub fn bytes_with(&self, size: u64) -> Option<u64>
        ensures { result ≡ (if is_untold self.now.accepted size then None else Some (self.now.accepted.bytes + size)) }
    {
        if self.accepted.messages == u64::MAX {
            return None;
        }
        self.accepted.bytes.checked_add(size)
    }

    /// Counts a message, with which this many bytes were accepted in all, and this many are pending.
    // The peak is written only if it grows, which few messages make it do.
    #[inline(always)]
    pub fn accept(&mut self, bytes: u64, pending: u64)
        requires { self.old.accepted.messages < most_told }
        ensures { self.new ≡ record self.old {
          accepted = record { messages = self.old.accepted.messages + 1; bytes = bytes };
          peak = max self.old.peak pending;
        } }
    {
        self.accepted.messages += 1;
        self.accepted.bytes = bytes;
        if pending > self.peak {
            self.peak = pending;
        }
    }

    /// Counts as failed what was pending before and is not after.
    pub fn fail(&mut self, before: Count, after: Count)
        requires messages { self.old.failed.messages + before.messages ≤ most_told }
        requires bytes { self.old.failed.bytes + before.bytes ≤ most_told }
        ensures { self.new ≡ record self.old { failed = plus self.old.failed (beyond before after) } }
    {
        self.failed = self.failed.more_by(before, after);
    }

    /// Counts as cancelled what was pending before a flush and is not after.
    pub fn void(&mut self, before: Count, after: Count)
        requires messages { self.old.cancelled.messages + before.messages ≤ most_told }
        requires bytes { self.old.cancelled.bytes + before.bytes ≤ most_told }
        ensures { self.new ≡ record self.old { cancelled = plus self.old.cancelled (beyond before after); cancels = false } }
    {
        self.cancelled = self.cancelled.more_by(before, after);
        self.cancels = false;
    }
}
