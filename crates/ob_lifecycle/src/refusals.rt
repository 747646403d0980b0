ghost use Rattle.std.specs.Prelude.{◌≡◌, ◌+◌};
ghost use Rattle.ob_lifecycle.specs.Strain.{as_told, refused_more};

use crate::fault::WriteFault;
use ob_types::Refusal;

/// How often calls of a managed connection were refused, by the reason. Of each 2^64 - 1 at most is told.
#[derive(Clone, Copy, Debug, PartialEq, Eq)]
pub struct Refusals {
    /// A call of a closed connection.
    pub closed: u64,
    /// A write once the end was asked for.
    pub finishing: u64,
    /// A message too large to be counted.
    pub oversize: u64,
    /// A write past the cap.
    pub full: u64,
    /// A write with which more than 4294967295 bytes would be pending.
    pub too_much: u64,
    /// A write for which there was no memory.
    pub no_memory: u64,
    /// Progress while no message is flushed.
    pub nothing_flushed: u64,
    /// Progress past 9223372036854775807.
    pub too_far: u64,
    /// A removal of more bytes than the flushed blocks in front hold.
    pub too_many_bytes: u64,
    /// A user bit outside 1 to 31.
    pub bad_index: u64,
    /// A close while flushed messages are left.
    pub flushed_left: u64,
    /// A cancellation of a promise under which nothing was written.
    pub unknown_promise: u64,
}

impl Refusals {
    /// None.
    pub(crate) fn none() -> Refusals
        ensures { result ≡ record {
          closed = 0;
          finishing = 0;
          oversize = 0;
          full = 0;
          too_much = 0;
          no_memory = 0;
          nothing_flushed = 0;
          too_far = 0;
          too_many_bytes = 0;
          bad_index = 0;
          flushed_left = 0;
          unknown_promise = 0;
        } }
    {
        Refusals {
            closed: 0,
            finishing: 0,
            oversize: 0,
            full: 0,
            too_much: 0,
            no_memory: 0,
            nothing_flushed: 0,
            too_far: 0,
            too_many_bytes: 0,
            bad_index: 0,
            flushed_left: 0,
            unknown_promise: 0,
        }
    }

    /// Counts one more for this reason.
    pub(crate) fn count(&mut self, why: WriteFault)
        ensures { self.new ≡ refused_more why self.old }
    {
        match why {
            WriteFault::Finishing => more(&mut self.finishing),
            WriteFault::Full => more(&mut self.full),
            WriteFault::Refused(Refusal::Closed) => more(&mut self.closed),
            WriteFault::Refused(Refusal::Oversize) => more(&mut self.oversize),
            WriteFault::Refused(Refusal::TooMuch) => more(&mut self.too_much),
            WriteFault::Refused(Refusal::NoMemory) => more(&mut self.no_memory),
            WriteFault::Refused(Refusal::NothingFlushed) => more(&mut self.nothing_flushed),
            WriteFault::Refused(Refusal::TooFar) => more(&mut self.too_far),
            WriteFault::Refused(Refusal::TooManyBytes) => more(&mut self.too_many_bytes),
            WriteFault::Refused(Refusal::BadIndex) => more(&mut self.bad_index),
            WriteFault::Refused(Refusal::FlushedLeft) => more(&mut self.flushed_left),
            WriteFault::Refused(Refusal::UnknownPromise) => more(&mut self.unknown_promise),
            // a connection has no history and is given marks
            WriteFault::Refused(Refusal::BadMarks | Refusal::HistoryFull) => {}
        }
    }
}

/// One more.
fn more(count: &mut u64)
    ensures { count.new ≡ as_told (count.old + 1) }
{
    *count = count.saturating_add(1);
}
