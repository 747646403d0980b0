ghost use Rattle.std.specs.List.{concat};
ghost use Rattle.std.specs.Prelude.{◌≡◌, ◌≤◌, ℕ, length, take, IfOk, OnErr, Result};
ghost use Rattle.ob_transport.specs.Sent.{Asked, OfBytes, OfUnits, Content, with_more_bytes, with_failure};
ghost use Rattle.ob_transport.specs.Sent.{with_more_units};

use bytes::Bytes;
use thiserror::Error;

/// A sink has failed, for a reason that its number names.
#[derive(Clone, Copy, Debug, PartialEq, Eq, Error)]
#[error("the sink has failed: {0}")]
pub struct SinkFault(pub u32);

/// Where a transport puts what it takes off a buffer, as a socket.
///
/// A call takes a beginning of what is offered, which may be all of it or nothing. A call that fails takes nothing.
pub trait Sink {
    ghost use Rattle.ob_transport.specs.declared.sink.SinkFault.{SinkFault};

    /// What was taken so far, and how many calls failed.
    ghost content: { Self → Content };

    /// What a call does, by the sink before it, what it is asked, what it returns, and the sink after it. Each sink
    /// says so for itself, and `pass` that it makes one such call at most.
    ghost does: { Self → Asked → Result ℕ SinkFault → Self → Type 0 };

    /// Offers blocks, one after another, and returns how many of their bytes were taken, from the front.
    fn take(&mut self, blocks: &[Bytes]) -> Result<usize, SinkFault>
        ensures within { IfOk result (λ count. count ≤ length (concat blocks.now)) }
        ensures taken { IfOk result (λ count. content self.new
            ≡ with_more_bytes (take count (concat blocks.now)) (content self.old)) }
        ensures failed { OnErr result (content self.new ≡ with_failure (content self.old)) }
        ensures does { does self.old (OfBytes (concat blocks.now)) result self.new };

    /// Offers `units` units of a region, and returns how many of them were taken.
    fn take_region(&mut self, units: u64) -> Result<u64, SinkFault>
        ensures within { IfOk result (λ count. count ≤ units) }
        ensures taken { IfOk result (λ count. content self.new ≡ with_more_units count (content self.old)) }
        ensures failed { OnErr result (content self.new ≡ with_failure (content self.old)) }
        ensures does { does self.old (OfUnits units) result self.new };
}
