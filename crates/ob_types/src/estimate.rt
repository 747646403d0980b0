ghost use Rattle.std.specs.Prelude.{◌≡◌};
ghost use Rattle.ob_types.specs.PendingSize.{pending_size_of, pending_size_of_bytes};
ghost use Rattle.ob_types.specs.declared.message.Message.TheVariants.{Block};

use crate::message::Message;
use crate::refusal::Refusal;

/// The greatest pending size of one message, in bytes: `Integer.MAX_VALUE` of Netty's `int` sizes. Our own limit.
const MAX_PENDING_SIZE: u64 = 2147483647;

/// The greatest length of a region, in bytes: `Long.MAX_VALUE`. Our own limit.
const MAX_REGION: u64 = 9223372036854775807;

/// How many bytes a message that waits to be sent is counted for.
#[derive(Clone, Copy, Debug, PartialEq, Eq)]
pub struct Estimate {
    /// Bytes added for each message, whatever it is (Netty's entry overhead, 96 by default).
    pub overhead: u32,
    /// Bytes for a message that is neither a block nor a region (Netty's unknown size, 8 by default).
    pub unknown: u32,
}

/// The bytes that the message counts while it is pending: the readable bytes of a block, 0 for a region and
/// `unknown` for any other message, and the overhead. It does not allocate.
///
/// `Oversize` comes exactly if this passes 2147483647, or a region is longer than 9223372036854775807.
pub fn pending_size(message: &Message, estimate: Estimate) -> Result<u32, Refusal>
    ensures { result ≡ pending_size_of estimate message.now }
{
    let readable = match message {
        Message::Block(bytes) => bytes.len() as u64,
        Message::Region(length) if *length > MAX_REGION => return Err(Refusal::Oversize),
        Message::Region(_) => 0,
        Message::Other(_) => u64::from(estimate.unknown),
    };
    pending_size_of_length(readable, estimate)
}

/// The bytes that a block of these bytes counts while it is pending: what `pending_size` returns for it. It does not
/// allocate.
///
/// `Oversize` comes exactly if this passes 2147483647.
pub fn pending_size_of_block(bytes: &[u8], estimate: Estimate) -> Result<u32, Refusal>
    ensures { result ≡ pending_size_of estimate (Block bytes.now) }
{
    pending_size_of_length(bytes.len() as u64, estimate)
}

/// The bytes that a block of *n* bytes counts while it is pending, whatever these are: what `pending_size` returns for
/// it. It does not allocate.
///
/// `Oversize` comes exactly if this passes 2147483647.
pub fn pending_size_of_length(readable: u64, estimate: Estimate) -> Result<u32, Refusal>
    ensures { result ≡ pending_size_of_bytes estimate readable }
{
    let size = readable.saturating_add(u64::from(estimate.overhead));
    if size > MAX_PENDING_SIZE {
        return Err(Refusal::Oversize);
    }
    Ok(size as u32)
}
