ghost use Rattle.std.specs.Prelude.{◌≡◌, ◌<◌, ◌↔◌, List, length, IsTrue, IfOk, IsOk, IsOkUnless};
ghost use Rattle.ob_history.specs.History.{IsReceiptIn, record_of, IsSeenIn};

use crate::answer;
use crate::receipt::Receipt;
use crate::record::Record;
use crate::recorded::Recorded;
use crate::seen::Seen;
use ob_types::{Command, Message, Refusal};

impl Recorded {
    /// Whether the receipt is the record at its place. It changes nothing and does not allocate.
    pub fn check(&self, receipt: &Receipt) -> bool
        ensures { IsTrue result ↔ IsReceiptIn self.now.records receipt.now }
    {
        match self.records.get(receipt.place as usize) {
            Some(kept) => is_of(receipt, kept),
            None => false,
        }
    }

    /// Whether the look is that of a new buffer after the first `place` records, and there are as many. It
    /// gives a new buffer their commands, and changes nothing here. `NoMemory` comes only if the allocator refused, or
    /// a block has more owners than can be counted, and never if fewer records are there.
    pub fn check_seen(&self, seen: &Seen) -> Result<bool, Refusal>
        ensures answer { IfOk result (λ answer. IsTrue answer ↔ IsSeenIn self.now.settings self.now.records seen.now) }
        ensures no_memory { IsOkUnless result Refusal.NoMemory }
        ensures frugal { length self.now.records < seen.now.place → IsOk result }
    {
        self.check_along(&mut self.replay(), seen)
    }
}

/// Whether a receipt is of a record.
fn is_of(receipt: &Receipt, kept: &Record) -> bool
    ensures { IsTrue result ↔ (record_of receipt.now ≡ kept.now) }
{
    receipt.place == kept.place
        && receipt.caller == kept.caller
        && asks_same(&receipt.command, &kept.command)
        && answer::is_same(&receipt.reply, &kept.reply)
}

/// Whether two commands are the same.
fn asks_same(one: &Command, other: &Command) -> bool
    ensures { IsTrue result ↔ (one.now ≡ other.now) }
{
    // a block goes by `are_same`, which compares eight bytes at a time
    let Command::Write(Message::Block(bytes)) = one else {
        return one == other;
    };
    let Command::Write(Message::Block(others)) = other else {
        return false;
    };
    are_same(bytes.as_slice(), others.as_slice())
}

/// Whether two lists of bytes are the same.
// Eight at a time: with 64 bytes that takes less than half of the time of `==` of two slices.
fn are_same(bytes: &[u8], others: &[u8]) -> bool
    ensures { IsTrue result ↔ (bytes.now ≡ others.now) }
{
    if bytes.len() != others.len() {
        return false;
    }
    let (words, rest) = bytes.as_chunks::<8>();
    let (other_words, other_rest) = others.as_chunks::<8>();
    words == other_words && rest == other_rest
}
