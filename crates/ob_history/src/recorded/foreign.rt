ghost use Rattle.std.specs.List.{All};
ghost use Rattle.std.specs.Prelude.{◌≡◌, ◌-◌, ◌<◌, ◌↔◌, length, take, IfOk, IfSome, IsNone, IsOk, IsOkUnless, IsTrue};
ghost use Rattle.std.specs.Prelude.{slice_index_or};
ghost use Rattle.ob_history.specs.History.{IsFirstBreak, AreOwn, IsReceiptIn, IsSeenIn};
ghost use Rattle.ob_history.specs.declared.receipt.Receipt.{Receipt};

use crate::receipt::Receipt;
use crate::recorded::Recorded;
use crate::seen::Seen;
use ob_types::Refusal;

impl Recorded {
    /// The index of the first receipt with which a list is no longer the caller's own: one that is not the record at
    /// its place, or names another caller, or whose place is not above the one before it. Nothing if all are the
    /// caller's own. It changes nothing and does not allocate.
    pub fn first_foreign_receipt(&self, caller: u32, receipts: &[Receipt]) -> Option<usize>
        ensures own { IsNone result ↔ AreOwn caller self.now.records receipts.now }
        ensures foreign { IfSome result (IsFirstBreak (AreOwn caller self.now.records) receipts.now) }
    {
        for (index, receipt) in receipts.iter().enumerate() {
            if receipt.caller != caller || !self.check(receipt) || !rises(receipts, index) {
                return Some(index);
            }
        }
        None
    }

    /// The index of the first receipt that is not the record at its place, whoever made the call; nothing if each is.
    /// It changes nothing and does not allocate.
    pub fn first_foreign_told(&self, told: &[Receipt]) -> Option<usize>
        ensures kept { IsNone result ↔ All (IsReceiptIn self.now.records) told.now }
        ensures foreign { IfSome result (IsFirstBreak (All (IsReceiptIn self.now.records)) told.now) }
    {
        for (index, receipt) in told.iter().enumerate() {
            if !self.check(receipt) {
                return Some(index);
            }
        }
        None
    }

    /// The index of the first look that is not of the history, as `check_seen` asks it; nothing if each is. It gives
    /// a new buffer the commands, once as long as the places of the looks do not fall, and all again for a look at an
    /// earlier place than the one before it; it changes nothing here. `NoMemory` comes only if the allocator refused,
    /// or a block has more owners than can be counted, and never if the first look names more records than there are,
    /// or there is none.
    pub fn first_foreign_seen(&self, seen: &[Seen]) -> Result<Option<usize>, Refusal>
        ensures seen { IfOk result (λ found.
            IsNone found ↔ All (IsSeenIn self.now.settings self.now.records) seen.now) }
        ensures foreign { IfOk result (λ found.
            IfSome found (IsFirstBreak (All (IsSeenIn self.now.settings self.now.records)) seen.now)) }
        ensures no_memory { IsOkUnless result Refusal.NoMemory }
        ensures frugal { All (λ one. length self.now.records < one.place) (take 1 seen.now) → IsOk result }
    {
        let mut replay = self.replay();
        for (index, one) in seen.iter().enumerate() {
            if !self.check_along(&mut replay, one)? {
                return Ok(Some(index));
            }
        }
        Ok(None)
    }
}

/// Whether the place of a receipt is above that of the one before it, if there is one.
fn rises(receipts: &[Receipt], index: usize) -> bool
    requires { index < length receipts.now }
    ensures { IsTrue result ↔ ((other : Receipt) → 0 < index →
        (slice_index_or receipts.now (index - 1) other).place < (slice_index_or receipts.now index other).place) }
{
    index == 0 || receipts[index - 1].place < receipts[index].place
}
