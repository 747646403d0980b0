ghost use Rattle.std.specs.Prelude.{◌≡◌, map, IfOk};
ghost use Rattle.ob_history.specs.History.{AreGivenSince, records_of, receipt_of};

use crate::receipt::Receipt;
use crate::record::Record;
use crate::recorded::Recorded;
use ob_types::Refusal;
use std::alloc::{AllocError, Global};

impl Recorded {
    /// The receipts of the records of a caller from a place on, in order, whoever kept a receipt or lost it. It goes over
    /// these records once, and changes nothing. `NoMemory` comes if the allocator refused, or a block has more owners
    /// than can be counted. Our own.
    pub fn receipts_since(&self, caller: u32, place: u32) -> Result<Vec<Receipt>, Refusal>
        ensures { AreGivenSince (λ receipts. receipts.items) self.now.records caller place result }
    {
        let from = self.records.len().min(place as usize);
        let later = &self.records[from..];
        Ok(receipts_of(*self.records.allocator(), caller, later)?)
    }
}

/// The receipts of the records of a caller.
fn receipts_of(alloc: Global, caller: u32, records: &[Record]) -> Result<Vec<Receipt>, AllocError>
    ensures { IfOk result (λ receipts. receipts.items ≡ map receipt_of (records_of caller records.now)) }
{
    let mut receipts = Vec::new(alloc);
    for one in records {
        if one.caller == caller {
            receipts.push(one.receipt()?)?;
        }
    }
    Ok(receipts)
}
