ghost use Rattle.std.specs.Prelude.{◌≡◌, ◌<◌, ◌≤◌};
ghost use Rattle.ob_types.specs.Limits.{greatest_overhead, greatest_unknown};
ghost use Rattle.ob_history.specs.History.{IsBufferOf, IsLegal, IsBounded, new_history, most_records};

mod call;
mod check;
mod copies;
mod foreign;
mod look;
mod own;
mod replay;
mod reserve;
mod settling;

use crate::record::Record;
use ob_seq::Buffer;
use ob_types::{Estimate, WaterMark};
use std::alloc::Global;
use std::marker::Model;

/// A buffer with the record of each call, oldest first. Contracts see its history, which determines the buffer.
#[derive(Debug, Drop)]
pub struct Recorded {
    marks: WaterMark,
    estimate: Estimate,
    limit: u32,
    records: Vec<Record>,
    /// How many more calls have a place and memory for their record.
    reserved: usize,
    buffer: Buffer,
}

impl Model for Recorded {
    ghost use Rattle.ob_history.specs.History.{History};

    ghost Value = { History };

    ghost use Rattle.ob_history.specs.Inside.{history_of, IsSound};

    ghost view = { history_of };

    ghost invariant = { IsSound };
}

impl Recorded {
    /// An empty buffer with no record, which may have up to `limit` of them. It does not allocate. The overhead and the
    /// size of unknown messages are at most 65535 bytes, and the limit is 1 to 1048576 records.
    pub fn new(alloc: Global, marks: WaterMark, estimate: Estimate, limit: u32) -> Recorded
        requires overhead { estimate.overhead ≤ greatest_overhead }
        requires unknown { estimate.unknown ≤ greatest_unknown }
        requires some_record { 0 < limit }
        requires few_records { limit ≤ most_records }
        ensures { result ≡ new_history (record { marks = marks; estimate = estimate }) limit }
    {
        Recorded {
            marks,
            estimate,
            limit,
            records: Vec::new(alloc),
            reserved: 0,
            buffer: Buffer::new(alloc, marks, estimate),
        }
    }

    /// The records, oldest first. They are a legal history, and at most 1048576. It does not allocate.
    pub fn records(&self) -> &[Record]
        ensures value { result.now ≡ self.now.records }
        ensures legal { IsLegal self.now.settings self.now.records }
        ensures bounded { IsBounded self.now }
    {
        self.records.as_slice()
    }

    /// The buffer after the accepted commands of the records, which are a legal history. It does not allocate.
    pub fn buffer(&self) -> &Buffer
        ensures { IsBufferOf self.now result.now }
    {
        &self.buffer
    }
}
