ghost use Rattle.std.specs.Prelude.{◌≡◌, ◌<◌, ◌≤◌, [], IfOk, IsOkUnless, OnOk};
ghost use Rattle.ob_history.specs.History.{glance_after};
ghost use Rattle.ob_shared.specs.Calls.{IsNameOf, new_shares};

use crate::callers::Callers;
use crate::locked::Locked;
use crate::named::Named;
use crate::rule::{PUBLISHED, Rule, View, WORDS};
use crate::share::Share;
use crate::shared_buffer::SharedBuffer;
use crate::words::{Publisher, Words};
use atomic_table::{Seat, Table};
use ob_history::{Glance, Recorded};
use ob_types::{Estimate, Refusal, WaterMark, pack};
use std::alloc::{AllocError, Global};
use std::marker::Model;
use std::sync::ledger;
use std::sync::ledger::Blank;

/// What a shared buffer is to be opened with. Contracts see it as a record of that.
#[derive(Drop)]
pub struct Opening {
    alloc: Global,
    marks: WaterMark,
    estimate: Estimate,
    limit: u32,
    callers: u32,
    ledger: Blank,
    table: Table<(), View, (WaterMark, Estimate), Rule, Global>,
    seat: Seat<(), View>,
}

impl Model for Opening {
    ghost use Rattle.std.specs.Prelude.{◌≡◌, ◌<◌, ◌≤◌};
    ghost use Rattle.ob_shared.specs.Published.{IsNewTable};
    ghost use Rattle.ob_shared.specs.Calls.{Opened};

    ghost Value = { Opened };

    ghost view = { λ opening. record {
      ledger = opening.ledger.name;
      callers = opening.callers;
      settings = record { marks = opening.marks; estimate = opening.estimate };
      limit = opening.limit;
      table = opening.table.shared.table_id;
    } };

    ghost invariant = { λ opening. (opening.ledger.parts ≡ opening.callers)
        × (0 < opening.callers) × (opening.callers ≤ 65)
        × (0 < opening.limit) × (opening.limit ≤ 1048576)
        × (opening.estimate.overhead ≤ 65535) × (opening.estimate.unknown ≤ 65535)
        × IsNewTable opening.marks opening.estimate opening.table.shared.key opening.table.shared.table_id
        opening.seat };
}

impl Opening {
    /// What a buffer of `callers` callers is to be opened with. The overhead and the size of unknown messages are at
    /// most 65535 bytes, the limit is 1 to 1048576 records, and there are 1 to 65 callers. `NoMemory` comes if the
    /// allocator refused.
    pub fn new(
        alloc: Global,
        marks: WaterMark,
        estimate: Estimate,
        limit: u32,
        callers: u32,
    ) -> Result<Opening, Refusal>
        requires overhead { estimate.overhead ≤ 65535 }
        requires unknown { estimate.unknown ≤ 65535 }
        requires some_record { 0 < limit }
        requires few_records { limit ≤ 1048576 }
        requires some_caller { 0 < callers }
        requires few_callers { callers ≤ 65 }
        ensures settings { IfOk result (λ opening.
            opening.settings ≡ record { marks = marks; estimate = estimate }) }
        ensures limit { IfOk result (λ opening. opening.limit ≡ limit) }
        ensures callers { IfOk result (λ opening. opening.callers ≡ callers) }
        ensures no_memory { IsOkUnless result Refusal.NoMemory }
    {
        let recorded = Recorded::new(alloc, marks, estimate, limit);
        let nothing = recorded.glance();
        drop(recorded);
        let mut words = [0; WORDS];
        words[PUBLISHED] = pack(nothing.word, nothing.total);
        let (table, seat) = Table::of_words(alloc, &words, &(marks, estimate))?;
        Ok(Opening {
            alloc,
            marks,
            estimate,
            limit,
            callers,
            ledger: Blank::new(u64::from(callers)),
            table,
            seat,
        })
    }

    /// The buffer under its lock, with an empty history, and a share for each caller, numbered from 0. `NoMemory` comes
    /// if the allocator refused, and then the opening is given up.
    pub fn begin<L: Named>(self) -> Result<(SharedBuffer<L>, Vec<Share<L>>), Refusal>
        requires { IsNameOf self L.opened L.name L.parts }
        ensures shares { IfOk result (λ begun. begun.1.items ≡ new_shares self.callers) }
        ensures no_memory { IsOkUnless result Refusal.NoMemory }
    {
        let Opening {
            alloc,
            marks,
            estimate,
            limit,
            callers,
            ledger,
            table,
            seat,
        } = self;
        let (book, mut whole) = ledger.open::<L>();
        let words = Words::new(table);
        let nothing = glance_at_nothing(alloc, marks, estimate, limit);
        let mut publisher = Publisher::new(seat, pack(nothing.word, nothing.total));
        let shares = shares(alloc, &words, &mut publisher, &mut whole, callers)?;
        let recorded = Recorded::new(alloc, marks, estimate, limit);
        let locked = Locked::new(recorded, book, whole, publisher);
        let buffer = SharedBuffer::new(locked, Callers::new(callers), words);
        Ok((buffer, shares))
    }
}

/// A share for each caller, cut from a whole ledger in which nothing is counted, with a reader of what is published. It
/// fails only if it is out of memory.
fn shares<L: Named>(
    alloc: Global,
    words: &Words<L>,
    publisher: &mut Publisher<L>,
    whole: &mut ledger::Share<L>,
    callers: u32,
) -> Result<Vec<Share<L>>, AllocError>
    requires parts { whole.old.parts ≡ callers }
    requires none_made { whole.old.amount ≡ 0 }
    requires none_seen { publisher.old ≡ [] }
    ensures shares { IfOk result (λ shares. shares.items ≡ new_shares callers) }
    ensures no_part { OnOk result (whole.new.parts ≡ 0) }
    ensures none_made { OnOk result (whole.new.amount ≡ 0) }
    ensures published { publisher.new ≡ publisher.old }
{
    let mut shares = Vec::new(alloc);
    shares.reserve(callers as usize)?;
    for caller in 0..callers {
        let part = whole.split_off(1, 0);
        shares.push_reserved(Share::new(caller, part, publisher.reader(words)));
    }
    Ok(shares)
}

/// The glance at a history without a record.
fn glance_at_nothing(alloc: Global, marks: WaterMark, estimate: Estimate, limit: u32) -> Glance
    requires overhead { estimate.overhead ≤ 65535 }
    requires unknown { estimate.unknown ≤ 65535 }
    requires some_record { 0 < limit }
    requires few_records { limit ≤ 1048576 }
    ensures { result ≡ glance_after (record { marks = marks; estimate = estimate }) [] }
{
    let recorded = Recorded::new(alloc, marks, estimate, limit);
    let nothing = recorded.glance();
    drop(recorded);
    nothing
}
