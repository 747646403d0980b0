ghost use Rattle.std.specs.Prelude.{◌≡◌};
ghost use Rattle.ob_shared.specs.Calls.{nothing_done};

use crate::finish_fault::FinishFault;
use crate::named::Named;
use crate::share::Share;
use crate::shared_buffer::SharedBuffer;
use ob_history::{Receipt, Recorded, Seen};
use std::alloc::Global;
use std::marker::Model;

/// What a caller of a shared buffer hands in at the end. Contracts see the vectors as lists.
#[derive(Drop)]
pub struct Done<L: Named> {
    /// The caller's share.
    pub share: Share<L>,
    /// The receipts of the caller's own calls, in the order of the calls.
    pub receipts: Vec<Receipt>,
    /// The receipts that `wait_settled` gave the caller, in any order.
    pub told: Vec<Receipt>,
    /// What the caller saw, in any order.
    pub seen: Vec<Seen>,
}

impl<L: Named> Model for Done<L> {
    ghost use Rattle.ob_shared.specs.Calls.{Handed};

    ghost Value = { Handed };

    ghost view = { λ done. record {
      maker = done.share.maker;
      sight = done.share.sight;
      receipts = done.receipts.items;
      told = done.told.items;
      seen = done.seen.items;
    } };
}

impl<L: Named> Done<L> {
    /// What the caller of a share hands in before its first call: the share, and no receipt and no look. It does not
    /// allocate.
    pub fn new(alloc: Global, share: Share<L>) -> Done<L>
        ensures { result ≡ nothing_done share }
    {
        Done {
            share,
            receipts: Vec::new(alloc),
            told: Vec::new(alloc),
            seen: Vec::new(alloc),
        }
    }
}

/// What is left of a shared buffer that is finished.
#[derive(Drop)]
pub struct Final {
    /// The whole history, with its buffer.
    pub recorded: Recorded,
}

/// A shared buffer that could not be finished, with all that was handed in.
#[derive(Drop)]
pub struct Unfinished<L: Named> {
    /// The buffer, as it was.
    pub buffer: SharedBuffer<L>,
    /// What was handed in. Each share has met the history.
    pub dones: Vec<Done<L>>,
    /// Why it could not be finished.
    pub fault: FinishFault,
}
