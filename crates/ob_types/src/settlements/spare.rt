ghost use Rattle.std.specs.Prelude.{◌≡◌, ◌≤◌, length, IsOk, IfOk};
ghost use Rattle.ob_types.specs.Limits.{inline_settlements};

use crate::promise::{Outcome, PromiseId};
use crate::settlements::{INLINE, Settlements};
use smallvec::SmallVec;
use std::alloc::{AllocError, Global};
use std::marker::Model;

/// Memory for settlements that are still to come. Contracts see it as how many it has room for.
#[derive(Debug, Drop)]
pub struct Spare {
    list: SmallVec<(PromiseId, Outcome), INLINE>,
}

impl Model for Spare {
    ghost use Rattle.std.specs.Prelude.{◌≡◌, ℕ, [], ◌≤◌};
    ghost use Rattle.ob_types.specs.Limits.{inline_settlements};

    ghost Value = { ℕ };

    ghost view = { λ spare. spare.list.capacity };

    ghost invariant = { λ spare. (spare.list.items ≡ []) × (inline_settlements ≤ spare.list.capacity) };
}

impl Spare {
    /// Memory for `count` settlements. It fails only if it is out of memory, and never for up to four.
    pub fn new(alloc: Global, count: u32) -> Result<Spare, AllocError>
        ensures ok { IfOk result (λ spare. count ≤ spare) }
        ensures succeeds { count ≤ inline_settlements → IsOk result }
    {
        Ok(Spare {
            list: SmallVec::with_capacity(alloc, count as usize)?,
        })
    }

    /// A copy of settlements for which there is room. It does not allocate.
    pub fn copy_of(self, settled: &Settlements) -> Settlements
        requires { length settled.now ≤ self }
        ensures { result ≡ settled.now }
    {
        let Spare { mut list } = self;
        list.extend_from_slice(settled.as_slice()).unwrap();
        Settlements { list }
    }
}
