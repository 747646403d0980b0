ghost use Rattle.std.specs.Prelude.{◌≡◌, ◌<◌, ◌≤◌, ◌↔◌, [], ◌∷◌, ◌++◌, length, IsOk, IfOk, IsTrue, OnOk, OnErr};
ghost use Rattle.ob_types.specs.Limits.{inline_settlements};

mod spare;

use crate::promise::{Outcome, PromiseId};
use smallvec::SmallVec;
pub use spare::Spare;
use std::alloc::{AllocError, Global};
use std::marker::Model;

/// How many settlements stand in the list itself, without an allocation.
const INLINE: usize = 4;

/// The promises that a command settled, with their outcomes, in the order of the writes.
///
/// The first four need no allocation.
#[derive(Debug, Drop)]
pub struct Settlements {
    list: SmallVec<(PromiseId, Outcome), INLINE>,
}

impl Model for Settlements {
    ghost use Rattle.std.specs.Prelude.{List, ◌≤◌};
    ghost use Rattle.ob_types.specs.Limits.{inline_settlements};
    ghost use Rattle.ob_types.specs.declared.promise.PromiseId.{PromiseId};
    ghost use Rattle.ob_types.specs.declared.promise.Outcome.{Outcome};

    ghost Value = { List (PromiseId × Outcome) };

    ghost view = { λ settlements. settlements.list.items };

    ghost invariant = { λ settlements. inline_settlements ≤ settlements.list.capacity };
}

impl Settlements {
    /// No settlement.
    pub fn new(alloc: Global) -> Settlements
        ensures { result ≡ [] }
    {
        Settlements {
            list: SmallVec::new(alloc),
        }
    }

    /// No settlement, with room for `count`. It fails only if it is out of memory, and never for up to four.
    pub fn with_room(alloc: Global, count: u32) -> Result<Settlements, AllocError>
        ensures none { IfOk result (λ settled. settled ≡ []) }
        ensures succeeds { count ≤ inline_settlements → IsOk result }
    {
        Ok(Settlements {
            list: SmallVec::with_capacity(alloc, count as usize)?,
        })
    }

    /// One settlement. It does not allocate.
    pub fn one(alloc: Global, id: PromiseId, outcome: Outcome) -> Settlements
        ensures { result ≡ (id, outcome) ∷ [] }
    {
        let mut list = SmallVec::new(alloc);
        list.push_reserved((id, outcome));
        Settlements { list }
    }

    /// Adds a settlement after the others. It fails only if it is out of memory, and never for the first four; then the
    /// list is as it was.
    pub fn push(&mut self, id: PromiseId, outcome: Outcome) -> Result<(), AllocError>
        ensures ok { OnOk result (self.new ≡ self.old ++ (id, outcome) ∷ []) }
        ensures err { OnErr result (self.new ≡ self.old) }
        ensures succeeds { length self.old < inline_settlements → IsOk result }
    {
        Ok(self.list.push((id, outcome))?)
    }

    /// The settlements, oldest write first.
    pub fn as_slice(&self) -> &[(PromiseId, Outcome)]
        ensures { result.now ≡ self.now }
    {
        self.list.as_slice()
    }

    /// The same settlements. It fails only if it is out of memory, and never for up to four.
    pub fn copy(&self) -> Result<Settlements, AllocError>
        ensures same { IfOk result (λ copy. copy ≡ self.now) }
        ensures succeeds { length self.now ≤ inline_settlements → IsOk result }
    {
        Ok(Settlements {
            list: SmallVec::from_slice(*self.list.allocator(), self.list.as_slice())?,
        })
    }

    /// Whether the others are the same promises with the same outcomes, in the same order. It does not allocate.
    pub fn is_same(&self, others: &Settlements) -> bool
        ensures { IsTrue result ↔ (self.now ≡ others.now) }
    {
        self.as_slice() == others.as_slice()
    }
}
