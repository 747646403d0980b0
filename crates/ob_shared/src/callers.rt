ghost use Rattle.std.specs.Prelude.{◌≡◌};

use crate::named::Named;
use std::marker::PhantomData;

/// How many callers share a buffer, each with one part of its ledger.
#[derive(Drop)]
pub struct Callers<L: Named> {
    pub count: u32,
    of: PhantomData<L>,
    ghost opened: { count ≡ L.opened.callers },
    ghost parts: { count ≡ L.parts },
}

impl<L: Named> Callers<L> {
    /// As many callers as were opened.
    pub fn new(count: u32) -> Callers<L>
        requires opened { count ≡ L.opened.callers }
        requires parts { count ≡ L.parts }
        ensures { result.count ≡ count }
    {
        Callers {
            count,
            of: PhantomData,
        }
    }
}
