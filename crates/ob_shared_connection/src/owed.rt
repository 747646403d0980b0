//! What is owed to who waits.
ghost use Rattle.std.specs.Prelude.{◌≡◌};

use crate::bell::Bell;
use std::marker::PhantomData;

/// Whether those who waited at a bell are still to be woken, since it was silenced. It cannot be dropped: whoever has it
/// tells it.
pub struct Owed<B: Bell> {
    /// Whether anyone waited.
    pub waits: bool,
    of: PhantomData<B>,
}

impl<B: Bell> Owed<B> {
    pub fn new(waits: bool) -> Owed<B>
        ensures { result.waits ≡ waits }
    {
        Owed {
            waits,
            of: PhantomData,
        }
    }

    /// Tells whether anyone waited: whoever is told wakes them.
    pub fn tell(self) -> bool
        ensures { result ≡ self.waits }
    {
        let Owed { waits, of: _ } = self;
        waits
    }
}
