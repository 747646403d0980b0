use std::marker::Brand;
use std::sync::ledger::Ledger;

/// Names one shared buffer. A type parameter with this bound stands for what was opened. All that belongs to one buffer
/// carries its name, so a share fits its own buffer alone.
///
/// Begin a buffer in a function that is generic over its name, with the opening as an argument. Call that function with
/// `std::marker::Brand` for the name, and pick what it stands for in the caller's `Invariants.antt`: `Named` is the
/// opening, and `Ledger` its `ledger` and its `callers`, as the tests of this crate do.
pub trait Named: Ledger {
    ghost use Rattle.ob_shared.specs.Calls.{Opened};

    /// What was opened under the name.
    ghost opened: { Opened };
}

impl Named for Brand {
    ghost use Rattle.ob_shared.specs.Calls.{nothing_opened};

    ghost opened = { nothing_opened };
}
