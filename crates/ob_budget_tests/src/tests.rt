ghost use Rattle.std.specs.Prelude.{◌≡◌, IfOk};

mod calls;
mod threads;

use ob_budget::{Bounds, Budget, Look, Seat};
use std::alloc::Global;
use std::test::Fail;

/// A budget of 1000 bytes, with marks of 200 and 800, and the seat that is for all.
fn opened(alloc: Global) -> Result<(Budget, Seat), Fail>
    ensures { IfOk result (λ ok. ok.1.budget ≡ ok.0) }
{
    Ok(Budget::open(alloc, Bounds::new(1000, 200, 800)?)?)
}

/// A look at this many bytes.
fn seen(total: u64, is_pressed: bool) -> Look {
    Look { total, is_pressed }
}
