use crate::account::Account;
use crate::bounds::Bounds;
use atomic_table::TableRule;

/// The one word: the total, and above it the bit of pressure. It is the ninth of sixteen, so that nothing else lies in its
/// cache line: the others are never written.
pub const WORD: usize = 8;

/// What holds between any two steps.
pub struct Rule;

impl TableRule<(), Account, Bounds> for Rule {
    ghost use Rattle.ob_budget.specs.Account.{first_account};
    ghost use Rattle.ob_budget.specs.Ruled.{Ruled};

    ghost holds = { Ruled };

    ghost first = { first_account };
}
