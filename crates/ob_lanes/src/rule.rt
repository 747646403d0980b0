use crate::facts::Facts;
use crate::grant::Grant;
use atomic_table::TableRule;

/// The one word, with the word of bits in its high half and the total in its low half, as `ob_types::pack` lays them out.
/// It is the ninth of sixteen, so that nothing else lies in its cache line: the others are never written.
pub const BOTH: usize = 8;

/// What holds between any two steps.
pub struct Rule;

impl TableRule<(), Facts, Grant> for Rule {
    ghost use Rattle.ob_lanes.specs.Ruled.{Ruled};
    ghost use Rattle.ob_lanes.specs.Run.{first_facts};

    ghost holds = { Ruled };

    ghost first = { first_facts };
}
