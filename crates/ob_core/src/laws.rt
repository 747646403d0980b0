//! What holds of every world that `World::new` makes, whatever turns it is given. `World::turn` and `play` change a
//! world by the definitions that these laws speak of.

pub mod accounts;
pub mod steps;

ghost use Rattle.std.specs.Prelude.{◌≡◌, ◌<◌, ◌≤◌, List, true, false};
ghost use Rattle.ob_types.specs.Marks.{Marks};
ghost use Rattle.ob_types.specs.declared.reply.Change.TheVariants.{Unwritable};
ghost use Rattle.ob_core.specs.World.{is_set, CoreState, new_core, new_world, sum_owed};
ghost use Rattle.ob_core.specs.declared.ask.Turn.{Turn};
ghost use Rattle.ob_core.specs.declared.lane_start.LaneStart.{LaneStart};
ghost use Rattle.ob_core.specs.Turn.{IsOneStep, answers_of, changes_in, core_after_all, AlternateFrom, event_of};
ghost use Rattle.ob_core.specs.Turn.{core_after};

/// Each turn is one atomic step of the lane that has it, or a refused ask, or nothing.
pub fn each_turn_is_one_step()
    ensures one_step { (core : CoreState) (turn : Turn) →
        IsOneStep core turn.lane (event_of core turn) (core_after core turn) }
{}

/// After any turns the total is the sum that the lanes owe.
pub fn total_is_the_sum_owed()
    ensures counted { (marks : Marks) (starts : List LaneStart) (turns : List Turn) →
        (core_after_all (new_core marks starts) turns).total
        ≡ sum_owed (core_after_all (new_core marks starts) turns).lanes }
{}

/// The changes of the turns go to and fro, and the first is `Unwritable`.
pub fn changes_alternate()
    ensures alternate { (marks : Marks) (starts : List LaneStart) (turns : List Turn) →
        AlternateFrom Unwritable (changes_in (answers_of (new_core marks starts) turns)) }
{}

/// After any turns bit 0 is set if the total is above the high mark, and clear if it is below the low mark.
pub fn the_mark_stands()
    ensures above { (marks : Marks) (starts : List LaneStart) (turns : List Turn) →
        marks.low ≤ marks.high →
        marks.high < (core_after_all (new_core marks starts) turns).total →
        is_set (core_after_all (new_core marks starts) turns).word 0 ≡ true }
    ensures below { (marks : Marks) (starts : List LaneStart) (turns : List Turn) →
        marks.low ≤ marks.high →
        (core_after_all (new_core marks starts) turns).total < marks.low →
        is_set (core_after_all (new_core marks starts) turns).word 0 ≡ false }
{}

/// If the low mark is positive and the lanes owe nothing, bit 0 is clear. At a low mark of 0 it may stay set: no total
/// is below 0.
pub fn bit_zero_is_clear_at_rest()
    ensures clear { (marks : Marks) (starts : List LaneStart) (turns : List Turn) →
        0 < marks.low →
        sum_owed (core_after_all (new_core marks starts) turns).lanes ≡ 0 →
        is_set (core_after_all (new_core marks starts) turns).word 0 ≡ false }
{}
