//! The accounts of the lanes: if they hold at the beginning, each step, each turn, each division and each merger
//! keeps them, and what follows from them.

ghost use Rattle.std.specs.Prelude.{◌≡◌, ℕ, ◌+◌, ◌<◌, ◌≤◌, List, true, false, Some, None, slice_get};
ghost use Rattle.std.specs.Int.{bit_at};
ghost use Rattle.ob_types.specs.Marks.{Marks};
ghost use Rattle.ob_core.specs.World.{AccountsHold, owed_by, is_set, CoreState, Grant, start_fault, grant_of, new_core};
ghost use Rattle.ob_core.specs.World.{one_lane};
ghost use Rattle.ob_core.specs.Step.{IsDivision, IsFree, IsMerger, IsCoreStep};
ghost use Rattle.ob_core.specs.Turn.{core_after};
ghost use Rattle.ob_core.specs.declared.ask.Turn.{Turn};
ghost use Rattle.ob_core.specs.declared.lane.Lane.{Lane};
ghost use Rattle.ob_core.specs.declared.lane_start.LaneStart.{LaneStart};
ghost use Rattle.ob_core.specs.declared.lane_step.LaneStep.{LaneStep};

/// The accounts of a world that begins hold.
pub fn a_new_world_has_its_accounts()
    ensures new { (marks : Marks) (starts : List LaneStart) → start_fault starts ≡ None →
        AccountsHold (grant_of marks starts) (new_core marks starts) }
{}

/// The accounts of a lone lane with the whole room and all bits hold, if these leave bit 0 to the mark.
pub fn one_lane_has_its_accounts()
    ensures new { (grant : Grant) → is_set grant.bits 0 ≡ false →
        AccountsHold grant (one_lane grant) }
{}

/// Each step of a lane keeps the accounts, whatever the schedule is.
pub fn each_step_keeps_the_accounts()
    ensures kept { (grant : Grant) (old new : CoreState) (index : ℕ) (step : LaneStep) →
        IsCoreStep old index step new → AccountsHold grant old → AccountsHold grant new }
{}

/// Each turn keeps the accounts, also one that is refused or does not touch the word.
pub fn each_turn_keeps_the_accounts()
    ensures kept { (grant : Grant) (core : CoreState) (turn : Turn) →
        AccountsHold grant core → AccountsHold grant (core_after core turn) }
{}

/// A lane that gives part of its room and of its bits to a new one keeps the accounts.
pub fn a_division_keeps_the_accounts()
    ensures kept { (grant : Grant) (old new : CoreState) (index : ℕ) (kept_lane given : Lane) →
        IsDivision old index kept_lane given new → AccountsHold grant old → AccountsHold grant new }
{}

/// Two lanes that become one keep the accounts.
pub fn a_merger_keeps_the_accounts()
    ensures kept { (grant : Grant) (old new : CoreState) (index other : ℕ) (both : Lane) →
        IsMerger old index other both new → AccountsHold grant old → AccountsHold grant new }
{}

/// The total is at least what one lane owes, and at most that and all room outside the lane.
pub fn accounts_bound_the_total()
    ensures least { (grant : Grant) (core : CoreState) (index : ℕ) (lane : Lane) →
        AccountsHold grant core → slice_get core.lanes index ≡ Some lane → owed_by lane ≤ core.total }
    ensures most { (grant : Grant) (core : CoreState) (index : ℕ) (lane : Lane) →
        AccountsHold grant core → slice_get core.lanes index ≡ Some lane →
        core.total + lane.room ≤ grant.room + owed_by lane }
{}

/// Of the bits that a lane holds, the word shows exactly those that the lane has raised.
pub fn accounts_show_held_bits()
    ensures shown { (grant : Grant) (core : CoreState) (index : ℕ) (lane : Lane) (bit : ℕ) →
        AccountsHold grant core → slice_get core.lanes index ≡ Some lane →
        bit_at lane.held bit ≡ 1 → bit_at core.word bit ≡ bit_at lane.raised bit }
{}

/// Bit 0 is set while the total is above the high mark, and clear while it is below the low mark.
pub fn accounts_show_the_mark()
    ensures above { (grant : Grant) (core : CoreState) →
        AccountsHold grant core → grant.marks.low ≤ grant.marks.high → grant.marks.high < core.total →
        is_set core.word 0 ≡ true }
    ensures below { (grant : Grant) (core : CoreState) →
        AccountsHold grant core → grant.marks.low ≤ grant.marks.high → core.total < grant.marks.low →
        is_set core.word 0 ≡ false }
{}

/// If a lane owes nothing and has the whole room, the total is 0, and at a positive low mark bit 0 is clear.
pub fn a_free_lane_with_the_whole_room_ends_at_nothing()
    ensures total { (grant : Grant) (core : CoreState) (index : ℕ) (lane : Lane) →
        AccountsHold grant core → slice_get core.lanes index ≡ Some lane → IsFree lane → grant.room ≤ lane.room →
        core.total ≡ 0 }
    ensures mark { (grant : Grant) (core : CoreState) (index : ℕ) (lane : Lane) →
        AccountsHold grant core → slice_get core.lanes index ≡ Some lane → IsFree lane → grant.room ≤ lane.room →
        0 < grant.marks.low → is_set core.word 0 ≡ false }
{}
