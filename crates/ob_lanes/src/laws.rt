//! What holds of every run of the core that the calls on lanes speak of, and of every lane between two calls.

ghost use Rattle.std.specs.Prelude.{◌≡◌, ◌<◌, ◌≤◌, ◌^◌, ◌⊎◌, ℕ, List, true, false};
ghost use Rattle.ob_types.specs.Marks.{is_writable};
ghost use Rattle.ob_core.specs.World.{AccountsHold, is_set, CoreState, Grant, one_lane};
ghost use Rattle.ob_core.specs.Step.{IsFree};
ghost use Rattle.ob_lanes.specs.Run.{BeginsWith, changes_of, writable_after, TakeTurns, Leads};
ghost use Rattle.ob_lanes.specs.declared.facts.Move.{Move};

use crate::charged::Charged;
use crate::lane::Lane;

/// Wherever a run leads, the accounts hold: the total is the sum owed, the rooms add up to the whole room, and each
/// user bit that the word shows is the doing of the one lane that holds it.
pub fn every_run_keeps_the_accounts()
    ensures kept { (grant : Grant) (moves : List Move) (core : CoreState) →
        is_set grant.bits 0 ≡ false → Leads (one_lane grant) moves core → AccountsHold grant core }
{}

/// Wherever a run leads, bit 0 is set if the total is above the high mark, and clear if it is below the low mark.
pub fn the_mark_stands()
    ensures above { (grant : Grant) (moves : List Move) (core : CoreState) →
        is_set grant.bits 0 ≡ false → grant.marks.low ≤ grant.marks.high →
        Leads (one_lane grant) moves core → grant.marks.high < core.total → is_set core.word 0 ≡ true }
    ensures below { (grant : Grant) (moves : List Move) (core : CoreState) →
        is_set grant.bits 0 ≡ false → grant.marks.low ≤ grant.marks.high →
        Leads (one_lane grant) moves core → core.total < grant.marks.low → is_set core.word 0 ≡ false }
{}

/// What all lanes report along a run goes to and fro, and begins with `Unwritable`; the writers may go on after it
/// exactly if no bit of the word is set. The room fits 32 bits, as every room that a word is opened with.
pub fn the_changes_of_every_run_take_turns()
    ensures turns { (grant : Grant) (moves : List Move) (core : CoreState) →
        is_set grant.bits 0 ≡ false → grant.room < 2 ^ 32 → Leads (one_lane grant) moves core →
        TakeTurns (changes_of grant.marks moves) }
    ensures now { (grant : Grant) (moves : List Move) (core : CoreState) →
        is_set grant.bits 0 ≡ false → grant.room < 2 ^ 32 → Leads (one_lane grant) moves core →
        is_writable core.word ≡ writable_after (changes_of grant.marks moves) }
{}

/// Of two runs that one run begins with, one begins with the other: what lanes have seen is in line.
pub fn runs_seen_by_one_are_in_line()
    ensures in_line { (run first second : List Move) →
        BeginsWith run first → BeginsWith run second → BeginsWith first second ⊎ BeginsWith second first }
{}

/// Whoever has a lane has a free one: it owes nothing. Bit 0 is none of the bits that its word was opened with, and the
/// low mark is at most the high one, so the laws above speak of the run that it stands in.
pub fn every_lane_is_free(lane: &Lane)
    ensures free { IsFree lane.now.lane }
    ensures mark { is_set lane.now.words.grant.bits 0 ≡ false }
    ensures ordered { lane.now.words.grant.marks.low ≤ lane.now.words.grant.marks.high }
{
    // for the proof alone: what every lane keeps
    let _room = lane.running.room;
}

/// Of a charged lane, bit 0 is none of the bits that its word was opened with either, and the low mark is at most the
/// high one.
pub fn every_charged_lane_is_marked(charged: &Charged)
    ensures mark { is_set charged.now.words.grant.bits 0 ≡ false }
    ensures ordered { charged.now.words.grant.marks.low ≤ charged.now.words.grant.marks.high }
{
    // for the proof alone: what every charged lane keeps
    let _owed = charged.owed;
}
