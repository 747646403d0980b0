//! What one step does: it finds the word and the total in one number, reads its change off that, and leaves the rest.

ghost use Rattle.std.specs.Prelude.{◌≡◌, ◌<◌, ◌^◌, ℕ};
ghost use Rattle.ob_types.specs.Marks.{change_between};
ghost use Rattle.ob_core.specs.World.{with_bit, without_bit, SetsBit, ClearsBit, CoreState};
ghost use Rattle.ob_core.specs.Step.{IsCoreStep, value_found, change_found, LeavesRest};
ghost use Rattle.ob_core.specs.declared.lane_step.LaneStep.{LaneStep};
ghost use Rattle.ob_core.specs.declared.lane_step.LaneStep.TheVariants.{Load};

/// A step on the total leaves the user bits, a step on a user bit leaves the total, and a load leaves both.
pub fn a_step_leaves_the_rest()
    ensures rest { (old new : CoreState) (index : ℕ) (step : LaneStep) →
        IsCoreStep old index step new → LeavesRest step old new }
{}

/// A load leaves the word and the total.
pub fn a_load_changes_no_word()
    ensures load { (old new : CoreState) (index : ℕ) →
        IsCoreStep old index Load new → (new.total ≡ old.total) × (new.word ≡ old.word) }
{}

/// The change that a step reads off the value that it found is the change between the word before and after it. The
/// total that it found fits its half of that value.
pub fn a_step_finds_its_change()
    ensures change { (old new : CoreState) (index : ℕ) (step : LaneStep) →
        IsCoreStep old index step new → old.total < 2 ^ 32 →
        change_found step old.marks (value_found old) ≡ change_between old.word new.word }
{}

/// To set a bit of a word of any width sets that bit and leaves the others.
pub fn a_set_bit_leaves_the_others()
    ensures bits { (word index : ℕ) → SetsBit word index (with_bit word index) }
{}

/// To clear a bit of a word of any width clears that bit and leaves the others.
pub fn a_cleared_bit_leaves_the_others()
    ensures bits { (word index : ℕ) → ClearsBit word index (without_bit word index) }
{}
