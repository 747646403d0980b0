//! What each kind of step tells the lane that makes it.
ghost use Rattle.std.specs.Prelude.{◌+◌, ◌^◌};
ghost use Rattle.std.specs.Int.{bit_not, w64};
ghost use Rattle.ob_core.specs.declared.lane_step.LaneStep.TheVariants as step;
ghost use Rattle.ob_lanes.specs.Ruled.{Told, ToldAdding, ToldSubtracting, ToldOfBit};

use crate::facts::Facts;
use atomic_table::Play;

pub struct Load;

impl Play<(), Facts> for Load {
    ghost then = { λ _ old found new. Told step.Load old found new };
}

pub struct Add;

impl Play<(), Facts> for Add {
    ghost then = { ToldAdding };
}

pub struct Subtract;

impl Play<(), Facts> for Subtract {
    ghost then = { ToldSubtracting };
}

/// An addition that cannot fail.
pub struct AddAtOnce;

impl Play<(), Facts> for AddAtOnce {
    ghost then = { λ by old found new. Told (step.Add by.first) old found new };
}

/// A subtraction that cannot fail.
pub struct SubtractAtOnce;

impl Play<(), Facts> for SubtractAtOnce {
    ghost then = { λ by old found new. Told (step.Subtract by.first) old found new };
}

pub struct SetBit;

impl Play<(), Facts> for SetBit {
    ghost then = { ToldOfBit step.SetBit (λ index. 2 ^ (index + 32)) };
}

pub struct ClearBit;

impl Play<(), Facts> for ClearBit {
    ghost then = { ToldOfBit step.ClearBit (λ index. bit_not w64 (2 ^ (index + 32))) };
}
