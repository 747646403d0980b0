//! One atomic step each, made by the lane whose seat is passed.
ghost use Rattle.std.specs.Prelude.{◌≡◌, ◌<◌, ◌+◌, ◌≤◌, ◌↔◌, IsTrue};
ghost use Rattle.ob_types.specs.Marks.{total_half};
ghost use Rattle.ob_core.specs.declared.lane_step.LaneStep.TheVariants.{Add, Subtract, SetBit, ClearBit, Load};
ghost use Rattle.ob_lanes.specs.Ruled.{IsCalm, MayExpect, MayMake, Makes, MakesOrReads};

use super::Words;
use crate::both::{HALF, after_add, after_subtract};
use crate::facts::Facts;
use crate::plays;
use crate::rule::BOTH;
use atomic_table::Seat;
use ob_types::WaterMark;

impl Words {
    pub(crate) fn marks(&self) -> WaterMark
        ensures marks { result ≡ self.now.grant.marks }
        ensures room { self.now.grant.room < 4294967296 }
    {
        self.grant.marks
    }

    /// Whether no total is above the high mark, however much of the whole room is owed.
    pub(crate) fn is_calm(&self) -> bool
        ensures { IsTrue result ↔ IsCalm self.now.grant }
    {
        self.grant.room <= self.grant.marks.high()
    }

    /// Reads both.
    pub(crate) fn load(&self, seat: &mut Seat<(), Facts>) -> u64
        requires { MayMake self.now seat.old Load }
        ensures { Makes Load seat.old result seat.new }
    {
        self.table.shared.load::<plays::Load>(seat, BOTH)
    }

    /// Sets a bit of the word.
    pub(crate) fn set_bit(&self, seat: &mut Seat<(), Facts>, index: u32) -> u64
        requires { MayMake self.now seat.old (SetBit index) }
        ensures { Makes (SetBit index) seat.old result seat.new }
    {
        self.table
            .shared
            .fetch_or::<plays::SetBit>(seat, BOTH, HALF << index)
    }

    /// Clears a bit of the word.
    pub(crate) fn clear_bit(&self, seat: &mut Seat<(), Facts>, index: u32) -> u64
        requires { MayMake self.now seat.old (ClearBit index) }
        ensures { Makes (ClearBit index) seat.old result seat.new }
    {
        let others = !(HALF << index);
        self.table
            .shared
            .fetch_and::<plays::ClearBit>(seat, BOTH, others)
    }

    /// Adds, if both are as expected; else it is a read.
    pub(crate) fn try_add(&self, seat: &mut Seat<(), Facts>, expected: u64, amount: u32) -> u64
        requires may { MayMake self.now seat.old (Add amount) }
        requires expected { MayExpect seat.old.me.0 expected }
        ensures made { MakesOrReads (Add amount) expected seat.old result seat.new }
        ensures fits { total_half expected + amount < 4294967296 }
    {
        let next = after_add(self.marks(), expected, amount);
        self.table
            .shared
            .compare_exchange::<plays::Add>(seat, BOTH, expected, next)
    }

    /// Subtracts, if both are as expected; else it is a read.
    pub(crate) fn try_subtract(&self, seat: &mut Seat<(), Facts>, expected: u64, amount: u32) -> u64
        requires may { MayMake self.now seat.old (Subtract amount) }
        requires expected { MayExpect seat.old.me.0 expected }
        ensures made { MakesOrReads (Subtract amount) expected seat.old result seat.new }
        ensures fits { amount ≤ total_half expected }
    {
        let next = after_subtract(self.marks(), expected, amount);
        self.table
            .shared
            .compare_exchange::<plays::Subtract>(seat, BOTH, expected, next)
    }

    /// Adds, if no total is above the high mark: then no bit moves, and it cannot fail.
    pub(crate) fn add_at_once(&self, seat: &mut Seat<(), Facts>, amount: u32) -> u64
        requires may { MayMake self.now seat.old (Add amount) }
        requires calm { IsCalm self.now.grant }
        ensures made { Makes (Add amount) seat.old result seat.new }
        ensures fits { total_half result + amount < 4294967296 }
    {
        let _marks = self.marks();
        self.table
            .shared
            .fetch_add::<plays::AddAtOnce>(seat, BOTH, u64::from(amount))
    }

    /// Subtracts, if no total is above the high mark.
    pub(crate) fn subtract_at_once(&self, seat: &mut Seat<(), Facts>, amount: u32) -> u64
        requires may { MayMake self.now seat.old (Subtract amount) }
        requires calm { IsCalm self.now.grant }
        ensures made { Makes (Subtract amount) seat.old result seat.new }
        ensures fits { amount ≤ total_half result }
    {
        self.table
            .shared
            .fetch_sub::<plays::SubtractAtOnce>(seat, BOTH, u64::from(amount))
    }
}
