//! The one word of an outbound buffer, which holds its total beside its bits, as a pure machine: lanes charge,
//! discharge and set bits, one atomic step a call, in whatever order a schedule gives them their turns.
#![tactic(auto)]

mod ask;
mod ask_fault;
mod bits;
mod event;
mod lane;
mod lane_start;
mod lane_step;
mod laws;
mod player;
mod start_fault;
mod worked;
mod world;
mod world_fault;

pub use ask::{Ask, Turn};
pub use ask_fault::AskFault;
pub use event::Event;
pub use lane::Lane;
pub use lane_start::LaneStart;
pub use lane_step::LaneStep;
pub use laws::accounts::{
    a_division_keeps_the_accounts, a_free_lane_with_the_whole_room_ends_at_nothing,
    a_merger_keeps_the_accounts, a_new_world_has_its_accounts, accounts_bound_the_total,
    accounts_show_held_bits, accounts_show_the_mark, each_step_keeps_the_accounts,
    each_turn_keeps_the_accounts, one_lane_has_its_accounts,
};
pub use laws::steps::{
    a_cleared_bit_leaves_the_others, a_load_changes_no_word, a_set_bit_leaves_the_others,
    a_step_finds_its_change, a_step_leaves_the_rest,
};
pub use laws::{
    bit_zero_is_clear_at_rest, changes_alternate, each_turn_is_one_step, the_mark_stands,
    total_is_the_sum_owed,
};
pub use player::play;
pub use world::World;
pub use world_fault::WorldFault;
