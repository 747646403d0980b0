//! The one word of an outbound buffer on real threads, which holds the total beside the bits: lanes charge and discharge
//! bytes in flight by compare-exchange, take no lock, and set and clear bits in one atomic operation.
//!
//! Netty has two words, `totalPendingSize` and `unwritable`. Here each atomic operation is one step of the core of
//! `ob_core`, whatever the schedule: between any two of them the word and the lanes are a core state that one run of the
//! core leads to, and that run begins with every run that any lane has seen. That is the rule of the word, which no caller
//! sees; what a call promises of it is what its own lane has seen. What holds of every run holds of these threads.
#![tactic(auto)]

mod both;
mod charged;
mod facts;
mod fault;
mod grant;
mod lane;
mod laws;
mod opened;
mod parts;
mod plays;
mod rule;
mod running;
mod words;
mod worked;

pub use charged::Charged;
pub use facts::{Ended, Made, Move};
pub use fault::{NoRoom, NotHeld, RoomOut, SplitFault};
pub use lane::Lane;
pub use laws::{
    every_charged_lane_is_marked, every_lane_is_free, every_run_keeps_the_accounts,
    runs_seen_by_one_are_in_line, the_changes_of_every_run_take_turns, the_mark_stands,
};
pub use opened::lanes;
pub use words::Words;
