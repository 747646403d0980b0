//! Connections whose pending bytes a budget covers: what is pending of each is at most what its seat holds, so all
//! together hold at most the room of the budget, at each moment and on whatever threads.
#![tactic(auto)]

mod budgeted;
mod cover;
mod fault;

pub use budgeted::Budgeted;
pub use cover::Cover;
pub use fault::{NoSeat, NotWritten, Told, WriteFault};
