//! Connections with a life: an end in order that is told once, a cap, numbers that add up, and peers that stall.
#![tactic(auto)]

mod changes;
mod count;
mod counted;
mod ending;
mod fault;
mod laws;
mod limits;
mod managed;
mod numbers;
mod refusals;
mod strain;
mod tally;
mod watch;
mod worked;

pub use count::Count;
pub use fault::{NotWritten, Told, WriteFault};
pub use laws::{
    a_peer_that_takes_enough_is_not_named, a_peer_that_takes_nothing_is_named, nothing_is_lost,
    the_end_is_told_once,
};
pub use limits::Limits;
pub use managed::ManagedConnection;
pub use numbers::Numbers;
pub use refusals::Refusals;
