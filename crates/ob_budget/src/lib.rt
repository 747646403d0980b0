//! A budget for the memory of many connections on any number of threads: one word has the bytes that all seats hold
//! together, and no step leaves it above the room. Room is in common: a seat is raised and lowered by any amount, and what
//! one gives back any other may take at once.
//!
//! Linux has such a budget for TCP (`tcp_mem`), and so has Envoy for its buffers; Netty has none, so this one is our own.
//! Between any two atomic steps of any threads the total is the sum of what the seats hold, and at most the room; pressure
//! stands above the high mark, does not stand below the low one, and each change of it is told once, to the seat whose step
//! made it. That is the rule of the word, which no caller sees; a call promises what its own seat has seen of it.
//!
//! No call waits, so a static library may have them: one that loses too many exchanges to other seats says so.
#![tactic(auto)]

mod account;
mod bounds;
mod budget;
mod fault;
mod glance;
mod parts;
mod plays;
mod pressure;
mod rule;
mod seat;
mod word;

pub use account::Account;
pub use bounds::Bounds;
pub use budget::Budget;
pub use fault::{BoundsFault, Busy, OneSeat, RaiseFault, SeatsOut};
pub use glance::Glance;
pub use pressure::{Look, Pressure};
pub use seat::Seat;
