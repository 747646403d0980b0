//! One connection for many threads, with nothing stored of what is past: a handle for each thread, and the list of all
//! accepted calls in contracts alone.
#![tactic(auto)]

mod act;
mod ask;
mod bell;
mod call;
mod caller;
mod carried;
pub mod commands;
mod ended;
mod glance;
mod guard;
mod handle;
mod lacking;
mod laws;
pub mod looks;
mod moment;
mod not_opened;
mod not_written;
mod offered;
mod over;
mod owed;
mod patience;
mod place;
mod plays;
mod rule;
mod shared;
mod transport;
mod view;
mod wakes;
pub mod writes;
mod written;

pub use act::Act;
pub use ask::Ask;
pub use call::Call;
pub use ended::Ended;
pub use glance::Glance;
pub use guard::Guard;
pub use handle::{Handle, TooManyHandles};
pub use laws::{what_all_connections_hold_is_within_the_room, what_was_gathered_stays_in_front};
pub use moment::Moment;
pub use not_opened::NotOpened;
pub use not_written::{NotWritten, WriteFault};
pub use over::OverBudget;
pub use transport::{SendFault, Transport};
pub use wakes::Wakes;
pub use written::WrittenAndFlushed;
