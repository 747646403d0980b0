//! A connection that tasks share. A task that may not go on leaves its waker at the connection, and the very call that
//! lets it go on wakes it: that no wake-up is lost is a clause.
#![tactic(auto)]

mod moment;
mod outbound;
mod task_connection;

pub use moment::Moment;
pub use outbound::{HasWork, IsWritable, Outbound, OwnedHasWork, OwnedIsWritable};
pub use task_connection::TaskConnection;
