//! An outbound buffer for servers: a connection that no number of writes ends. Its calls return what those of
//! `ob_seq`'s buffer do, and it keeps what waits and nothing of what is gone but its number.
#![tactic(auto)]

mod chunk;
mod connection;
mod ending;
mod laws;
mod look;
mod refused;
mod replies;
mod socket;
mod status;

pub use connection::{Connection, SendFault, Sent, length_of_parts};
pub use ending::Ending;
pub use laws::{each_promise_is_settled_once_and_told, the_limit_is_out_of_reach};
pub use look::Look;
pub use refused::Refused;
pub use replies::{Flushed, Removed, SentTurns, Taken, Written};
pub use socket::{Socket, SocketFault};
pub use status::Status;
