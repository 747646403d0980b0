//! What servers do with a connection, each in a few lines. `docs/server.md` shows them.
#![tactic(auto)]

mod broadcasting;
mod chunks;
mod frames;
mod next;
mod proxy;
mod responding;
mod slow;
mod turns;
mod urgent;
mod writers;

pub use broadcasting::{LeftOut, Reached, broadcast, hand};
pub use chunks::{Chunks, Progress, write_chunks};
pub use frames::most_frame_bytes;
pub use next::Next;
pub use proxy::{forward, forwarded};
pub use responding::respond;
pub use slow::{TOO_SLOW, give_up_if_slow};
pub use turns::{BROKEN, Peer, serve, spin};
pub use urgent::send_urgent_first;
pub use writers::respond_from_any_thread;
