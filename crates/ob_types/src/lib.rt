//! The words of an outbound buffer: messages and their sizes, water marks, promises, commands and replies.
#![tactic(auto)]

mod command;
mod estimate;
mod message;
mod packed;
mod promise;
mod refusal;
mod reply;
mod settlements;
mod water_mark;

pub use command::Command;
pub use estimate::{Estimate, pending_size, pending_size_of_block, pending_size_of_length};
pub use message::Message;
pub use packed::{pack, unpack};
pub use promise::{Cause, Outcome, PromiseId, PromiseState};
pub use refusal::Refusal;
pub use reply::{Answer, Change, Reply};
pub use settlements::{Settlements, Spare};
pub use water_mark::WaterMark;
