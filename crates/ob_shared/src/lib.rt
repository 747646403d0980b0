//! A buffer with its whole history under a lock, and the callers that share it.
#![tactic(auto)]

mod callers;
mod desk;
mod done;
mod finish;
mod finish_fault;
mod locked;
mod named;
mod opening;
mod reader;
mod rule;
mod rung;
mod share;
mod shared_buffer;
mod words;
mod worked;

pub use desk::Desk;
pub use done::{Done, Final, Unfinished};
pub use finish_fault::FinishFault;
pub use named::Named;
pub use opening::Opening;
pub use reader::Reader;
pub use share::Share;
pub use shared_buffer::SharedBuffer;
