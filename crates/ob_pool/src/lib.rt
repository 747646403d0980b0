//! Writers in threads of their own, and beside them one transport, over one shared buffer.
//!
//! Each writer has a plan of commands, a share of the buffer, and a lane, which it charges with a message while it
//! hands that to the buffer. `drive` carries all plans out, and answers the finished history with its numbers.
#![tactic(auto)]

mod config;
mod driving;
mod fault;
mod gate;
mod opening;
mod plan;
mod planning;
mod report;
mod threads;

pub use config::{Config, TASK_OVERHEAD};
pub use driving::drive;
pub use fault::DriveFault;
pub use gate::{Gate, OpenGate, Stuck};
pub use plan::Plan;
pub use report::Report;
