//! The transport: it hands flushed messages to a sink, and books in a history what the sink took.
#![tactic(auto)]

mod booking;
mod draining;
mod fault;
mod laws;
mod limits;
mod next;
mod script;
mod sending;
mod sink;
mod worked;

pub use booking::book;
pub use draining::{Drained, Stop, drain};
pub use fault::{Pass, PassFault};
pub use laws::{a_history_sends_what_its_records_send, what_a_pass_takes_is_sent};
pub use limits::Limits;
pub use script::{ScriptSink, SinkStep};
pub use sending::pass;
pub use sink::{Sink, SinkFault};
