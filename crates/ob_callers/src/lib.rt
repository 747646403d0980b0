//! The callers that `docs/calls.md` points to, which tests play.
#![tactic(auto)]

pub mod caller;
pub mod in_flight;
