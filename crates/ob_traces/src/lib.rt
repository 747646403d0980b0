//! The traces that scripts leave, read back: what one comes to, and its picture.
#![tactic(auto)]

mod drawing;
mod summing;
mod traces;

pub use drawing::draw;
pub use summing::make::{Summary, make_summary};
pub use summing::settlements::Settlements;
pub use summing::summary;
pub use summing::text::{push_levels, push_settlements};
pub use summing::top::Top;
pub use traces::line::{Settled, Told, TraceLine};
