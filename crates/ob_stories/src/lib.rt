//! The worked rows: what each crate is asked, line by line, and what it answers, worked out by hand.
//!
//! A text holds stories. Each begins with `#` and what is so, and a line of `$` and the words of a command line. Then
//! come its lines: what is asked, a slash, and what is answered, in the words of the scripts and traces of `ob_tool` if
//! it has them. `5 times` before a line asks it five times, and the answer is the last one. Tests alone read these texts,
//! and no library stands on this crate.
#![tactic(auto)]

mod connections;
mod drives;
mod history;
mod looks;
mod passes;
mod run;
mod shared;
mod turns;

pub use connections::CONNECTIONS;
pub use drives::{DRIVES, PLANS};
pub use history::HISTORY;
pub use looks::{LIMITS, LOOKS};
pub use passes::{PASSES, SCARCE, SIX, SIX_FLUSHED};
pub use run::{FULL, RUN};
pub use shared::{CROSSING, SHARED, TOLD};
pub use turns::CORE;
