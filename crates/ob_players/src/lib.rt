//! What plays the stories of `ob_stories`: each line of a story is asked of a player, whose answer has to be that of the
//! line. The crates of tests stand on it, and no library does.
#![tactic(auto)]

pub mod buffers;
pub mod commands;
pub mod looks;
pub mod meeting;
pub mod run;
pub mod sinks;
pub mod story;
pub mod trace;
pub mod words;
