//! The lines of a trace of `run` or of `core`, read back.

pub mod line;
pub mod read;
pub mod tell;
pub mod trace;
pub mod words;
