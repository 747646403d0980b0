//! The trace of a script that is carried out line by line.

pub mod interpret;
pub mod interpreter;
pub mod text;
pub mod trace;
pub mod write;
