//! From the bytes of a script to what its lines ask.

pub mod cursor;
pub mod fault;
pub mod faulty_line;
pub mod first_word;
pub mod grammar;
pub mod line;
pub mod lines;
pub mod numbers;
pub mod range;
pub mod script;
