//! The tests of `ob_cli`: what the program `ob_tool` leaves of its words and its script.
#![tactic(auto)]

#[cfg(test)]
mod tests;
