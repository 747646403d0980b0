//! The tests of `ob_covered`.
#![tactic(auto)]

#[cfg(test)]
mod tests;
