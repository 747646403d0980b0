//! The tests of `ob_lifecycle`.
#![tactic(auto)]

#[cfg(test)]
mod tests;
