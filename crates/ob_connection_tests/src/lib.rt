//! The tests of `ob_connection`, and of what servers do with it by `ob_patterns`.
#![tactic(auto)]

#[cfg(test)]
mod tests;
