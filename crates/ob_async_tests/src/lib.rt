//! The tests of `ob_async`.
#![tactic(auto)]

#[cfg(test)]
mod tests;
