//! The tests of `ob_budget`: each call, and seats in threads of their own.
#![tactic(auto)]

#[cfg(test)]
mod tests;
