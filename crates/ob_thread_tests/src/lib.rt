//! The tests of `ob_shared`, of the transport over it, and of `ob_pool`: callers and writers in threads of their own.
#![tactic(auto)]

#[cfg(test)]
mod tests;
