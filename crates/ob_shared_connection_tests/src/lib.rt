//! The tests of `ob_shared_connection`: each call through a handle, and handles in threads of their own.
#![tactic(auto)]

#[cfg(test)]
mod tests;
