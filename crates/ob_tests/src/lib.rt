//! The tests of the libraries of one thread and of the lanes. They ask what anyone can ask of them, so the libraries are
//! proved without them. Most of them play stories of `ob_stories`.
#![tactic(auto)]

#[cfg(test)]
mod tests;
