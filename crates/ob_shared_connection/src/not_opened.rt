use ob_covered::Cover;
use ob_types::Refusal;

/// A connection that was not opened within a budget, and why: its cover is the caller's again.
#[derive(Drop)]
pub struct NotOpened {
    /// Why it was not opened.
    pub why: Refusal,
    /// The cover, which holds what it held.
    pub cover: Cover,
}
