use ob_seq::Look;

/// A look at a buffer, and how many records its history had then.
#[derive(Clone, Copy, Debug, PartialEq, Eq)]
pub struct Seen {
    /// How many calls were recorded before the look.
    pub place: u32,
    /// What the look showed.
    pub look: Look,
}
