ghost use Rattle.std.specs.Prelude.{◌≡◌, ◌≤◌, ◌+◌};
ghost use Rattle.ob_lifecycle.specs.Events.{beyond, most_told, plus};

/// How many messages, and how many bytes they count together, each with the overhead of an entry.
#[derive(Clone, Copy, Debug, PartialEq, Eq)]
pub struct Count {
    /// How many messages.
    pub messages: u64,
    /// The bytes that they count.
    pub bytes: u64,
}

impl Count {
    /// This, and what one count has more than another.
    pub(crate) fn more_by(self, before: Count, after: Count) -> Count
        requires messages { self.messages + before.messages ≤ most_told }
        requires bytes { self.bytes + before.bytes ≤ most_told }
        ensures { result ≡ plus self (beyond before after) }
    {
        Count {
            messages: self.messages + before.messages.saturating_sub(after.messages),
            bytes: self.bytes + before.bytes.saturating_sub(after.bytes),
        }
    }
}
