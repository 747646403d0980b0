ghost use Rattle.std.specs.Prelude.{◌≡◌};
ghost use Rattle.ob_types.specs.Replies.{is_waiting};

/// Which accepted write of a buffer a promise belongs to: the first has 0, the next 1, and so on.
#[derive(Clone, Copy, Debug, Default, PartialEq, Eq)]
pub struct PromiseId(pub u32);

/// Why a write failed, by a number that means something to the application alone.
#[derive(Clone, Copy, Debug, Default, PartialEq, Eq)]
pub struct Cause(pub u32);

/// How a promise was settled. A promise is settled once.
#[derive(Clone, Copy, Debug, Default, PartialEq, Eq)]
pub enum Outcome {
    /// The message was sent.
    #[default]
    Success,
    /// The message was given up.
    Failed(Cause),
    /// The application took the message back before a flush.
    Cancelled,
}

/// What has become of a promise so far.
#[derive(Clone, Copy, Debug, Default, PartialEq, Eq)]
pub enum PromiseState {
    /// It may still be cancelled.
    #[default]
    Waiting,
    /// A flush has fixed it: it can no longer be cancelled (Netty's `setUncancellable`).
    Fixed,
    /// It is settled, for good.
    Settled(Outcome),
}

impl PromiseState {
    /// Whether nothing has become of the promise yet: no flush has fixed it, and it is not settled.
    pub fn is_waiting(self) -> bool
        ensures { result ≡ is_waiting self }
    {
        matches!(self, PromiseState::Waiting)
    }
}
