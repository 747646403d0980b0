ghost use Rattle.std.specs.Prelude.{◌≡◌};

use ob_types::{Message, Refusal};
use thiserror::Error;

/// A message that a connection refused, and why: it is the caller's again.
#[derive(Debug, Drop, Error)]
#[error("{refusal}")]
pub struct Refused {
    /// Why it was refused.
    pub refusal: Refusal,
    /// The message, whole.
    pub message: Message,
}

impl From<Refused> for Refusal {
    /// The reason alone: the message is let go.
    fn from(refused: Refused) -> Refusal
        ensures { result ≡ refused.refusal }
    {
        refused.refusal
    }
}
