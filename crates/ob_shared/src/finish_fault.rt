ghost use Rattle.std.specs.Prelude.{◌≡◌};

use thiserror::Error;

/// Why a shared buffer was not finished. A missing share is asked for first, then missing receipts, and then all that
/// was handed in, until something is foreign or memory is refused.
#[derive(Clone, Copy, Debug, PartialEq, Eq, Error)]
pub enum FinishFault {
    /// The share of a caller was not handed in.
    #[error("the share of a caller is missing")]
    SharesMissing,
    /// What a caller handed in is not of the history, and names this place: a receipt that is not the record there, or
    /// that names another caller, or comes after one of a later place; a receipt that the caller was told of and that
    /// is not the record there; or a look that shows something else.
    #[error("caller {caller} handed in what is not of the history, at place {place}")]
    ForeignReceipt { caller: u32, place: u32 },
    /// The allocator refused, or a block has more owners than can be counted.
    #[error("out of memory")]
    NoMemory,
    /// A caller handed in another number of receipts than were made with its share.
    #[error("caller {caller} handed in another number of receipts than it made records")]
    ReceiptsMissing { caller: u32 },
}

impl FinishFault {
    ghost use Rattle.ob_shared.specs.Calls.{number_of};

    /// The number of the fault, 1 to 4.
    pub fn number(self) -> u8
        ensures { result ≡ number_of self }
    {
        match self {
            FinishFault::SharesMissing => 1,
            FinishFault::ForeignReceipt { .. } => 2,
            FinishFault::NoMemory => 3,
            FinishFault::ReceiptsMissing { .. } => 4,
        }
    }
}
