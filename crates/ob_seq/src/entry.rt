use ob_types::Message;

/// A message that waits to be sent, with its promise.
#[derive(Debug, Drop)]
pub struct Entry {
    /// What is left of the message.
    pub message: Message,
    /// Its progress so far, in bytes.
    pub progress: u64,
    /// The bytes that it counts: none once it was voided.
    pub size: u32,
    /// Whether its promise was taken back: a flush voids it then. Else the promise waits until a flush fixes it.
    pub taken_back: bool,
}
