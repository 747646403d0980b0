use ob_types::Command;

/// What one line of a script asks.
#[derive(Drop)]
pub enum RunLine {
    /// To write a block of *n* bytes, which are made up where the line is carried out.
    Block(u64),
    /// To carry out a command.
    Command(Command),
    /// To show the buffer. Nothing changes, and no history tells of it.
    Look,
    /// To show which blocks in front can be sent at once, at most as many as it says, and of as many bytes. Nothing
    /// changes here either.
    Gather(u32, u32),
}
