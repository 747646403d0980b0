use ob_transport::SinkStep;
use ob_types::Command;

/// What one line of a drive script asks.
#[derive(Drop)]
pub enum DriveLine {
    /// A writer is to do something.
    Writer(WriterLine),
    /// The sink is to do this in its next call.
    Sink(SinkStep),
    /// How much each call of the sink takes at most once its steps are used.
    Then(u64),
    /// How many passes the transport makes at most.
    Turns(u32),
}

/// What a line of a drive script asks of a writer.
#[derive(Drop)]
pub struct WriterLine {
    /// The number of the writer, from 0 on.
    pub writer: u8,
    /// What it is to do.
    pub action: WriterAction,
}

/// What a writer is to do.
#[derive(Drop)]
pub enum WriterAction {
    /// To write blocks: of how many bytes each, and how many. They are made up where the plan is.
    Blocks(u64, u32),
    /// To give a command.
    Command(Command),
}
