use ob_core::{LaneStart, Turn};

/// What one line of a core script asks.
#[derive(Clone, Copy)]
pub enum CoreLine {
    /// One lane more, with its room and its bits.
    Lane(LaneStart),
    /// A turn of a lane.
    Turn(Turn),
}
