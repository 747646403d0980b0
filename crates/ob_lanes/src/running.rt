use crate::facts::Facts;
use atomic_table::Seat;

/// What a lane is made of, with a debt or without: its seat at the words, and its room and bits, which a seat knows for
/// the proof alone.
#[derive(Drop)]
pub struct Running {
    pub seat: Seat<(), Facts>,
    pub room: u32,
    pub held: u32,
    /// Both as the lane's own last step left them, unless it was joined since: what it expects to find.
    pub last: Option<u64>,
}
