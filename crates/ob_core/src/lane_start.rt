/// What a lane begins with.
#[derive(Clone, Copy, Debug, PartialEq, Eq)]
pub struct LaneStart {
    /// The most bytes that the lane may owe at a time.
    pub room: u32,
    /// The mask of the user bits that the lane holds, bit i for index i. No lane may hold bit 0, and no two lanes
    /// one bit.
    pub bits: u32,
}
