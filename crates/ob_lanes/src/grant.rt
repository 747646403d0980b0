use ob_types::WaterMark;
use std::marker::Model;

/// What the one word is opened with.
#[derive(Clone, Copy, Debug, PartialEq, Eq)]
pub struct Grant {
    /// The marks that the total is held against.
    pub marks: WaterMark,
    /// The most bytes that all lanes together may owe at a time.
    pub room: u32,
    /// The mask of the user bits that the lanes hold together.
    pub bits: u32,
}

impl Model for Grant {
    ghost use Rattle.ob_core.specs.World.{Grant as CoreGrant};

    ghost Value = { CoreGrant };

    ghost view = { λ o. record { marks = o.marks; room = o.room; bits = o.bits } };

    ghost inverse = { λ o. record { marks = o.marks; room = o.room; bits = o.bits } };
}
