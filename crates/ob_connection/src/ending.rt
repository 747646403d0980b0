ghost use Rattle.std.specs.Prelude.{◌≡◌, true, false};
ghost use Rattle.ob_connection.specs.declared.ending.Ending.TheVariants.{TurnsUsed};

use std::io;

/// How a sending of several turns ended.
#[derive(Clone, Copy, Debug)]
pub enum Ending {
    /// No flushed message is left.
    Drained,
    /// The socket has no room now: send again when it is ready.
    Blocked,
    /// A region or another message is in front, which is the caller's to send.
    OtherInFront,
    /// The turns are used up, and flushed messages are left: send again when the others had their turn.
    TurnsUsed,
    /// The socket is broken, with its own error: give the connection up. What it took before is reported along with this.
    Broken(io::Error),
}

impl Ending {
    /// Whether a further turn may take more: the socket took some, and more is left. Our own.
    pub fn goes_on(self) -> bool
        ensures yes { result ≡ true → self ≡ TurnsUsed }
        ensures no { result ≡ false → ¬ (self ≡ TurnsUsed) }
    {
        matches!(self, Ending::TurnsUsed)
    }
}
