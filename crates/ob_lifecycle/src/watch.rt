ghost use Rattle.std.specs.Prelude.{◌≡◌, ◌+◌, ◌&&◌, not, min, if◌then◌else◌, None, false};
ghost use Rattle.ob_lifecycle.specs.Events.{most_told};
ghost use Rattle.ob_lifecycle.specs.Strain.{rested, told_time, ticked};

use crate::limits::Limits;

/// The window in which a peer has to take something, by the clock of the caller.
#[derive(Drop)]
pub struct Watch {
    /// The greatest time that was told.
    pub now: u64,
    /// When the window was opened; none is open while nothing is flushed.
    pub since: Option<u64>,
    /// How many bytes the peer took since then.
    pub taken: u64,
    /// Whether it was named, and has not taken enough since.
    pub named: bool,
}

impl Watch {
    /// With no window open.
    pub fn new(now: u64) -> Watch
        ensures { result ≡ record { now = now; since = None; taken = 0; named = false } }
    {
        Watch {
            now,
            since: None,
            taken: 0,
            named: false,
        }
    }

    /// Once a command was accepted or not, by which the peer took this many bytes, and left nothing flushed or something.
    #[inline(always)]
    pub fn after(&mut self, accepted: bool, taken: u64, empty: bool)
        ensures { self.new ≡ (if accepted then (if empty then rested self.old
            else record self.old { taken = min most_told (self.old.taken + taken) }) else self.old) }
    {
        if !accepted {
            return;
        }
        if empty {
            self.rest();
        } else {
            self.taken = self.taken.saturating_add(taken);
        }
    }

    /// Once the time was told: whether the peer is named now.
    pub fn tick(&mut self, limits: Limits, now: u64, empty: bool) -> bool
        ensures watch { self.new ≡ (if empty then rested (told_time now self.old)
            else ticked limits (told_time now self.old).since (told_time now self.old)) }
        ensures named { result ≡ (self.new.named && not self.old.named) }
    {
        let before = self.named;
        self.now = self.now.max(now);
        if empty {
            self.rest();
        } else {
            self.look(limits);
        }
        self.named && !before
    }

    /// No window is open.
    fn rest(&mut self)
        ensures { self.new ≡ rested self.old }
    {
        self.since = None;
        self.taken = 0;
        self.named = false;
    }

    /// Opens the window, or opens it anew if enough was taken, or names the peer if it is long enough.
    fn look(&mut self, limits: Limits)
        ensures { self.new ≡ ticked limits self.old.since self.old }
    {
        let is_due = match self.since {
            None => false,
            Some(since) => self.taken < limits.least_bytes
                && self.now.saturating_sub(since) >= limits.window,
        };
        if is_due {
            self.named = true;
        } else if self.since.is_none() || self.taken >= limits.least_bytes {
            self.since = Some(self.now);
            self.taken = 0;
            self.named = false;
        }
    }
}
