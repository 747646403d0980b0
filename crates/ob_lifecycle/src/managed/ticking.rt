ghost use Rattle.std.specs.Prelude.{◌≡◌, ℕ, List, false, true, [], ◌∷◌, ◌++◌};
ghost use Rattle.ob_lifecycle.specs.Events.{Event, Ticked};
ghost use Rattle.ob_lifecycle.specs.Managed.{Brings, Gives, StandsFor, opened_as};
ghost use Rattle.ob_lifecycle.specs.Strain.{TookLittle, TookNothing, is_named, names_by};

use super::ManagedConnection;

impl ManagedConnection {
    /// Tells the time, in units of the caller, and returns whether the peer is named as one that stalls: something was
    /// flushed all along since a tick that is a window or more ago, and the peer took fewer bytes since then than it has
    /// to. It is named once, until it took as many or all. A time behind the last one tells nothing.
    pub fn tick(&mut self, now: u64) -> bool
        ensures named { Gives self.old (names_by now) result }
        ensures little { (events : List Event) → StandsFor self.old events → result ≡ true
            → TookLittle (opened_as self.old) events now }
        ensures nothing { (before between : List Event) (first : ℕ) → StandsFor self.old (before ++ Ticked first ∷ between)
            → TookNothing (opened_as self.old) before first between now → Gives self.new is_named true }
        ensures connection { self.new.connection ≡ self.old.connection }
        ensures brings { Brings self.old (Ticked now ∷ []) false self.new }
    {
        let before = self.ending.watch.now;
        let named = self
            .ending
            .watch
            .tick(self.limits, now, self.connection.is_empty());
        self.strain.pass(self.connection.is_writable(), before, self.ending.watch.now);
        named
    }
}
