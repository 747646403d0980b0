//! What holds of every list of events. These laws speak of definitions, and the calls of a managed connection return what
//! those give.

ghost use Rattle.std.specs.Prelude.{◌≡◌, ◌≤◌, ℕ, List, ◌∷◌, ◌++◌, [], true};
ghost use Rattle.ob_lifecycle.specs.Events.{most_told, Event, Opened, Ticked, all_of, is_over, times_told};
ghost use Rattle.ob_lifecycle.specs.Strain.{TookLittle, TookNothing, names_by, watch_after, all_told, numbers_after};

/// Whatever calls are made, at most one tells that the end is reached; and just one has, once the end was asked for and
/// nothing that was accepted is left.
pub fn the_end_is_told_once()
    ensures once { (opened : Opened) (calls : List (List Event)) → times_told opened calls ≤ 1 }
    ensures told { (opened : Opened) (calls : List (List Event)) → is_over opened (all_of calls) ≡ true
        → times_told opened calls ≡ 1 }
{}

/// What was accepted is what was sent, failed, was cancelled and is pending, in messages and in bytes, at each moment.
pub fn nothing_is_lost()
    ensures { (opened : Opened) (events : List Event) →
        (numbers_after opened events).accepted ≡ all_told (numbers_after opened events) }
{}

/// A peer that took nothing between two ticks at least a window apart, while something was flushed from the first on, is
/// named once the second has come: by it, or by one before it.
pub fn a_peer_that_takes_nothing_is_named()
    ensures { (opened : Opened) (before between : List Event) (first last : ℕ) →
        TookNothing opened before first between last
        → (watch_after opened ((before ++ Ticked first ∷ between) ++ Ticked last ∷ [])).named ≡ true }
{}

/// A tick names the peer only if it took fewer bytes than it has to since a tick a window or more before, while something
/// was flushed from that tick on: so one that took as many in each window is never named.
pub fn a_peer_that_takes_enough_is_not_named()
    ensures { (opened : Opened) (earlier : List Event) (now : ℕ) → opened.limits.least_bytes ≤ most_told
        → names_by now opened earlier ≡ true → TookLittle opened earlier now }
{}
