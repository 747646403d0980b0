//! The definitions, computed on small lists of events.

ghost use Rattle.ob_lifecycle.specs.Worked.{TheLastByte, NothingLeft, ARegionLeft, AnUnflushedLeft, AVoidedLeft};
ghost use Rattle.ob_lifecycle.specs.Worked.{GivenUp, AtTheCap, InThatOrder, OneOfEach, StillPending, StoppedOnce, RefusedByReason};

fn worked_ends()
    ensures the_last_byte { TheLastByte }
    ensures nothing_left { NothingLeft }
    ensures a_region_left { ARegionLeft }
    ensures an_unflushed_left { AnUnflushedLeft }
    ensures a_voided_left { AVoidedLeft }
    ensures given_up { GivenUp }
{}

fn worked_faults()
    ensures at_the_cap { AtTheCap }
    ensures in_that_order { InThatOrder }
{}

fn worked_numbers()
    ensures one_of_each { OneOfEach }
    ensures still_pending { StillPending }
    ensures refused_by_reason { RefusedByReason }
{}

#[tactic(auto, unfolding(ob_seq::specs::State::user_bits))]
fn worked_stops()
    ensures { StoppedOnce }
{}
