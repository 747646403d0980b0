//! The definitions, computed on a small history of two callers.

ghost use Rattle.ob_shared.specs.Worked.{BothComplete, ShareLeftOut, ReceiptLeftOut, CommandChanged};
ghost use Rattle.ob_shared.specs.Worked.{BeginningSeen, ReadOfNothing};
ghost use Rattle.ob_shared.specs.Worked.{ReceiptsExchanged, ToldBeforeSeen, LookIsForeign, Looks, PromiseTold};

#[tactic(auto, unfolding(ob_seq::specs::State::user_bits))]
fn worked_ends()
    ensures complete { BothComplete }
    ensures share { ShareLeftOut }
    ensures receipt { ReceiptLeftOut }
    ensures looks { Looks }
{}

#[tactic(auto, unfolding(ob_seq::specs::State::user_bits))]
fn worked_foreign_items()
    ensures command { CommandChanged }
    ensures exchanged { ReceiptsExchanged }
    ensures told { ToldBeforeSeen }
    ensures look { LookIsForeign }
{}

fn worked_promises()
    ensures { PromiseTold }
{}

#[tactic(auto, unfolding(ob_seq::specs::State::user_bits))]
fn worked_reads()
    ensures begins { BeginningSeen }
    ensures reads { ReadOfNothing }
{}
