//! The definitions, computed on a small history.

ghost use Rattle.ob_history.specs.Worked.{IsLegalWithARefusal, AcceptedWithoutTheRefused, SettledByTheRemoval};
ghost use Rattle.ob_history.specs.Worked.{IllegalAtAnotherPlace, IllegalWithAnotherReply, LastPlace, FullHistory};
ghost use Rattle.ob_history.specs.Worked.{SeenBeforeTheRemoval, Glances, SettledByOneRecord, RecordsOfTwoCallers};
ghost use Rattle.ob_history.specs.Worked.{OwnReceipts, ExchangedReceipts, ForeignReceipts, AllHeld, OneHeldBack};
ghost use Rattle.ob_history.specs.Worked.{AssuredCalls, LegalUnderNewMarks, SeenUnderNewMarks};

#[tactic(auto, unfolding(ob_seq::specs::State::user_bits))]
fn worked_history()
    ensures legal { IsLegalWithARefusal }
    ensures accepted { AcceptedWithoutTheRefused }
    ensures settled { SettledByTheRemoval }
    ensures another_place { IllegalAtAnotherPlace }
    ensures another_reply { IllegalWithAnotherReply }
{}

#[tactic(auto, unfolding(ob_seq::specs::State::user_bits))]
fn worked_calls()
    ensures last_place { LastPlace }
    ensures full { FullHistory }
    ensures seen { SeenBeforeTheRemoval }
    ensures glances { Glances }
    ensures settled { SettledByOneRecord }
    ensures assured { AssuredCalls }
{}

#[tactic(auto, unfolding(ob_seq::specs::State::user_bits))]
fn worked_marks()
    ensures legal { LegalUnderNewMarks }
    ensures seen { SeenUnderNewMarks }
{}

fn worked_receipts()
    ensures records { RecordsOfTwoCallers }
    ensures own { OwnReceipts }
    ensures exchanged { ExchangedReceipts }
    ensures foreign { ForeignReceipts }
    ensures held { AllHeld }
    ensures held_back { OneHeldBack }
{}
