//! The definitions, computed on small core states and steps.

ghost use Rattle.ob_core.specs.Worked.{GoodAccounts, WrongTotal, ShownAndNotRaised, RaisedAndNotShown, HeldTwice};
ghost use Rattle.ob_core.specs.Worked.{RaisedAndNotHeld, LostRoom, ForgottenMark, LostMark, Marked, OwingMoreThanRoom};
ghost use Rattle.ob_core.specs.Worked.{BitGiven, BitGivenAndKept, Divided, Merged, Finds, WordsAfter, Changes};
ghost use Rattle.ob_core.specs.Worked.{WideBits, BitSet, BitCleared, RestLeft};

fn worked_accounts()
    ensures good { GoodAccounts }
    ensures wrong_total { WrongTotal }
    ensures shown_and_not_raised { ShownAndNotRaised }
    ensures raised_and_not_shown { RaisedAndNotShown }
    ensures held_twice { HeldTwice }
    ensures raised_and_not_held { RaisedAndNotHeld }
    ensures lost_room { LostRoom }
    ensures forgotten_mark { ForgottenMark }
    ensures lost_mark { LostMark }
    ensures marked { Marked }
    ensures owing_more_than_room { OwingMoreThanRoom }
{}

fn worked_parts()
    ensures bit_given { BitGiven }
    ensures bit_given_and_kept { BitGivenAndKept }
    ensures divided { Divided }
    ensures merged { Merged }
{}

fn worked_steps()
    ensures finds { Finds }
    ensures words_after { WordsAfter }
    ensures changes { Changes }
    ensures wide_bits { WideBits }
    ensures bit_set { BitSet }
    ensures bit_cleared { BitCleared }
    ensures rest_left { RestLeft }
{}
