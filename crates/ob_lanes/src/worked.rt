//! The definitions, computed on small runs.

ghost use Rattle.ob_lanes.specs.Worked.{Meets, OwnSteps, RaisedNothing, OneChange, Begins, Splits};
ghost use Rattle.ob_lanes.specs.Worked.{SetsBit2, ReadsBehind, ShowsBit2, ReadsWord, Owes, OwesNothing};
ghost use Rattle.ob_lanes.specs.Worked.{Raises, ReadsTotal, ReadsNothing, SplitInTwo, JoinedInOne, SecondHalfInRun};
ghost use Rattle.ob_lanes.specs.Worked.{EndsJoined, EndsWithBit2, TellsOfBit2};

fn worked_runs()
    ensures meets { Meets }
    ensures own_steps { OwnSteps }
    ensures raised_nothing { RaisedNothing }
    ensures one_change { OneChange }
    ensures begins { Begins }
{}

fn worked_calls()
    ensures splits { Splits }
    ensures owes { Owes }
    ensures owes_nothing { OwesNothing }
    ensures raises { Raises }
{}

fn worked_steps()
    ensures sets_bit_2 { SetsBit2 }
    ensures reads_behind { ReadsBehind }
    ensures shows_bit_2 { ShowsBit2 }
    ensures reads_word { ReadsWord }
    ensures tells_of_bit_2 { TellsOfBit2 }
{}

fn worked_totals()
    ensures reads_total { ReadsTotal }
    ensures reads_nothing { ReadsNothing }
{}

fn worked_parts()
    ensures split_in_two { SplitInTwo }
    ensures joined_in_one { JoinedInOne }
{}

fn worked_places()
    ensures second_half_in_run { SecondHalfInRun }
    ensures ends_with_bit_2 { EndsWithBit2 }
    ensures ends_joined { EndsJoined }
{}
