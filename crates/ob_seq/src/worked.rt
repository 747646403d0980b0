//! The definitions, computed on small histories.

ghost use Rattle.ob_seq.specs.Worked.{TheFirstRun, EqualityWithLow, LowZero, LongRegion, CancelledEntry};
ghost use Rattle.ob_seq.specs.Worked.{FixedPromise, ProgressTold, RemovedBytes, EmptyFront, EndOfTheByteRun};
ghost use Rattle.ob_seq.specs.Worked.{MarksOfZero, GatheredBlocks, Looks, SharedWord, SeveralUserBits};
ghost use Rattle.ob_seq.specs.Worked.{FailedWithoutNotice, FailedWithNotice, FailedVoided, ClosedOnce, TwoSkips};
ghost use Rattle.ob_seq.specs.Worked.{LeftAfterTwoSkips, VoidedRegion, LeftOfAVoidedRegion, WritableByBytes};
ghost use Rattle.ob_seq.specs.Worked.{WritableByManyBytes, WritableByFailure, RegionInFront, ClosedPastAVoided};
ghost use Rattle.ob_seq.specs.Worked.{EachEnd, NothingLeftAfterAClose, PromisesAfterAClose, PromisesBeforeAnEnd};
ghost use Rattle.ob_seq.specs.Worked.{TotalAtItsLimit, LookAtTheLimit, SizesAtTheirLimits, ProgressAtItsTop};
ghost use Rattle.ob_seq.specs.WorkedState.{AcceptedOfThem, FourWrites, SettledInTurn, OneOfEachPlace, OutOfOrder};
ghost use Rattle.ob_seq.specs.WorkedState.{TheFirstTwo, WaitsUnflushedAlone, SentOnlyWhenGone, WritableAtTheMarks};
ghost use Rattle.ob_seq.specs.WorkedState.{UnwritableAtTheMarks, UnwritableBelowLow, UnderAUserBit};
ghost use Rattle.ob_seq.specs.WorkedState.{UnderALowMarkOfZero, OldestInFront, VoidedInFront, PartlySentInFront};
ghost use Rattle.ob_seq.specs.WorkedState.{NoneInFrontAtAnEnd, MarksRaised, MarksLowered, MarksSetTwice};
ghost use Rattle.ob_seq.specs.WorkedState.{MarksSetBetweenFalls, MarksSetBetweenRises, EqualMarksSet};
ghost use Rattle.ob_seq.specs.WorkedState.{MarksSetUnderAUserBit, MarksSetAsTheyAre, MarksSetAtAnEnd};
ghost use Rattle.ob_seq.specs.WorkedState.{LooksUnderNewMarks, LastMarks, UnwritableByEither, EmptyWithoutALine};
ghost use Rattle.ob_seq.specs.WorkedState.{ClosedByAClose, UserBitsTold, WritesLeft, WantsOfMemory, RoomsAsTheyGrow};

#[tactic(auto, unfolding(crate::specs::State::user_bits))]
fn worked_rows()
    ensures first_run { TheFirstRun }
    ensures equality_with_low { EqualityWithLow }
    ensures low_zero { LowZero }
    ensures long_region { LongRegion }
    ensures cancelled_entry { CancelledEntry }
    ensures fixed_promise { FixedPromise }
    ensures progress_told { ProgressTold }
    ensures removed_bytes { RemovedBytes }
    ensures empty_front { EmptyFront }
    ensures end_of_the_byte_run { EndOfTheByteRun }
    ensures marks_of_zero { MarksOfZero }
    ensures gathered_blocks { GatheredBlocks }
    ensures looks { Looks }
    ensures shared_word { SharedWord }
    ensures several_user_bits { SeveralUserBits }
    ensures failed_without_notice { FailedWithoutNotice }
    ensures failed_with_notice { FailedWithNotice }
    ensures failed_voided { FailedVoided }
    ensures closed_once { ClosedOnce }
{}

#[tactic(auto, unfolding(crate::specs::State::user_bits))]
fn worked_bytes()
    ensures two_skips { TwoSkips }
    ensures left_after_two_skips { LeftAfterTwoSkips }
    ensures writable_by_bytes { WritableByBytes }
    ensures writable_by_many_bytes { WritableByManyBytes }
    ensures writable_by_failure { WritableByFailure }
    ensures voided_region { VoidedRegion }
    ensures left_of_a_voided_region { LeftOfAVoidedRegion }
    ensures region_in_front { RegionInFront }
{}

#[tactic(auto, unfolding(crate::specs::State::user_bits))]
fn worked_limits()
    ensures total_at_its_limit { TotalAtItsLimit }
    ensures look_at_the_limit { LookAtTheLimit }
    ensures sizes_at_their_limits { SizesAtTheirLimits }
    ensures progress_at_its_top { ProgressAtItsTop }
{}

#[tactic(auto, unfolding(crate::specs::State::user_bits))]
fn worked_endings()
    ensures closed_past_a_voided { ClosedPastAVoided }
    ensures each_end { EachEnd }
    ensures promises_after_a_close { PromisesAfterAClose }
    ensures nothing_left_after_a_close { NothingLeftAfterAClose }
    ensures promises_before_an_end { PromisesBeforeAnEnd }
{}

#[tactic(auto, unfolding(crate::specs::State::user_bits))]
fn worked_looks()
    ensures writable_at_the_marks { WritableAtTheMarks }
    ensures unwritable_at_the_marks { UnwritableAtTheMarks }
    ensures unwritable_below_low { UnwritableBelowLow }
    ensures under_a_user_bit { UnderAUserBit }
    ensures under_a_low_mark_of_zero { UnderALowMarkOfZero }
    ensures oldest_in_front { OldestInFront }
    ensures voided_in_front { VoidedInFront }
    ensures partly_sent_in_front { PartlySentInFront }
    ensures none_in_front_at_an_end { NoneInFrontAtAnEnd }
{}

#[tactic(auto, unfolding(crate::specs::State::user_bits))]
fn worked_marks()
    ensures marks_raised { MarksRaised }
    ensures marks_lowered { MarksLowered }
    ensures marks_set_twice { MarksSetTwice }
    ensures marks_set_between_falls { MarksSetBetweenFalls }
    ensures marks_set_between_rises { MarksSetBetweenRises }
    ensures equal_marks_set { EqualMarksSet }
    ensures marks_set_under_a_user_bit { MarksSetUnderAUserBit }
    ensures marks_set_as_they_are { MarksSetAsTheyAre }
    ensures marks_set_at_an_end { MarksSetAtAnEnd }
    ensures looks_under_new_marks { LooksUnderNewMarks }
    ensures last_marks { LastMarks }
{}

#[tactic(auto, unfolding(crate::specs::State::user_bits))]
fn worked_state()
    ensures unwritable_by_either { UnwritableByEither }
    ensures empty_without_a_line { EmptyWithoutALine }
    ensures closed_by_a_close { ClosedByAClose }
    ensures user_bits_told { UserBitsTold }
    ensures writes_left { WritesLeft }
    ensures wants_of_memory { WantsOfMemory }
    ensures rooms_as_they_grow { RoomsAsTheyGrow }
{}

#[tactic(auto, unfolding(crate::specs::State::user_bits))]
fn worked_histories()
    ensures accepted_of_them { AcceptedOfThem }
    ensures four_writes { FourWrites }
    ensures settled_in_turn { SettledInTurn }
    ensures one_of_each_place { OneOfEachPlace }
    ensures out_of_order { OutOfOrder }
    ensures the_first_two { TheFirstTwo }
    ensures waits_unflushed_alone { WaitsUnflushedAlone }
    ensures sent_only_when_gone { SentOnlyWhenGone }
{}
