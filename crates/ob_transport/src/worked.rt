//! The definitions, computed on a small history.

ghost use Rattle.ob_transport.specs.Worked.{AllBytesAreSent, AllUnitsAreSent, GivenUpIsNotSent, TakenBackIsNotSent};

fn worked_history()
    ensures bytes { AllBytesAreSent }
    ensures units { AllUnitsAreSent }
    ensures given_up { GivenUpIsNotSent }
    ensures taken_back { TakenBackIsNotSent }
{}
