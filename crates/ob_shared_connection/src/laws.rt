//! What holds of every list of accepted commands. These laws speak of definitions, and the calls of a handle and of a
//! transport return what those give.

ghost use Rattle.ob_shared_connection.specs.Calls.{AllWithinRoom};
ghost use Rattle.ob_shared_connection.specs.Sending.{BytesStay};

/// What a transport gathered is in front still when it takes the lock again, and any number of those bytes can be taken
/// away as sent: other handles cannot take flushed messages away, and none can close the connection meanwhile.
pub fn what_was_gathered_stays_in_front()
    ensures { BytesStay }
{}

/// Of all connections of a budget together no more is pending than its room. That the seats hold no more is the rule of
/// the budget; that of a connection no more is pending than its seat holds, each lock tells (`IsCovered`).
pub fn what_all_connections_hold_is_within_the_room()
    ensures { AllWithinRoom }
{}
