//! The stored history of a buffer: each call stays as a record, and its caller gets a receipt of it.
#![tactic(auto)]

mod answer;
mod booked;
mod glance;
mod laws;
mod receipt;
mod record;
mod recorded;
mod seen;
mod worked;

pub use booked::{As, Booked};
pub use glance::Glance;
pub use laws::{
    a_beginning_of_a_history_is_legal, a_call_keeps_a_history_legal, a_history_keeps_to_the_limits,
    a_history_settles_each_promise_once, a_history_tells_each_settled_promise,
    own_receipts_are_all_records, what_is_of_a_history_stays_so,
};
pub use receipt::Receipt;
pub use record::Record;
pub use recorded::Recorded;
pub use seen::Seen;
