//! The outbound buffer of one thread (Netty's `ChannelOutboundBuffer`): each call returns what the model says.
#![tactic(auto)]

mod buffer;
mod contents;
mod entries;
mod entry;
mod flushed;
mod laws;
mod look;
mod newest;
mod outcomes;
mod walk;
mod worked;

pub use buffer::Buffer;
pub use contents::{Contents, Cut, Front};
pub use flushed::Flushed;
pub use laws::{
    a_promise_is_unknown_past_the_writes, a_settled_promise_is_told,
    accepted_commands_keep_to_the_limits, before_unwritable_is_the_least_rise,
    before_writable_is_the_least_fall, each_promise_fits_the_place_of_its_message,
    marks_that_are_set_leave_the_word, no_promise_is_settled_twice,
    refused_commands_leave_no_trace, the_rows_stand_in_order,
    the_word_is_the_mark_and_the_user_bits,
};
pub use look::Look;
