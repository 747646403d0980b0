//! The looks at a managed connection. Each takes the struct as a command does, and leaves the connection as it was.

ghost use Rattle.std.specs.Prelude.{◌≡◌, drop, length};
ghost use Rattle.ob_connection.specs.Connected.{Shows, IsFrontPromise, Tells as TellsOf};
ghost use Rattle.ob_c.specs.Calls.{Gathers};
ghost use Rattle.ob_c.specs.Looks.{Tells, IsLeft, current_in_c, front_in_c, look_in_c, promise_in_c};
ghost use Rattle.ob_c.specs.Managing.{ShowsNumbers, StandsSo, connection_of, count_in_c, none_refused, numbers_in_c, refusals_in_c, state_in_c};

use crate::gather::{Gathered, fill};
use crate::managed::Managed;
use crate::numbers::{DONE, NOT_OPEN};
use crate::pieces::Piece;
use crate::views::{Current, Front, Look, Promise};
use ob_lifecycle::ManagedConnection;

/// Messages, and the bytes that they count together, each with the overhead of an entry.
#[repr(C)]
#[derive(Clone, Copy)]
pub struct Count {
    /// How many messages.
    pub messages: u64,
    /// The bytes that they count.
    pub bytes: u64,
}

impl Count {
    /// What C gets for this count.
    fn of(count: ob_lifecycle::Count) -> Count
        ensures { result ≡ count_in_c count }
    {
        Count {
            messages: count.messages,
            bytes: count.bytes,
        }
    }
}

/// How often calls of a connection were refused, by the reason.
#[repr(C)]
#[derive(Clone, Copy)]
pub struct Refusals {
    /// A call of a closed connection.
    pub closed: u64,
    /// A write once the end was asked for.
    pub finishing: u64,
    /// A message too large to be counted.
    pub oversize: u64,
    /// A write past the limit.
    pub full: u64,
    /// A write with which more than 4294967295 bytes would be pending.
    pub too_much: u64,
    /// A write for which there was no memory.
    pub no_memory: u64,
    /// Progress while no message is flushed.
    pub nothing_flushed: u64,
    /// Progress past 9223372036854775807.
    pub too_far: u64,
    /// A removal of more bytes than the flushed blocks in front hold.
    pub too_many_bytes: u64,
    /// A user bit outside 1 to 31.
    pub bad_index: u64,
    /// A close while flushed messages are left.
    pub flushed_left: u64,
    /// A cancellation of a promise under which nothing was written.
    pub unknown_promise: u64,
}

impl Refusals {
    /// What C gets for these.
    fn of(refusals: ob_lifecycle::Refusals) -> Refusals
        ensures { result ≡ refusals_in_c refusals }
    {
        Refusals {
            closed: refusals.closed,
            finishing: refusals.finishing,
            oversize: refusals.oversize,
            full: refusals.full,
            too_much: refusals.too_much,
            no_memory: refusals.no_memory,
            nothing_flushed: refusals.nothing_flushed,
            too_far: refusals.too_far,
            too_many_bytes: refusals.too_many_bytes,
            bad_index: refusals.bad_index,
            flushed_left: refusals.flushed_left,
            unknown_promise: refusals.unknown_promise,
        }
    }

    /// What C gets if there is no connection.
    fn none() -> Refusals
        ensures { result ≡ none_refused }
    {
        Refusals {
            closed: 0,
            finishing: 0,
            oversize: 0,
            full: 0,
            too_much: 0,
            no_memory: 0,
            nothing_flushed: 0,
            too_far: 0,
            too_many_bytes: 0,
            bad_index: 0,
            flushed_left: 0,
            unknown_promise: 0,
        }
    }
}

/// What was written, and how it ended: what was accepted is what was sent, failed, was cancelled and is pending.
#[repr(C)]
#[derive(Clone, Copy)]
pub struct Numbers {
    /// 0, or why there is nothing to see.
    pub status: u32,
    /// All that was accepted.
    pub accepted: Count,
    /// What was taken away as sent.
    pub sent: Count,
    /// What was taken away as failed.
    pub failed: Count,
    /// What was cancelled in time, from the flush on that voided it.
    pub cancelled: Count,
    /// What is pending.
    pub pending: Count,
    /// The most bytes that were pending at any moment.
    pub peak: u64,
    /// How often it became unwritable.
    pub stops: u64,
    /// For how long it was unwritable, all together, in units of the caller: time goes on at ticks alone.
    pub stopped: u64,
    /// How often calls were refused, by the reason.
    pub refusals: Refusals,
}

impl Numbers {
    /// What C gets for these numbers.
    fn of(numbers: Option<ob_lifecycle::Numbers>) -> Numbers
        ensures { result ≡ numbers_in_c numbers }
    {
        let none = Count {
            messages: 0,
            bytes: 0,
        };
        match numbers {
            None => Numbers {
                status: NOT_OPEN,
                accepted: none,
                sent: none,
                failed: none,
                cancelled: none,
                pending: none,
                peak: 0,
                stops: 0,
                stopped: 0,
                refusals: Refusals::none(),
            },
            Some(numbers) => Numbers {
                status: DONE,
                accepted: Count::of(numbers.accepted),
                sent: Count::of(numbers.sent),
                failed: Count::of(numbers.failed),
                cancelled: Count::of(numbers.cancelled),
                pending: Count::of(numbers.pending),
                peak: numbers.peak,
                stops: numbers.stops,
                stopped: numbers.stopped,
                refusals: Refusals::of(numbers.refusals),
            },
        }
    }
}

/// How a managed connection stands.
#[repr(C)]
#[derive(Clone, Copy)]
pub struct State {
    /// 0, or why there is nothing to see.
    pub status: u32,
    /// Whether writers may go on.
    pub writable: bool,
    /// Whether a close was accepted.
    pub closed: bool,
    /// Whether no message is flushed and not yet removed, voided ones too.
    pub empty: bool,
    /// Whether the end was asked for.
    pub finishing: bool,
    /// Whether the end was reached: a call has told it.
    pub finished: bool,
}

impl State {
    /// How this connection stands.
    fn seen(managed: &ManagedConnection) -> State
        ensures { StandsSo managed.now result }
    {
        let connection = managed.connection();
        State {
            status: DONE,
            writable: connection.is_writable(),
            closed: connection.is_closed(),
            empty: connection.is_empty(),
            finishing: managed.is_finishing(),
            finished: managed.is_finished(),
        }
    }

    /// What C gets for this.
    fn of(state: Option<State>) -> State
        ensures { result ≡ state_in_c state }
    {
        match state {
            None => State {
                status: NOT_OPEN,
                writable: false,
                closed: false,
                empty: false,
                finishing: false,
                finished: false,
            },
            Some(state) => state,
        }
    }
}

/// How the connection stands.
#[unsafe(no_mangle)]
pub extern "C" fn limekeel_managed_state(managed: &mut Managed) -> State
    ensures { Tells managed.old.value StandsSo state_in_c result managed.new.value }
{
    State::of(managed.with(|connection| State::seen(connection)))
}

/// What was written, and how it ended. It goes over the flushed messages, and does not allocate.
#[unsafe(no_mangle)]
pub extern "C" fn limekeel_managed_numbers(managed: &mut Managed) -> Numbers
    ensures { Tells managed.old.value ShowsNumbers numbers_in_c result managed.new.value }
{
    if !managed.is_open() {
        return Numbers::of(None);
    }
    let connection: &ManagedConnection = managed.reach();
    Numbers::of(Some(connection.numbers()))
}

/// What is pending now.
#[unsafe(no_mangle)]
pub extern "C" fn limekeel_managed_look(managed: &mut Managed) -> Look
    ensures { Tells managed.old.value (λ managed. Shows managed.connection) look_in_c result managed.new.value }
{
    Look::of(managed.with(|connection| connection.connection().look()))
}

/// What has become of a promise.
#[unsafe(no_mangle)]
pub extern "C" fn limekeel_managed_promise(managed: &mut Managed, id: u64) -> Promise
    ensures { Tells managed.old.value (λ managed. TellsOf managed.connection id) promise_in_c result managed.new.value }
{
    Promise::of(managed.with(|connection| connection.connection().promise(id)))
}

/// The promise of the first flushed message.
#[unsafe(no_mangle)]
pub extern "C" fn limekeel_managed_front(managed: &mut Managed) -> Front
    ensures { Tells managed.old.value (λ managed. IsFrontPromise managed.connection) front_in_c result managed.new.value }
{
    Front::of(managed.with(|connection| connection.connection().front()))
}

/// What is left to send of the first flushed message, as `limekeel_current`.
#[unsafe(no_mangle)]
pub extern "C" fn limekeel_managed_current(managed: &mut Managed) -> Current
    ensures { Tells managed.old.value (λ managed. IsLeft managed.connection) current_in_c result managed.new.value }
{
    match managed.with(|connection| Current::of(
        connection.connection().current(),
        connection.connection().look().current_progress,
    )) {
        None => Current::not_open(),
        Some(current) => current,
    }
}

/// Fills pieces with where the flushed blocks in front lie that hold a byte, as `limekeel_gather_pieces`.
#[unsafe(no_mangle)]
pub extern "C" fn limekeel_managed_gather_pieces(
    managed: &mut Managed,
    pieces: &mut [Piece],
    max_bytes: u32,
) -> Gathered
    ensures gathers { Gathers (connection_of managed.old.value) (length pieces.old) max_bytes result pieces.new
        (connection_of managed.new.value) }
    ensures same { managed.new.value ≡ managed.old.value }
    ensures rest { drop result.count pieces.new ≡ drop result.count pieces.old }
{
    if !managed.is_open() {
        return Gathered::not_open();
    }
    let managed: &ManagedConnection = managed.reach();
    fill(managed.connection(), pieces, max_bytes)
}
