ghost use Rattle.std.specs.Prelude.{◌≡◌, ◌≤◌};
ghost use Rattle.ob_types.specs.Limits.{greatest_overhead, greatest_unknown};
ghost use Rattle.std.specs.Arc.{arc_value};
ghost use Rattle.futures.specs.Task.{Covers, Keeps};
ghost use Rattle.futures.specs.Poll.{OnPending};
ghost use Rattle.ob_async.specs.Sources.{owned_room_source, owned_work_source, room_source, room_source_of, work_source};
ghost use Rattle.ob_async.specs.Sources.{work_source_of};

use crate::moment::Moment;
use crate::task_connection::TaskConnection;
use futures::Future;
use futures::spin::{lock, lock_or_give_up};
use futures::task::{Context, Poll, Source};
use futures::util::wait_list::Ticket;
use ob_types::{Estimate, WaterMark};
use std::alloc::{AllocError, Global};
use std::sync::{Arc, Mutex, MutexGuard};

/// A connection that tasks share, of one thread or of many: in an `Rc` or an `Arc`.
///
/// `lock` gives the connection for calls that belong together; a task never waits while it has it. Who may not go on waits
/// by a future: a writer by `writable`, the task that sends by `has_work`. Whoever lets one go on wakes it, under the lock.
#[derive(Drop)]
pub struct Outbound {
    // what writers wait for
    room: Source,
    // what the task that sends waits for
    work: Source,
    connection: Mutex<TaskConnection>,
}

/// The future of `writable`. If it is dropped while it waits it leaves the queue.
pub struct IsWritable<'a> {
    outbound: &'a Outbound,
    ticket: Option<Ticket>,
}

/// The future of `has_work`.
#[derive(Drop)]
pub struct HasWork<'a> {
    outbound: &'a Outbound,
}

/// The future of `writable_owned`. If it is dropped while it waits it leaves the queue.
pub struct OwnedIsWritable {
    outbound: Arc<Outbound>,
    ticket: Option<Ticket>,
}

/// The future of `has_work_owned`.
#[derive(Drop)]
pub struct OwnedHasWork {
    outbound: Arc<Outbound>,
}

impl Outbound {
    /// A connection with nothing written, and nobody who waits. The overhead and the size of unknown messages are at most
    /// 65535 bytes. The error is that the allocator refused.
    pub fn new(alloc: Global, marks: WaterMark, estimate: Estimate) -> Result<Outbound, AllocError>
        requires overhead { estimate.overhead ≤ greatest_overhead }
        requires unknown { estimate.unknown ≤ greatest_unknown }
    {
        Ok(Outbound {
            room: Source::new(),
            work: Source::new(),
            connection: Mutex::new(TaskConnection::new(alloc, marks, estimate)?),
        })
    }

    /// The connection, for calls that belong together: do nothing meanwhile that waits. It tries again while another
    /// thread has it, and gives nothing if it tried 2^64 times.
    pub fn lock(&self) -> Option<MutexGuard<'_, TaskConnection>> {
        lock(&self.connection)
    }

    /// Waits until the connection is writable or closed, and tells which it found.
    pub fn writable(&self) -> IsWritable<'_>
        ensures { room_source_of result ≡ room_source self.now }
    {
        IsWritable {
            outbound: self,
            ticket: None,
        }
    }

    /// Waits until a flushed message is there or the connection is closed, and tells which it found. It is for one task at
    /// a time: a second one that waits here takes the first one's place, and wakes it.
    pub fn has_work(&self) -> HasWork<'_>
        ensures { work_source_of result ≡ work_source self.now }
    {
        HasWork { outbound: self }
    }

    /// `writable`, with a future that borrows nothing: a task can keep it.
    pub fn writable_owned(this: Arc<Outbound>) -> OwnedIsWritable
        ensures { owned_room_source result ≡ room_source (arc_value this) }
    {
        OwnedIsWritable {
            outbound: this,
            ticket: None,
        }
    }

    /// `has_work`, with a future that borrows nothing.
    pub fn has_work_owned(this: Arc<Outbound>) -> OwnedHasWork
        ensures { owned_work_source result ≡ work_source (arc_value this) }
    {
        OwnedHasWork { outbound: this }
    }

    fn poll_writable(
        &self,
        cx: &mut Context<'_>,
        ticket: &mut Option<Ticket>,
    ) -> Poll<Result<Moment, AllocError>>
        ensures registered { OnPending result (Covers cx.new (λ source. source ≡ room_source self.now)) }
        ensures kept { Keeps cx.old cx.new }
    {
        let Some(mut connection) = lock(&self.connection) else {
            return cx.yield_now();
        };
        connection.poll_writable(cx, &self.room, ticket)
    }

    fn poll_work(&self, cx: &mut Context<'_>) -> Poll<Moment>
        ensures registered { OnPending result (Covers cx.new (λ source. source ≡ work_source self.now)) }
        ensures kept { Keeps cx.old cx.new }
    {
        let Some(mut connection) = lock(&self.connection) else {
            return cx.yield_now();
        };
        connection.poll_work(cx, &self.work)
    }

    fn leave(&self, ticket: Option<Ticket>) {
        let Some(ticket) = ticket else {
            return;
        };
        match lock_or_give_up(&self.connection) {
            Ok(mut connection) => connection.leave(ticket),
            Err(gave_up) => ticket.abandon(gave_up),
        }
    }
}

impl Future for IsWritable<'_> {
    /// The error is that the allocator refused a place in the queue.
    type Output = Result<Moment, AllocError>;

    ghost needs = { λ future source. source ≡ room_source_of future };

    fn poll(&mut self, cx: &mut Context<'_>) -> Poll<Result<Moment, AllocError>> {
        self.outbound.poll_writable(cx, &mut self.ticket)
    }
}

impl Drop for IsWritable<'_> {
    fn drop(self) {
        let Self { outbound, ticket } = self;
        outbound.leave(ticket);
    }
}

impl Future for OwnedIsWritable {
    /// The error is that the allocator refused a place in the queue.
    type Output = Result<Moment, AllocError>;

    ghost needs = { λ future source. source ≡ owned_room_source future };

    fn poll(&mut self, cx: &mut Context<'_>) -> Poll<Result<Moment, AllocError>> {
        self.outbound.poll_writable(cx, &mut self.ticket)
    }
}

impl Drop for OwnedIsWritable {
    fn drop(self) {
        let Self { outbound, ticket } = self;
        outbound.leave(ticket);
    }
}

impl Future for HasWork<'_> {
    type Output = Moment;

    ghost needs = { λ future source. source ≡ work_source_of future };

    fn poll(&mut self, cx: &mut Context<'_>) -> Poll<Moment> {
        self.outbound.poll_work(cx)
    }
}

impl Future for OwnedHasWork {
    type Output = Moment;

    ghost needs = { λ future source. source ≡ owned_work_source future };

    fn poll(&mut self, cx: &mut Context<'_>) -> Poll<Moment> {
        self.outbound.poll_work(cx)
    }
}
