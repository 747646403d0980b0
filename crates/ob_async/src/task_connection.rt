ghost use Rattle.std.specs.Prelude.{◌≡◌, ◌≤◌, ℕ, [], None, IfOk, IfSome, IsOk, IsSomeAnd, OnErr};
ghost use Rattle.std.specs.Fn.{FnOnceReturnsAtMut};
ghost use Rattle.ob_types.specs.Limits.{greatest_overhead, greatest_unknown};
ghost use Rattle.ob_connection.specs.Connected.{StandsFor};
ghost use Rattle.futures.specs.Poll.{IfReady, OnPending};
ghost use Rattle.futures.specs.Task.{Covers, Keeps};
ghost use Rattle.futures.specs.WaitList.{HasRoom, IsParkedAt, IsQueued, Leaves, QueuesFewer, value_of};
ghost use Rattle.ob_async.specs.Inside.{task_connection_of};
ghost use Rattle.ob_async.specs.Waiting.{AllWoken, Finds, IsLeftToSend, MustWait, WakesJust, room_after, work_after};

mod commands;
mod sending;
mod writes;

use crate::moment::Moment;
use futures::task::{Context, Poll, Source, Waker};
use futures::util::wait_list::{Ticket, WaitList};
use ob_connection::Connection;
use ob_types::{Estimate, WaterMark};
use std::alloc::{AllocError, Global};
use std::marker::Model;

/// A connection, and the wakers of the tasks that wait for it: writers for room, and the one that sends for work.
///
/// Its calls return what those of the connection do. Each wakes whoever may go on by it: all writers once the connection
/// is writable or closed, and the sender once a flushed message is there or it is closed. So a task that waits is one that
/// has to: while writers may go on, none of them stands in the queue with its waker.
#[derive(Drop)]
pub struct TaskConnection {
    connection: Connection,
    writers: WaitList<()>,
    sender: Option<Waker>,
}

/// At each moment whoever may go on has been woken.
impl Model for TaskConnection {
    ghost use Rattle.ob_async.specs.Inside.{task_connection_of};
    ghost use Rattle.ob_async.specs.Waiting.{AllWoken, TaskConnectionValue};

    ghost Value = { TaskConnectionValue };

    ghost view = { λ it. task_connection_of it.connection it.writers it.sender };

    ghost invariant = { λ it. AllWoken (task_connection_of it.connection it.writers it.sender) };
}

impl TaskConnection {
    /// A connection with nothing written, as `Connection::new` makes it, and nobody who waits. The error is that the
    /// allocator refused the list of those who wait.
    pub fn new(
        alloc: Global,
        marks: WaterMark,
        estimate: Estimate,
    ) -> Result<TaskConnection, AllocError>
        requires overhead { estimate.overhead ≤ greatest_overhead }
        requires unknown { estimate.unknown ≤ greatest_unknown }
        ensures settings { IfOk result (λ it. it.connection.unsent.settings ≡ record { marks = marks; estimate = estimate }) }
        ensures stands { IfOk result (λ it. StandsFor it.connection []) }
        ensures nobody { IfOk result (λ it. (key : ℕ) → ¬ IsQueued it.writers key) }
        ensures silent { IfOk result (λ it. it.sender ≡ None) }
    {
        Ok(TaskConnection {
            connection: Connection::new(alloc, marks, estimate),
            writers: WaitList::new(alloc)?,
            sender: None,
        })
    }

    /// The connection, for all its looks.
    pub fn connection(&self) -> &Connection
        ensures { result.now ≡ self.now.connection }
    {
        &self.connection
    }

    /// Calls of the connection that belong together, with one wake after the last: whoever may go on then. So a writer that
    /// flushes and sends by itself wakes the task that sends only if something is left to send.
    pub fn together<T, F: FnOnce(&mut Connection) -> T>(&mut self, calls: F) -> T
        requires { F.IsAlwaysCallable calls }
        ensures calls { FnOnceReturnsAtMut F.FnOnce calls self.old.connection result self.new.connection }
        ensures wakes { WakesJust self.old self.new }
    {
        let answer = calls(&mut self.connection);
        wake(&self.connection, &mut self.writers, &mut self.sender);
        answer
    }

    /// Whoever may go on has been woken: while the connection is writable or closed no writer stands in the queue, and
    /// while a flushed message is there or it is closed no sender's waker is left. It does nothing.
    pub fn has_woken_all(&self)
        ensures { AllWoken self.now }
    {
        let _connection = &self.connection;
    }

    /// One poll of a writer that waits for room, with its ticket if it waited before. It is ready if the connection is
    /// writable or closed, and tells which. Else it is pending: the task's waker is left in the queue.
    ///
    /// The error is that the allocator refused a place for it in the queue; then it is not in the queue. It never comes to one
    /// that stands there.
    pub fn poll_writable(
        &mut self,
        cx: &mut Context<'_>,
        room: &Source,
        ticket: &mut Option<Ticket>,
    ) -> Poll<Result<Moment, AllocError>>
        ensures tells { IfReady result (λ told. IfOk told (Finds room_after self.old.connection)) }
        ensures waits { OnPending result (MustWait room_after self.old.connection) }
        ensures no_memory { IfReady result (λ told. OnErr told (MustWait room_after self.old.connection)) }
        ensures spares { ticket.old ≡ None → HasRoom self.old.writers → IfReady result (λ told. IsOk told) }
        ensures stays { IfSome ticket.old (λ it. IsQueued self.old.writers it.key → result ≡ Poll.Pending) }
        ensures parked { OnPending result (IsSomeAnd ticket.new (λ it. IsParkedAt cx.old cx.new self.new.writers it.key)) }
        ensures left { IfReady result (λ _. ticket.new ≡ None) }
        ensures removed { IfReady result (λ _. IfSome ticket.old (λ it. value_of self.new.writers it.key ≡ None)) }
        ensures registered { OnPending result (Covers cx.new (λ source. source ≡ room.now.id)) }
        ensures kept { Keeps cx.old cx.new }
        ensures connection { self.new.connection ≡ self.old.connection }
        ensures sender { self.new.sender ≡ self.old.sender }
    {
        self.connection.stands_for_some_commands();
        if self.connection.is_closed() {
            self.writers.leave(ticket.take());
            return Poll::Ready(Ok(Moment::Closed));
        }
        if self.connection.is_writable() {
            self.writers.leave(ticket.take());
            return Poll::Ready(Ok(Moment::Ready));
        }
        if let Some(place) = ticket.take() {
            let key = place.key();
            place.store(ticket);
            if self.writers.is_queued(key) {
                return self.writers.register(cx, room, key);
            }
        }
        match self.writers.park(cx, room, ticket, ()) {
            Poll::Ready(error) => Poll::Ready(Err(error)),
            Poll::Pending => Poll::Pending,
        }
    }

    /// Ends the wait of a writer that does not wait any more, as if its task is dropped.
    pub fn leave(&mut self, ticket: Ticket)
        ensures removed { value_of self.new.writers ticket.key ≡ None }
        ensures leaves { Leaves self.old.writers self.new.writers ticket.key }
        ensures fewer { QueuesFewer self.old.writers self.new.writers }
        ensures connection { self.new.connection ≡ self.old.connection }
        ensures sender { self.new.sender ≡ self.old.sender }
    {
        let key = self.writers.redeem(ticket);
        self.writers.remove(key);
    }

    /// One poll of the task that sends. It is ready if a flushed message is there or the connection is closed, and tells
    /// which. Else it is pending: the task's waker is left, and that of another task that waited here is woken.
    pub fn poll_work(&mut self, cx: &mut Context<'_>, work: &Source) -> Poll<Moment>
        ensures tells { IfReady result (Finds work_after self.old.connection) }
        ensures waits { OnPending result (MustWait work_after self.old.connection) }
        ensures parked { OnPending result (IsLeftToSend cx.old cx.new self.new) }
        ensures same { IfReady result (λ _. self.new ≡ self.old) }
        ensures registered { OnPending result (Covers cx.new (λ source. source ≡ work.now.id)) }
        ensures kept { Keeps cx.old cx.new }
        ensures connection { self.new.connection ≡ self.old.connection }
        ensures writers { self.new.writers ≡ self.old.writers }
    {
        self.connection.stands_for_some_commands();
        if !self.connection.is_empty() {
            return Poll::Ready(Moment::Ready);
        }
        if self.connection.is_closed() {
            return Poll::Ready(Moment::Closed);
        }
        cx.register(work, &mut self.sender)
    }
}

/// Wakes whoever may go on at this connection, and nobody else.
fn wake(connection: &Connection, writers: &mut WaitList<()>, sender: &mut Option<Waker>)
    ensures { WakesJust (task_connection_of connection.now writers.old sender.old)
        (task_connection_of connection.now writers.new sender.new) }
{
    connection.stands_for_some_commands();
    let is_closed = connection.is_closed();
    if is_closed || connection.is_writable() {
        writers.wake_all();
    }
    if is_closed || !connection.is_empty() {
        *sender = None;
    }
}
