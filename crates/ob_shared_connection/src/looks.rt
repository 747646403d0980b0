//! The looks, each as that of `Connection` of the same name: what `ask` and `try_ask` of a handle take, and `ask` of a guard.
ghost use Rattle.ob_types.specs.declared.command.Command.TheVariants as command;
ghost use Rattle.ob_types.specs.declared.message.Message.TheVariants.{Block};
ghost use Rattle.ob_seq.specs.State.{writable_after, empty_after, closed_after};
ghost use Rattle.ob_connection.specs.Connected.{IsFrontPromise, Refuses, Shows, Tells};
ghost use Rattle.ob_connection.specs.Connected.{Gives};
ghost use Rattle.ob_shared_connection.specs.Calls.{Gathers, RefusesFreely};
ghost use Rattle.ob_shared_connection.specs.Ruled.{IsParting};
ghost use Rattle.ob_shared_connection.specs.Values.{moment_after};

use crate::ask::Ask;
use crate::bell::{Bell, Work, Writers};
use crate::moment::Moment;
use bytes::Bytes;
use ob_connection::{Connection, Status};
use ob_types::Refusal;
use std::marker::PhantomData;

/// What is pending now.
#[derive(Drop)]
pub struct Look;

impl Ask for Look {
    type Answer = ob_connection::Look;

    ghost shows = { λ _ connected look. Shows connected look };

    fn ask(self, connection: &Connection) -> ob_connection::Look {
        connection.look()
    }
}

/// Whether writers may go on.
#[derive(Drop)]
pub struct IsWritable;

impl Ask for IsWritable {
    type Answer = bool;

    ghost shows = { λ _ connected answer. Gives connected writable_after answer };

    fn ask(self, connection: &Connection) -> bool {
        connection.is_writable()
    }
}

/// Whether no message is flushed and not yet removed.
#[derive(Drop)]
pub struct IsEmpty;

impl Ask for IsEmpty {
    type Answer = bool;

    ghost shows = { λ _ connected answer. Gives connected empty_after answer };

    fn ask(self, connection: &Connection) -> bool {
        connection.is_empty()
    }
}

/// Whether a close was accepted.
#[derive(Drop)]
pub struct IsClosed;

impl Ask for IsClosed {
    type Answer = bool;

    ghost shows = { λ _ connected answer. Gives connected closed_after answer };

    fn ask(self, connection: &Connection) -> bool {
        connection.is_closed()
    }
}

/// Why a write of these bytes as a block would be refused now.
#[derive(Drop)]
pub struct RefusalOfBlock<'b>(pub &'b [u8]);

impl<'b> Ask for RefusalOfBlock<'b> {
    type Answer = Option<Refusal>;

    ghost shows = { λ ask connected refusal. RefusesFreely connected (command.Write (Block ask.0.now)) refusal };

    fn ask(self, connection: &Connection) -> Option<Refusal> {
        connection.refusal_of_block(self.0)
    }
}

/// What has become of the promise of this number.
#[derive(Drop)]
pub struct Promise(pub u64);

impl Ask for Promise {
    type Answer = Option<Status>;

    ghost shows = { λ ask connected status. Tells connected ask.0 status };

    fn ask(self, connection: &Connection) -> Option<Status> {
        connection.promise(self.0)
    }
}

/// The promise of the first flushed message.
#[derive(Drop)]
pub struct Front;

impl Ask for Front {
    type Answer = Option<u64>;

    ghost shows = { λ _ connected id. IsFrontPromise connected id };

    fn ask(self, connection: &Connection) -> Option<u64> {
        connection.front()
    }
}

/// The flushed blocks in front that can be sent at once, of at most this many pieces and this many bytes. They share their
/// memory with the connection.
#[derive(Drop)]
pub struct Gather(pub u32, pub u32);

impl Ask for Gather {
    type Answer = Result<Vec<Bytes>, Refusal>;

    ghost shows = { λ ask connected gathered. Gathers (λ blocks. blocks.items) ask.0 ask.1 connected gathered };

    fn ask(self, connection: &Connection) -> Result<Vec<Bytes>, Refusal> {
        connection.gather(self.0, self.1)
    }
}

/// What a handle that waits at a bell finds.
#[derive(Drop)]
pub struct At<B> {
    bell: PhantomData<B>,
}

impl<B: Bell> At<B> {
    pub fn new() -> At<B> {
        At { bell: PhantomData }
    }
}

impl<B: Bell> Ask for At<B> {
    type Answer = Moment;

    ghost shows = { λ _ connected moment. Gives connected (moment_after B.waiter) moment };

    fn ask(self, connection: &Connection) -> Moment {
        B::moment(connection)
    }
}

/// What whoever lets the lock go has to know.
#[derive(Drop)]
pub struct Leave;

/// What that is: the word and the total, and whether writers and the transport may go on.
#[derive(Clone, Copy)]
pub struct Parting {
    pub word: u32,
    pub total: u32,
    pub writers: bool,
    pub work: bool,
}

impl Ask for Leave {
    type Answer = Parting;

    ghost shows = { λ _ connected parting. IsParting connected parting };

    fn ask(self, connection: &Connection) -> Parting {
        let look = connection.look();
        Parting {
            word: look.word,
            total: look.total,
            writers: Writers::moment(connection).is_due(),
            work: Work::moment(connection).is_due(),
        }
    }
}
