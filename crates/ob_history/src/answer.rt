//! The answer of a buffer, and what is done with it, for this crate alone.

ghost use Rattle.std.specs.Prelude.{◌≡◌, ◌≤◌, ◌↔◌, List, length, IsErrOf, IsOk, IsTrue, IfOk, OnErr};
ghost use Rattle.ob_seq.specs.Pending.{Accepts, Answers, Follows, settled_by};
ghost use Rattle.ob_types.specs.Limits.{inline_settlements};
ghost use Rattle.ob_types.specs.declared.command.Command.{Command};
ghost use Rattle.ob_history.specs.Inside.{IsSmall};

use ob_seq::Buffer;
use ob_types::{Command, Refusal, Reply, Settlements, Spare};
use std::alloc::{AllocError, Global};

/// Gives a buffer one command. `NoMemory` is no answer: it leaves the buffer as it was.
pub fn give(buffer: &mut Buffer, command: Command) -> Result<Result<Reply, Refusal>, AllocError>
    ensures answer { IfOk result (λ answer. Answers buffer.old command answer) }
    ensures stands { IfOk result (λ answer. Follows buffer.old command answer buffer.new) }
    ensures settings { buffer.new.settings ≡ buffer.old.settings }
    ensures err { OnErr result (buffer.new ≡ buffer.old) }
    ensures last { OnErr result (Accepts buffer.old command) }
    ensures frugal { (commands : List Command) → IsSmall buffer.old command commands → IsOk result }
{
    match buffer.apply(command) {
        Err(Refusal::NoMemory) => Err(AllocError),
        answer => Ok(answer),
    }
}

/// Whether an answer is `NoMemory`.
pub fn wants_memory(answer: &Result<Reply, Refusal>) -> bool
    ensures { IsTrue result ↔ IsErrOf answer.now Refusal.NoMemory }
{
    matches!(answer, Err(Refusal::NoMemory))
}

/// The same answer. It fails only if it is out of memory, and never if at most four promises are settled.
pub fn copy(answer: &Result<Reply, Refusal>) -> Result<Result<Reply, Refusal>, AllocError>
    ensures same { IfOk result (λ copy. copy ≡ answer.now) }
    ensures succeeds { length (settled_by answer.now) ≤ inline_settlements → IsOk result }
{
    match answer {
        Ok(reply) => Ok(Ok(reply.copy()?)),
        Err(refusal) => Ok(Err(*refusal)),
    }
}

/// The same answer, in memory that was allocated before.
pub fn copy_in(answer: &Result<Reply, Refusal>, spare: Spare) -> Result<Reply, Refusal>
    requires { length (settled_by answer.now) ≤ spare }
    ensures { result ≡ answer.now }
{
    match answer {
        Ok(reply) => Ok(reply.copy_in(spare)),
        Err(refusal) => Err(*refusal),
    }
}

/// The same answer, of one that settles no promise. It does not allocate.
pub fn copy_of_none(alloc: Global, answer: &Result<Reply, Refusal>) -> Result<Reply, Refusal>
    requires { length (settled_by answer.now) ≡ 0 }
    ensures { result ≡ answer.now }
{
    match answer {
        Ok(reply) => Ok(Reply {
            answer: reply.answer,
            settled: Settlements::new(alloc),
            change: reply.change,
        }),
        Err(refusal) => Err(*refusal),
    }
}

/// Whether two answers are the same.
pub fn is_same(one: &Result<Reply, Refusal>, other: &Result<Reply, Refusal>) -> bool
    ensures { IsTrue result ↔ (one.now ≡ other.now) }
{
    match one {
        Ok(reply) => match other {
            Ok(other) => reply.is_same(other),
            Err(_) => false,
        },
        Err(refusal) => match other {
            Ok(_) => false,
            Err(other) => refusal == other,
        },
    }
}
