//! The change of writability that an answer reports, or why there is none.

ghost use Rattle.std.specs.Prelude.{◌≡◌, IfOk, None};
ghost use Rattle.ob_lifecycle.specs.declared.fault.WriteFault.TheVariants.{Refused as Declined};
ghost use Rattle.ob_lifecycle.specs.Strain.{change_in};

use crate::fault::WriteFault;
use ob_connection::{Flushed, Removed, SendFault, Sent, SentTurns, Taken};
use ob_types::{Change, Refusal};

/// Of a flush.
#[inline(always)]
pub fn of_flush(answer: &Result<Flushed, Refusal>) -> Result<Option<Change>, WriteFault>
    ensures { result ≡ change_in (λ flushed. flushed.change) (λ refusal. Declined refusal) answer.now }
{
    match answer {
        Ok(flushed) => Ok(flushed.change),
        Err(refusal) => Err(WriteFault::Refused(*refusal)),
    }
}

/// Of a removal.
#[inline(always)]
pub fn of_removal(answer: &Result<Removed, Refusal>) -> Result<Option<Change>, WriteFault>
    ensures { result ≡ change_in (λ removed. removed.change) (λ refusal. Declined refusal) answer.now }
{
    match answer {
        Ok(removed) => Ok(removed.change),
        Err(refusal) => Err(WriteFault::Refused(*refusal)),
    }
}

/// Of what takes several messages away.
#[inline(always)]
pub fn of_taking(answer: &Result<Taken, Refusal>) -> Result<Option<Change>, WriteFault>
    ensures { result ≡ change_in (λ taken. taken.change) (λ refusal. Declined refusal) answer.now }
{
    match answer {
        Ok(taken) => Ok(taken.change),
        Err(refusal) => Err(WriteFault::Refused(*refusal)),
    }
}

/// Of a user bit.
#[inline(always)]
pub fn of_bit(answer: &Result<Option<Change>, Refusal>) -> Result<Option<Change>, WriteFault>
    ensures { result ≡ change_in (λ change. change) (λ refusal. Declined refusal) answer.now }
{
    match answer {
        Ok(change) => Ok(*change),
        Err(refusal) => Err(WriteFault::Refused(*refusal)),
    }
}

/// Of a cancellation, which changes none.
#[inline(always)]
pub fn of_cancel(answer: &Result<bool, Refusal>) -> Result<Option<Change>, WriteFault>
    ensures { result ≡ change_in (λ in_time. None) (λ refusal. Declined refusal) answer.now }
{
    match answer {
        Ok(_in_time) => Ok(None),
        Err(refusal) => Err(WriteFault::Refused(*refusal)),
    }
}

/// Of a command that has nothing more to say, and changes none.
#[inline(always)]
pub fn of_done(answer: &Result<(), Refusal>) -> Result<Option<Change>, WriteFault>
    ensures { result ≡ change_in (λ done. None) (λ refusal. Declined refusal) answer.now }
{
    match answer {
        Ok(()) => Ok(None),
        Err(refusal) => Err(WriteFault::Refused(*refusal)),
    }
}

/// Of a sending at once.
pub fn of_once(answer: &Result<Sent, SendFault>) -> Option<Change>
    ensures { IfOk answer.now (λ done. result ≡ done.taken.change) }
{
    match answer {
        Ok(done) => done.taken.change,
        Err(_fault) => None,
    }
}

/// Of a sending in turns.
pub fn of_turns(answer: &Result<SentTurns, SendFault>) -> Option<Change>
    ensures { IfOk answer.now (λ done. result ≡ done.taken.change) }
{
    match answer {
        Ok(done) => done.taken.change,
        Err(_fault) => None,
    }
}
