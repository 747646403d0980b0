//! What the end of a shared buffer compares.

ghost use Rattle.std.specs.Prelude.{◌≡◌, ◌↔◌, [], IfOk, IfSome, IsNone, IsOk, IsOkUnless, IsTrue};
ghost use Rattle.std.specs.List.{All};
ghost use Rattle.ob_shared.specs.Calls.{StandsIn, first_short, is_short, IsFirstForeign, IsForeign, HasNoLooks};
ghost use Rattle.ob_shared.specs.Calls.{LacksShare, has_handed_in};

use crate::done::Done;
use crate::named::Named;
use ob_history::Recorded;
use ob_types::Refusal;

/// Whether the share of one of `callers` callers is not among those that were handed in.
pub fn lacks_share<L: Named>(callers: u32, dones: &[Done<L>]) -> bool
    ensures { IsTrue result ↔ LacksShare callers dones.now }
{
    for caller in 0..callers {
        if !is_handed_in(caller, dones) {
            return true;
        }
    }
    false
}

/// Whether a caller handed in.
fn is_handed_in<L: Named>(caller: u32, dones: &[Done<L>]) -> bool
    ensures { result ≡ has_handed_in caller dones.now }
{
    dones.iter().any(|done| done.share.caller() == caller)
}

/// The caller of the first who handed in another number of receipts than records were made with its share.
pub fn first_short<L: Named>(dones: &[Done<L>]) -> Option<u32>
    ensures { result ≡ first_short dones.now }
{
    let short = dones.iter().find(|done| is_short(done))?;
    Some(short.share.caller())
}

fn is_short<L: Named>(done: &Done<L>) -> bool
    ensures { result ≡ is_short done.now }
{
    done.receipts.len() != done.share.made() as usize
}

/// The caller and the place of the first item that is not of the history: Done by Done, in each first the receipts,
/// then what was told, then what was seen. It fails only if it is out of memory, and never without a look.
pub fn first_foreign<L: Named>(
    recorded: &Recorded,
    dones: &[Done<L>],
) -> Result<Option<(u32, u32)>, Refusal>
    ensures stands { IfOk result (λ found. IsNone found
        → All (StandsIn recorded.now.settings recorded.now.records) dones.now) }
    ensures foreign { IfOk result (λ found. IfSome found (λ item.
        IsForeign recorded.now.settings recorded.now.records dones.now item.0 item.1)) }
    ensures no_memory { IsOkUnless result Refusal.NoMemory }
    ensures frugal { HasNoLooks dones.now → IsOk result }
{
    for done in dones {
        if let Some(place) = foreign_place(recorded, done)? {
            return Ok(Some((done.share.caller(), place)));
        }
    }
    Ok(None)
}

/// The place of the first item of one Done that is not of the history.
fn foreign_place<L: Named>(recorded: &Recorded, done: &Done<L>) -> Result<Option<u32>, Refusal>
    ensures stands { IfOk result (λ found. IsNone found
        → StandsIn recorded.now.settings recorded.now.records done.now) }
    ensures foreign { IfOk result (λ found. IfSome found (λ place.
        IsFirstForeign recorded.now.settings recorded.now.records done.now place)) }
    ensures broken { IfOk result (λ found. IfSome found (λ _.
        ¬ StandsIn recorded.now.settings recorded.now.records done.now)) }
    ensures no_memory { IsOkUnless result Refusal.NoMemory }
    ensures frugal { done.now.seen ≡ [] → IsOk result }
{
    let Done {
        share,
        receipts,
        told,
        seen,
    } = done;
    if let Some(index) = recorded.first_foreign_receipt(share.caller(), receipts) {
        return Ok(Some(receipts[index].place));
    }
    if let Some(index) = recorded.first_foreign_told(told) {
        return Ok(Some(told[index].place));
    }
    match recorded.first_foreign_seen(seen)? {
        Some(index) => Ok(Some(seen[index].place)),
        None => Ok(None),
    }
}
