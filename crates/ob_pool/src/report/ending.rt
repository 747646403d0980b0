//! The end of a drive, whose threads have all ended.

ghost use Rattle.std.specs.List.{All};
ghost use Rattle.std.specs.Prelude.{◌≡◌, ◌≤◌, ◌++◌, [], ◌∷◌, length, IfErr, IfOk};
ghost use Rattle.ob_history.specs.History.{IsBeginning};
ghost use Rattle.ob_shared.specs.Calls.{HandsInAll, IsAsOpened, made_by};
ghost use Rattle.ob_pool.specs.Drive.{ComesOfWork};
ghost use Rattle.ob_pool.specs.Inside.{AreCounted, AreNumbered, TellsEnd};

use crate::fault::DriveFault;
use crate::report::Report;
use crate::report::counting::{counts_in, report_of};
use crate::threads::{Context, Ended};
use ob_history::Recorded;
use ob_shared::{Done, Named, SharedBuffer};

/// The report of a drive whose threads have ended, with what its writers and its transport hand in.
pub fn into_report<L: Named>(context: Context<L>, ended: Ended<L>) -> Result<Report, DriveFault>
    requires words { ended.lane.words ≡ context.words }
    requires whole { context.words.grant.room ≤ ended.lane.lane.room }
    requires no_bit { context.words.grant.bits ≡ 0 }
    requires numbered { AreNumbered context.writers ended.dones.items ended.done }
    requires counted { AreCounted context.writers ended.dones.items ended.counts }
    ensures fault { IfErr result (ComesOfWork 0) }
    ensures ended { IfOk result
        (TellsEnd L.opened context.words.grant.marks context.writers (ended.dones.items ++ ended.done ∷ [])) }
{
    let Context {
        shared,
        words,
        writers,
        ..
    } = context;
    let Ended {
        lane,
        dones,
        done,
        counts,
    } = ended;
    let mut counts = counts;
    counts.add_all(&counts_in(&done.receipts, writers));
    let recorded = match finished(shared, dones, done) {
        Ok(recorded) => recorded,
        Err(fault) => {
            return Err(fault);
        }
    };
    match lane.finish(words) {
        Ok(hand) => Ok(report_of(recorded, counts, writers, hand)),
        // the lane is back with all the room of the words, and owes nothing
        Err(_) => unreachable!(),
    }
}

/// The history of a shared buffer at its end, with what its writers and its transport hand in.
fn finished<L: Named>(
    shared: SharedBuffer<L>,
    mut dones: Vec<Done<L>>,
    done: Done<L>,
) -> Result<Recorded, DriveFault>
    ensures fault { IfErr result (ComesOfWork 0) }
    ensures opened { IfOk result (λ recorded. IsAsOpened L.opened recorded) }
    ensures own { IfOk result (λ recorded. All (HandsInAll recorded.records) (dones.items ++ done ∷ [])) }
    ensures counted { IfOk result (λ recorded. length recorded.records ≡ made_by (dones.items ++ done ∷ [])) }
    ensures made { IfOk result (λ recorded.
        All (λ one. one.maker.made ≡ length one.receipts) (dones.items ++ done ∷ [])) }
    ensures saw { IfOk result (λ recorded.
        All (λ one. IsBeginning one.sight.seen recorded.records) (dones.items ++ done ∷ [])) }
{
    if dones.reserve(1).is_err() {
        return Err(DriveFault::NoMemory);
    }
    dones.push_reserved(done);
    match shared.finish(dones) {
        Ok(end) => Ok(end.recorded),
        Err(unfinished) => {
            let fault = unfinished.fault;
            Err(DriveFault::Finish(fault))
        }
    }
}
