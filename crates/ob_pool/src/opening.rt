//! What the threads of a drive begin with.

ghost use Rattle.std.specs.List.{All};
ghost use Rattle.std.specs.Prelude.{◌≡◌, ◌+◌, length, map, IfOk, IsOkUnless};
ghost use Rattle.ob_shared.specs.Calls.{IsNameOf, new_share, new_shares};
ghost use Rattle.ob_pool.specs.Inside.{HaveRooms};
ghost use Rattle.ob_pool.specs.Threads.{IsRoomy, asked, room_for, work_from};

use crate::fault::DriveFault;
use crate::planning::CheckedPlans;
use crate::threads::Job;
use ob_shared::{Named, Opening, Share, SharedBuffer};
use std::alloc::Global;

/// A shared buffer that was opened for a drive, each plan with a share of it, and the share that is left for the transport.
#[derive(Drop)]
pub struct Opened<L: Named> {
    pub shared: SharedBuffer<L>,
    pub jobs: Vec<Job<L>>,
    pub share: Share<L>,
}

/// Opens the shared buffer of checked plans.
pub fn open<L: Named>(
    alloc: Global,
    checked: CheckedPlans,
    opening: Opening,
) -> Result<Opened<L>, DriveFault>
    requires name { IsNameOf opening L.opened L.name L.parts }
    requires callers { opening.callers ≡ length checked.plans + 1 }
    requires rooms { HaveRooms checked }
    ensures no_memory { IsOkUnless result DriveFault.NoMemory }
    ensures asked { IfOk result (λ opened. map asked opened.jobs.items ≡ work_from 0 checked.plans) }
    ensures roomy { IfOk result (λ opened. All (IsRoomy checked.estimate checked.task) opened.jobs.items) }
    ensures room { IfOk result (λ opened. room_for opened.jobs.items ≡ checked.room) }
    ensures share { IfOk result (λ opened. opened.share ≡ new_share (length checked.plans)) }
{
    let Ok((shared, mut shares)) = opening.begin::<L>() else {
        return Err(DriveFault::NoMemory);
    };
    let Some(share) = shares.pop() else {
        // an opening of a drive has a share for each writer, and one more
        unreachable!()
    };
    match jobs_of(alloc, checked, shares) {
        Ok(jobs) => Ok(Opened {
            shared,
            jobs,
            share,
        }),
        Err(fault) => Err(fault)
    }
}

/// Each plan with a share, and the room that it needs.
fn jobs_of<L: Named>(
    alloc: Global,
    checked: CheckedPlans,
    shares: Vec<Share<L>>,
) -> Result<Vec<Job<L>>, DriveFault>
    requires shares { shares.items ≡ new_shares (length checked.plans) }
    requires rooms { HaveRooms checked }
    ensures no_memory { IsOkUnless result DriveFault.NoMemory }
    ensures asked { IfOk result (λ jobs. map asked jobs.items ≡ work_from 0 checked.plans) }
    ensures roomy { IfOk result (λ jobs. All (IsRoomy checked.estimate checked.task) jobs.items) }
    ensures room { IfOk result (λ jobs. room_for jobs.items ≡ checked.room) }
{
    let rooms = checked.rooms;
    let mut jobs = Vec::new(alloc);
    if jobs.reserve(checked.plans.len()).is_err() {
        return Err(DriveFault::NoMemory);
    }
    let mut shares = shares.into_iter();
    for plan in checked.plans {
        let Some(share) = shares.next() else {
            // there are as many shares as plans
            unreachable!()
        };
        let room = rooms[jobs.len()];
        jobs.push_reserved(Job { share, plan, room });
    }
    Ok(jobs)
}
