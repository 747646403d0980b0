ghost use Rattle.std.specs.Prelude.{◌≡◌, ◌≤◌, ◌+◌, ◌-◌, if◌then◌else◌};
ghost use Rattle.ob_lifecycle.specs.Events.{most_told};
ghost use Rattle.ob_lifecycle.specs.Strain.{is_stop, more_if, refused_more, strained};
ghost use Rattle.ob_lifecycle.specs.declared.fault.WriteFault.TheVariants.{Refused as Declined};

use crate::fault::WriteFault;
use crate::refusals::Refusals;
use ob_types::{Change, Refusal};

/// How often and for how long writers were stopped, and how often calls were refused.
#[derive(Drop)]
pub struct Strain {
    pub stops: u64,
    pub stopped: u64,
    pub refusals: Refusals,
}

impl Strain {
    /// Nothing of it yet.
    pub fn new() -> Strain
        ensures { result ≡ record {
          stops = 0;
          stopped = 0;
          refusals = record {
            closed = 0;
            finishing = 0;
            oversize = 0;
            full = 0;
            too_much = 0;
            no_memory = 0;
            nothing_flushed = 0;
            too_far = 0;
            too_many_bytes = 0;
            bad_index = 0;
            flushed_left = 0;
            unknown_promise = 0;
          };
        } }
    {
        Strain {
            stops: 0,
            stopped: 0,
            refusals: Refusals::none(),
        }
    }

    /// Once a call returned this change of writability, or was refused.
    #[inline(always)]
    pub fn told(&mut self, answer: Result<Option<Change>, WriteFault>)
        ensures { self.new ≡ strained answer self.old }
    {
        match answer {
            Ok(change) => self.changed(change),
            Err(why) => {
                self.refused(why);
            }
        }
    }

    /// Once a command changed writability so.
    #[inline(always)]
    pub fn changed(&mut self, change: Option<Change>)
        ensures { self.new ≡ record self.old { stops = more_if (is_stop change) self.old.stops } }
    {
        if let Some(Change::Unwritable) = change {
            self.stops = self.stops.saturating_add(1);
        }
    }

    /// Once a call was refused. It hands the reason back, so that a caller has nothing to keep over the call.
    #[cold]
    #[inline(never)]
    pub fn refused(&mut self, why: WriteFault) -> WriteFault
        ensures counted { self.new ≡ record self.old { refusals = refused_more why self.old.refusals } }
        ensures same { result ≡ why }
    {
        self.refusals.count(why);
        why
    }

    /// Once the connection refused a command. It hands the refusal back, as `refused` the reason.
    #[cold]
    #[inline(never)]
    pub fn declined(&mut self, refusal: Refusal) -> Refusal
        ensures counted { self.new ≡ record self.old { refusals = refused_more (Declined refusal) self.old.refusals } }
        ensures same { result ≡ refusal }
    {
        self.refusals.count(WriteFault::Refused(refusal));
        refusal
    }

    /// Once the clock went on, while writers might go on or not.
    pub fn pass(&mut self, writable: bool, from: u64, to: u64)
        requires { self.old.stopped + (to - from) ≤ most_told }
        ensures { self.new ≡ record self.old { stopped = self.old.stopped + (if writable then 0 else to - from) } }
    {
        if !writable {
            self.stopped += to.saturating_sub(from);
        }
    }
}
