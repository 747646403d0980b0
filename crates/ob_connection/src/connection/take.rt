//! What the calls share that take messages away.

ghost use Rattle.std.specs.Prelude.{◌≡◌, ◌≤◌, ◌+◌, ◌-◌, false, true, IfErr, IsErrOf, OnErr, OnOk};
ghost use Rattle.ob_types.specs.Marks.{change_between};
ghost use Rattle.ob_types.specs.declared.promise.Outcome.TheVariants.{Cancelled};
ghost use Rattle.ob_seq.specs.Kept.{removal};
ghost use Rattle.ob_seq.specs.Steps.Commands.{bytes_removed};
ghost use Rattle.ob_connection.specs.Inside.{Becomes, IsCut};
ghost use Rattle.ob_connection.specs.Obeying.{Obeys, removed_reply};
ghost use Rattle.ob_connection.specs.Connected.{TakesNoRoom};

use crate::connection::Connection;
use crate::replies::{Removed, Taken};
use ob_seq::Cut;
use ob_types::{Change, Outcome, Refusal};

impl Connection {
    /// Refuses with `Closed` exactly if it is closed.
    #[inline(always)]
    pub(super) fn ask_open(&self) -> Result<(), Refusal>
        ensures open { OnOk result (self.now.unsent.closed ≡ false) }
        ensures closed { OnErr result (self.now.unsent.closed ≡ true) }
        ensures refusal { IfErr result (λ refusal. refusal ≡ Refusal.Closed) }
    {
        if self.contents.is_closed() {
            return Err(Refusal::Closed);
        }
        Ok(())
    }

    /// Takes the first flushed message away with this outcome.
    #[inline(always)]
    pub(super) fn remove_as(&mut self, outcome: Outcome) -> Result<Removed, Refusal>
        requires { ¬ (outcome ≡ Cancelled) }
        ensures obeys { Obeys self.old (removal outcome) removed_reply result self.new }
        ensures frugal { ¬ IsErrOf result Refusal.NoMemory }
        ensures room { TakesNoRoom self.old self.new }
    {
        let Some(front) = self.contents.remove()? else {
            return Ok(Removed {
                any: false,
                settled: None,
                change: None,
            });
        };
        let id = self.gone;
        self.gone += 1;
        self.give_back();
        Ok(Removed {
            any: true,
            settled: front.settles.then_some((id, outcome)),
            change: front.change,
        })
    }

    /// Takes away what a removal of bytes does that ends there.
    pub(super) fn take_cut(&mut self, cut: Cut)
        requires open { self.old.unsent.closed ≡ false }
        requires found { IsCut self.old.unsent cut }
        ensures becomes { Becomes (bytes_removed cut) self.old self.new }
        ensures gone { self.new.gone ≡ self.old.gone + cut.whole }
        ensures still_open { self.new.unsent.closed ≡ false }
        ensures room { TakesNoRoom self.old self.new }
    {
        self.contents.take_cut(cut);
        self.gone += cut.whole as u64;
        self.give_back();
    }

    /// What was taken away since the word and the number of messages that were gone were these.
    pub(super) fn taken_since(&self, before: u32, from: u64, outcome: Outcome) -> Taken
        requires { from ≤ self.now.gone }
        ensures { result ≡ record {
          count = self.now.gone - from;
          change = change_between before self.now.unsent.word;
          from = from;
          to = self.now.gone;
          outcome = outcome;
        } }
    {
        Taken {
            count: self.gone - from,
            change: Change::between(before, self.contents.word()),
            from,
            to: self.gone,
            outcome,
        }
    }
}
