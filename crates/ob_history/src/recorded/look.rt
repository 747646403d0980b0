ghost use Rattle.std.specs.Prelude.{◌≡◌};
ghost use Rattle.ob_history.specs.History.{glance_after, IsLookAt};

use crate::glance::Glance;
use crate::recorded::Recorded;
use crate::seen::Seen;

impl Recorded {
    /// What is pending now, and how many calls are recorded. It changes nothing and does not allocate.
    pub fn look(&self) -> Seen
        ensures { IsLookAt self.now result }
    {
        Seen {
            place: self.records.len() as u32,
            look: self.buffer.look(),
        }
    }

    /// The word and the pending bytes now. It changes nothing and does not allocate. Our own.
    pub fn glance(&self) -> Glance
        ensures { result ≡ glance_after self.now.settings self.now.records }
    {
        let look = self.buffer.look();
        Glance {
            word: look.word,
            total: look.total,
        }
    }
}
