ghost use Rattle.std.specs.Prelude.{◌≡◌, ◌≤◌, length, drop, IfSome};
ghost use Rattle.ob_seq.specs.Looks.{blocks_left};
ghost use Rattle.ob_seq.specs.Steps.Commands.{cut_of, first_length};
ghost use Rattle.ob_seq.specs.Unsent.{pending_entries};

use crate::contents::Contents;
use crate::walk::Walk;
use ob_types::Message;

/// Where a removal of bytes ends.
#[derive(Clone, Copy, Debug, PartialEq, Eq)]
pub struct Cut {
    /// How many entries it takes away whole.
    pub whole: usize,
    /// How many bytes of the next entry it skips.
    pub rest: u64,
}

impl Contents {
    /// Where the removal of *n* bytes ends, or nothing if the blocks in front hold fewer. It goes over the
    /// entries that such a removal takes away, and one more.
    pub fn find_cut(&self, n: u64) -> Option<Cut>
        ensures value { result ≡ cut_of n (blocks_left (pending_entries self.now.line)) }
        ensures within { IfSome result (λ cut. cut.whole ≤ length self.now.line) }
        ensures rest { IfSome result (λ cut. cut.rest ≤ first_length (drop cut.whole (pending_entries self.now.line))) }
    {
        let mut whole = 0;
        let mut rest = n;
        for entry in Walk::over(&self.entries, self.flushed) {
            let Message::Block(bytes) = &entry.message else {
                break;
            };
            let left = bytes.len() as u64;
            if left > rest {
                return Some(Cut { whole, rest });
            }
            whole += 1;
            rest -= left;
        }
        (rest == 0).then_some(Cut { whole, rest })
    }
}
