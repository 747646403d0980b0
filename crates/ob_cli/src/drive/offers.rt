//! A sink that counts how often it is offered something.

ghost use Rattle.ob_transport.specs.Sent.{Plays};
ghost use Rattle.std.specs.Prelude.{◌≡◌};
ghost use Rattle.ob_cli.specs.More.{with_call, with_offer};

use bytes::Bytes;
use ob_transport::{ScriptSink, Sink, SinkFault};

/// How often the passes of a drive offered something to its sink.
#[derive(Clone, Copy)]
pub struct Offers {
    /// The passes that offered something. A pass that finds nothing flushed is none of them.
    pub passes: u64,
    /// Those of them of which the sink took nothing.
    pub stalls: u64,
}

/// The sink of a script, which counts its calls. A pass makes one at most.
#[derive(Drop)]
pub struct CountingSink {
    pub script: ScriptSink,
    pub offers: Offers,
}

impl CountingSink {
    /// A sink before its first call.
    pub fn new(script: ScriptSink) -> CountingSink
        ensures script { result.script ≡ script }
        ensures none { result.offers ≡ record { passes = 0; stalls = 0 } }
    {
        let offers = Offers {
            passes: 0,
            stalls: 0,
        };
        CountingSink { script, offers }
    }
}

impl Offers {
    /// Counts one call, and whether it took nothing.
    fn add(&mut self, is_stall: bool)
        ensures { self.new ≡ with_call is_stall self.old }
    {
        self.passes = self.passes.saturating_add(1);
        if is_stall {
            self.stalls = self.stalls.saturating_add(1);
        }
    }
}

impl Sink for CountingSink {
    ghost content = { λ counting. counting.script.content };

    /// It does what the script says, and counts that.
    ghost does = { λ before asked answer after. Plays before.script asked answer after.script
        × (after.offers ≡ with_offer answer before.offers) };

    fn take(&mut self, blocks: &[Bytes]) -> Result<usize, SinkFault> {
        let answer = self.script.take(blocks);
        self.offers.add(matches!(answer, Ok(0)));
        answer
    }

    fn take_region(&mut self, units: u64) -> Result<u64, SinkFault> {
        let answer = self.script.take_region(units);
        self.offers.add(matches!(answer, Ok(0)));
        answer
    }
}
