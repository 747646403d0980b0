ghost use Rattle.std.specs.Prelude.{◌≡◌, ◌≤◌, length};
ghost use Rattle.ob_script.specs.Reading.{greatest_script};
ghost use Rattle.ob_traces.specs.Summary.{settlements_in};

use crate::traces::line::{Settled, TraceLine};

/// How many promises a trace settles, by outcome.
#[derive(Clone, Copy)]
pub struct Settlements {
    pub success: u64,
    pub failed: u64,
    pub cancelled: u64,
}

/// How many promises the lines settle.
pub fn count_settlements(lines: &[TraceLine]) -> Settlements
    requires few { length lines.now ≤ greatest_script }
    ensures { result ≡ settlements_in lines.now }
{
    let mut all = Settlements {
        success: 0,
        failed: 0,
        cancelled: 0,
    };
    for line in lines {
        all = all.with(line.settled);
    }
    all
}

impl Settlements {
    ghost use Rattle.std.specs.Prelude.{◌<◌, ◌+◌, ◌^◌};

    /// These and those of one line more.
    fn with(self, settled: Settled) -> Settlements
        requires success { self.success < 2 ^ 63 }
        requires failed { self.failed < 2 ^ 63 }
        requires cancelled { self.cancelled < 2 ^ 63 }
        ensures success { result.success ≡ self.success + settled.success }
        ensures failed { result.failed ≡ self.failed + settled.failed }
        ensures cancelled { result.cancelled ≡ self.cancelled + settled.cancelled }
        ensures success_small { result.success ≤ self.success + 4294967295 }
        ensures failed_small { result.failed ≤ self.failed + 4294967295 }
        ensures cancelled_small { result.cancelled ≤ self.cancelled + 4294967295 }
    {
        Settlements {
            success: self.success + u64::from(settled.success),
            failed: self.failed + u64::from(settled.failed),
            cancelled: self.cancelled + u64::from(settled.cancelled),
        }
    }
}
