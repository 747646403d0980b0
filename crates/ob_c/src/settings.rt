//! What C asks an opening for.

ghost use Rattle.std.specs.Prelude.{◌≡◌, ◌≤◌, IfOk, nat_eq};
ghost use Rattle.ob_types.specs.Limits.{greatest_overhead, greatest_unknown};
ghost use Rattle.ob_c.specs.Calls.{settings_for, settings_of};

use crate::numbers::{BAD_ESTIMATE, EDGE, OTHER_VERSION};
use ob_types::{Estimate, WaterMark};
use std::marker::Model;

/// The greatest overhead, and the greatest size of an unknown message, in bytes.
const MAX_ESTIMATE: u32 = 65535;

/// The marks of a connection, and how its messages are counted.
pub(crate) struct Settings {
    pub(crate) marks: WaterMark,
    pub(crate) estimate: Estimate,
}

impl Model for Settings {
    ghost use Rattle.ob_seq.specs.Rows.{Settings as SettingsOfBuffer};

    ghost Value = { SettingsOfBuffer };

    ghost view = { λ settings. record { marks = settings.marks; estimate = settings.estimate } };
}

/// The settings of these numbers of bytes, for a caller that was compiled for this edge, or the status of what is wrong
/// first: 17 for another edge, 2 for bad marks, 15 for a bad estimate.
pub(crate) fn settings_for(
    edge: u32,
    low: u32,
    high: u32,
    overhead: u32,
    unknown: u32,
) -> Result<Settings, u32>
    ensures settings { result ≡ settings_for (nat_eq edge EDGE) (settings_of low high overhead unknown) }
    ensures overhead { IfOk result (λ settings. settings.estimate.overhead ≤ greatest_overhead) }
    ensures unknown { IfOk result (λ settings. settings.estimate.unknown ≤ greatest_unknown) }
{
    if edge != EDGE {
        return Err(OTHER_VERSION);
    }
    let marks = match WaterMark::new(low, high) {
        Ok(marks) => marks,
        Err(refusal) => return Err(u32::from(refusal.number())),
    };
    if overhead > MAX_ESTIMATE || unknown > MAX_ESTIMATE {
        return Err(BAD_ESTIMATE);
    }
    Ok(Settings {
        marks,
        estimate: Estimate { overhead, unknown },
    })
}
