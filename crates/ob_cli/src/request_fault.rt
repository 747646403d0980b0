use ob_pool::DriveFault;
use ob_script::ScriptFault;
use std::alloc::AllocError;
use thiserror::Error;

/// Why what was asked for ended before the end of its script.
#[derive(Debug, Drop, Error)]
pub enum RequestFault {
    /// The script could not be read or carried out to its end, or what came of it could not be written. Before a faulty
    /// line a drive does nothing.
    #[error("{0}")]
    Script(ScriptFault),
    /// The drive came to no report. Nothing was written.
    #[error("drive: fault {}", .0.number())]
    Drive(DriveFault),
}

impl RequestFault {
    ghost use Rattle.std.specs.Prelude.{◌≡◌};
    ghost use Rattle.ob_cli.specs.Request.{status_of};

    /// The status with which the program ends.
    pub fn status(&self) -> u8
        ensures { result ≡ status_of self.now }
    {
        match self {
            RequestFault::Script(ScriptFault::Line { .. }) => 2,
            RequestFault::Script(ScriptFault::Read | ScriptFault::TooLong | ScriptFault::Write) =>
                3,
            RequestFault::Script(ScriptFault::NoMemory) => 4,
            RequestFault::Drive(_) => 5,
        }
    }
}

impl From<ScriptFault> for RequestFault {
    ghost use Rattle.std.specs.Prelude.{◌≡◌};
    ghost use Rattle.ob_cli.specs.declared.request_fault.RequestFault.TheVariants.{Script};

    ghost from_gives = { λ fault made. made ≡ Script fault };

    fn from(fault: ScriptFault) -> RequestFault {
        RequestFault::Script(fault)
    }
}

impl From<AllocError> for RequestFault {
    ghost use Rattle.std.specs.Prelude.{◌≡◌};
    ghost use Rattle.ob_script.specs.declared.script_fault.ScriptFault.TheVariants.{NoMemory};
    ghost use Rattle.ob_cli.specs.declared.request_fault.RequestFault.TheVariants.{Script};

    ghost from_gives = { λ _ fault. fault ≡ Script NoMemory };

    fn from(_error: AllocError) -> RequestFault {
        RequestFault::Script(ScriptFault::NoMemory)
    }
}
