use ob_types::Change;

/// What a line of a trace shows.
#[derive(Clone, Copy)]
pub struct TraceLine {
    pub told: Told,
    /// The pending bytes; 0 if it shows none.
    pub total: u32,
    /// Whether the word is 0, and also if it shows none.
    pub is_writable: bool,
    /// The change of writability, if there is one.
    pub change: Option<Change>,
    pub settled: Settled,
}

impl TraceLine {
    ghost use Rattle.std.specs.Prelude.{◌≡◌};
    ghost use Rattle.ob_traces.specs.Traces.{shows_bytes};

    /// Whether it shows pending bytes and a word.
    pub(crate) fn shows_bytes(&self) -> bool
        ensures { result ≡ shows_bytes self.now }
    {
        !matches!(self.told, Told::Bare)
    }
}

/// What a line of a trace tells of.
#[derive(Clone, Copy)]
pub enum Told {
    /// A command or a turn that was accepted.
    Accepted,
    /// A command or a turn that was refused, with the number of the refusal.
    Refused(u8),
    /// A look or a gathering.
    Look,
    /// A lane, or the end of the turns: it shows no bytes and no word.
    Bare,
}

/// How many promises a line settles, by outcome.
#[derive(Clone, Copy)]
pub struct Settled {
    pub success: u32,
    pub failed: u32,
    pub cancelled: u32,
}
