use crate::cli::options::Options;
use ob_types::WaterMark;

/// What the words of the command line ask for.
#[derive(Clone, Copy)]
pub enum Request {
    /// A run of a script on a buffer.
    Run(Options),
    /// A core script, with these marks.
    Core(WaterMark),
    /// A drive of the writers of a script.
    Drive(Options),
    /// The summary of a trace.
    Summary,
    /// The picture of a trace, against these marks.
    Draw(WaterMark),
}

/// What kind of request one is, as far as the words of a fault go by it.
#[derive(Clone, Copy, Debug)]
pub enum Kind {
    Run,
    Core,
    /// A drive, whose history keeps this number of commands.
    Drive { limit: u32 },
    /// The summary or the picture of a trace.
    Trace,
}

impl Request {
    /// Its kind.
    pub fn kind(&self) -> Kind {
        match self {
            Request::Run(_) => Kind::Run,
            Request::Core(_) => Kind::Core,
            Request::Drive(options) => Kind::Drive {
                limit: options.limit,
            },
            Request::Summary | Request::Draw(_) => Kind::Trace,
        }
    }
}
