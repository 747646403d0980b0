//! What the sink of a story does.

use crate::words::{NoAnswer, Words};
use ob_transport::{ScriptSink, SinkStep};
use std::alloc::Global;

/// What a sink does in each of its first calls, and how much it takes at most in a later one.
#[derive(Drop)]
pub struct SinkWords {
    steps: Vec<SinkStep>,
    after: u64,
}

impl SinkWords {
    /// Of a sink that takes so much at most in each call, as long as no word tells otherwise.
    pub fn new(alloc: Global, after: u64) -> SinkWords {
        SinkWords {
            steps: Vec::new(alloc),
            after,
        }
    }

    /// Takes in what a word and the number behind it tell: no, if this word tells nothing of a sink.
    pub fn take(&mut self, word: &str, words: &mut Words) -> Result<bool, NoAnswer> {
        let step = match word {
            "take" => words.number().map(SinkStep::Take),
            "fail" => words.small().map(SinkStep::Fail),
            "then" => {
                self.after = words.number()?;
                return Ok(true);
            }
            _ => return Ok(false),
        };
        self.steps.push(step?)?;
        Ok(true)
    }

    /// The sink that takes these steps, and after them what was told last.
    pub fn into_sink(self) -> ScriptSink {
        ScriptSink::new(self.steps, self.after)
    }
}
