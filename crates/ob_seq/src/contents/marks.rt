//! The marks in force, and how far the total is from them.

ghost use Rattle.std.specs.Prelude.{◌≡◌, []};
ghost use Rattle.ob_seq.specs.Looks.{before_unwritable, before_writable};
ghost use Rattle.ob_seq.specs.Steps.Commands.{marks_step};
ghost use Rattle.ob_seq.specs.Steps.Step.{pending_total};
ghost use Rattle.ob_seq.specs.Steps.Within.{StepsWithin, done_reply};
ghost use Rattle.ob_seq.specs.Unsent.{whole};

use crate::contents::Contents;
use ob_types::{Refusal, WaterMark};

impl Contents {
    /// Puts these marks in force.
    #[inline(always)]
    pub fn set_marks(&mut self, marks: WaterMark) -> Result<(), Refusal>
        ensures { StepsWithin (marks_step marks) done_reply self.old result self.new }
    {
        if self.closed {
            return Err(Refusal::Closed);
        }
        self.marks = marks;
        Ok(())
    }

    /// How many bytes more make it unwritable, else 0.
    pub fn before_unwritable(&self) -> u32
        ensures { result ≡ before_unwritable self.now.marks self.now.word (pending_total (whole [] self.now)) }
    {
        rise_left(self.marks, self.word, self.total())
    }

    /// How many bytes fewer bring it below the low mark, if it is unwritable and not below, else 0.
    pub fn before_writable(&self) -> u32
        ensures { result ≡ before_writable self.now.marks self.now.word (pending_total (whole [] self.now)) }
    {
        fall_left(self.marks, self.word, self.total())
    }
}

fn rise_left(marks: WaterMark, word: u32, total: u32) -> u32
    ensures { result ≡ before_unwritable marks word total }
{
    if word == 0 && total <= marks.high() {
        marks.high() - total + 1
    } else {
        0
    }
}

fn fall_left(marks: WaterMark, word: u32, total: u32) -> u32
    ensures { result ≡ before_writable marks word total }
{
    if word != 0 && total >= marks.low() {
        (total - marks.low()).saturating_add(1)
    } else {
        0
    }
}
