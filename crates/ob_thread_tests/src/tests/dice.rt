//! Random commands, the same at each run.

ghost use Rattle.std.specs.Prelude.{◌<◌};

use ob_players::commands::block;
use ob_types::{Cause, Command, Message, PromiseId, WaterMark};
use std::alloc::{AllocError, Global};

/// Numbers that look like chance, from a seed on.
#[derive(Drop)]
pub struct Dice(u32);

impl Dice {
    pub fn new(seed: u32) -> Dice {
        Dice(seed)
    }

    /// A number below `sides`.
    fn roll(&mut self, sides: u32) -> u32
        requires { 0 < sides }
        ensures { result < sides }
    {
        self.0 = self.0.wrapping_mul(1664525).wrapping_add(1013904223);
        (self.0 / 256) % sides
    }

    /// One of the eleven commands, a write more often than the others, and a close seldom.
    pub fn command(&mut self, alloc: Global) -> Result<Command, AllocError> {
        let cause = Cause(self.roll(9));
        let flag = self.roll(2) == 0;
        Ok(match self.roll(15) {
            0 => Command::Flush,
            1 => Command::Remove,
            2 => Command::RemoveWith(cause),
            3 => Command::RemoveBytes(u64::from(self.roll(100))),
            4 => Command::Progress(u64::from(self.roll(20))),
            5 => Command::Cancel(PromiseId(self.roll(500))),
            6 => Command::FailFlushed(cause, flag),
            7 => Command::UserBit(self.roll(34), flag),
            8 => {
                if self.roll(100) == 0 {
                    Command::Close(cause)
                } else {
                    Command::Flush
                }
            }
            9 => Command::Write(Message::Region(u64::from(self.roll(1000)))),
            10 => Command::Write(Message::Other(7)),
            11 => self.marks(),
            _ => Command::Write(block(alloc, 0, u64::from(self.roll(80)))?),
        })
    }

    /// Marks that are set, equal ones now and then; a flush if the low one would be above the high one.
    fn marks(&mut self) -> Command {
        match WaterMark::new(self.roll(20) * 100, self.roll(20) * 100) {
            Ok(marks) => Command::SetMarks(marks),
            Err(_) => Command::Flush,
        }
    }
}
