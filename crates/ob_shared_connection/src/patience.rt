//! How long a thread lets pass that finds the lock taken.

use std::hint::spin_loop;

/// For how long a thread that finds the lock taken leaves it to others, before it tries again. Whoever has it makes more
/// calls meanwhile, and that costs less than to hand over the lock, and what it guards, for each of them.
#[derive(Clone, Copy)]
pub enum Patience {
    /// Of most calls: some microseconds.
    Short,
    /// Of the transport, which sends at once what is written meanwhile: some tens of microseconds.
    Long,
}

impl Patience {
    /// How many pauses come before this try.
    pub fn pauses(self, turn: u32) -> u32 {
        match self {
            Patience::Short => 64 << turn.min(2),
            Patience::Long => 1024,
        }
    }
}

/// Lets time pass, and does not give the processor away.
pub fn pause(count: u32) {
    for _ in 0..count {
        spin_loop();
    }
}
