//! Where the newest entry lies.

use crate::entries::Entries;
use crate::entry::Entry;
use std::fmt::{Debug, Error, Formatter, Write};
use std::ptr::{from_ref, null};

/// Where the newest entry lay when it was noted, or null. Nothing here reads it: callers in C and Rust have the processor
/// bring what lies behind it, where the next entries come to lie.
#[repr(C)]
#[derive(Clone, Copy, Drop)]
pub struct Newest {
    at: *const Entry,
}

// It is a number to whoever has it.
unsafe impl Send for Newest {}

impl Newest {
    /// That of these.
    #[inline(always)]
    pub(crate) fn of(entries: &Entries) -> Newest {
        let at = match entries.newest() {
            Some(entry) => from_ref(entry),
            None => null(),
        };
        Newest { at }
    }
}

impl Debug for Newest {
    fn fmt<W: Write>(&self, f: &mut Formatter<W>) -> Result<(), Error> {
        f.write_str("Newest")
    }
}
