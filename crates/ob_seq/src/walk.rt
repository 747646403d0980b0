//! Entries one after another, by reference.

ghost use Rattle.std.specs.Prelude.{◌≡◌, ◌≤◌, ◌<◌, ◌+◌, length, take, drop};
ghost use Rattle.std.specs.Iterator.{YieldsFirstRef, item_count};

use crate::entries::Entries;
use crate::entry::Entry;
use std::iter::FusedIterator;
use std::marker::Model;

/// Some of the entries from the front on, oldest first.
#[derive(Drop)]
pub(crate) struct Walk<'a> {
    /// Those that come next, and lie together.
    run: &'a [Entry],
    /// Where those behind them begin, and how many they are.
    place: usize,
    left: usize,
    entries: &'a Entries,
}

impl<'a> Model for Walk<'a> {
    ghost use Rattle.std.specs.Prelude.{List};
    ghost use Rattle.ob_seq.specs.declared.entry.Entry.{Entry};

    ghost Value = { List Entry };

    ghost use Rattle.ob_seq.specs.Walked.{walked, IsWithin};

    ghost view = { walked };

    ghost invariant = { IsWithin };
}

impl<'a> Walk<'a> {
    /// The first *n*.
    pub fn over(entries: &'a Entries, n: usize) -> Walk<'a>
        requires { n ≤ length entries.now.items }
        ensures { result ≡ take n entries.now.items }
    {
        Walk {
            run: &[],
            place: 0,
            left: n,
            entries,
        }
    }
}

impl<'a> Iterator for Walk<'a> {
    type Item = &'a Entry;

    ghost next_gives = { YieldsFirstRef (λ rest. rest) };

    ghost remaining = { item_count (λ rest. rest) };

    #[inline(always)]
    fn next(&mut self) -> Option<&'a Entry> {
        if self.run.is_empty() {
            if self.left == 0 {
                return None;
            }
            let run = run_of(self.entries, self.place, self.left);
            self.place += run.len();
            self.left -= run.len();
            self.run = run;
        }
        let (entry, rest) = self.run.split_first()?;
        self.run = rest;
        Some(entry)
    }
}

impl<'a> FusedIterator for Walk<'a> {}

/// Some that lie together from this place on, and at most *n*.
// It is rare: apart, going over entries saves no registers for it.
#[cold]
#[inline(never)]
fn run_of(entries: &Entries, place: usize, n: usize) -> &[Entry]
    requires there { place < length entries.now.items }
    requires some { 0 < n }
    ensures run { result.now ≡ take (length result.now) (drop place entries.now.items) }
    ensures some { 0 < length result.now }
    ensures few { length result.now ≤ n }
{
    let run = entries.run_at(place);
    &run[..run.len().min(n)]
}
