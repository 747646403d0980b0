ghost use Rattle.std.specs.Prelude.{◌≡◌, ◌≤◌, length, slice_index};
ghost use Rattle.ob_script.specs.Reading.{AreWithin, Table};

use crate::reading::range::Range;

/// The first word of a script line: it says which numbers follow, and what the line asks.
pub trait FirstWord: Copy + 'static {
    /// What a line of such a script asks.
    type Line;

    /// The table of the lines.
    ghost table: { Table Self Self.Line };

    /// The words that there are.
    fn all() -> &'static [Self]
        ensures { result.now ≡ table.words };

    /// How a script writes the word.
    fn text(self) -> &'static [u8]
        ensures { result.now ≡ (table.kind_of self).text };

    /// The ranges of the numbers that follow the word.
    fn ranges(self) -> &'static [Range]
        ensures value { result.now ≡ (table.kind_of self).ranges }
        ensures few { length result.now ≤ 3 };

    /// What a line with this first word asks, by its numbers, or nothing if they do not fit one another.
    fn line(self, numbers: [u64; 3]) -> Option<Self::Line>
        requires { AreWithin (table.kind_of self).ranges numbers }
        ensures { result ≡ (table.kind_of self).asked (λ place. slice_index numbers place) };
}
