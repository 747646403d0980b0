ghost use Rattle.std.specs.Prelude.{◌≡◌, ◌<◌, ◌≤◌, ◌∷◌, [], IfSome, MatchOption, length, slice_index};
ghost use Rattle.ob_script.specs.Reading.{words_after};
ghost use Rattle.ob_traces.specs.Traces.{first_text, labelled, word_of_first};

use ob_script::{Range, first_word};

/// The first word of a line that tells of a command, of a turn or of a gathering, unless it is a label.
#[derive(Clone, Copy)]
pub enum FirstOfTrace {
    Id,
    Count,
    Yes,
    No,
    Done,
    Gathered,
    Added,
    Subtracted,
    Bit,
    Word,
    Total,
    Nothing,
}

/// The first words that there are.
static FIRST_WORDS: [FirstOfTrace; 12] = [
    FirstOfTrace::Id,
    FirstOfTrace::Count,
    FirstOfTrace::Yes,
    FirstOfTrace::No,
    FirstOfTrace::Done,
    FirstOfTrace::Gathered,
    FirstOfTrace::Added,
    FirstOfTrace::Subtracted,
    FirstOfTrace::Bit,
    FirstOfTrace::Word,
    FirstOfTrace::Total,
    FirstOfTrace::Nothing,
];

impl FirstOfTrace {
    /// How a trace writes the word.
    fn text(self) -> &'static [u8]
        ensures { result.now ≡ first_text self }
    {
        match self {
            FirstOfTrace::Id => b"id",
            FirstOfTrace::Count => b"n",
            FirstOfTrace::Yes => b"yes",
            FirstOfTrace::No => b"no",
            FirstOfTrace::Done => b"ok",
            FirstOfTrace::Gathered => b"g",
            FirstOfTrace::Added => b"add",
            FirstOfTrace::Subtracted => b"sub",
            FirstOfTrace::Bit => b"bit",
            FirstOfTrace::Word => b"word",
            FirstOfTrace::Total => b"total",
            FirstOfTrace::Nothing => b"none",
        }
    }

    /// The first word that a text writes, if it is one.
    pub fn named(text: &[u8]) -> Option<FirstOfTrace>
        ensures { result ≡ word_of_first text.now }
    {
        FIRST_WORDS.iter().copied().find(|word| word.text() == text)
    }
}

/// The next word behind a word, and what follows it, if there is one.
pub fn next_word(after: &[u8]) -> Option<(&[u8], &[u8])>
    requires space { 0 < length after.now → slice_index after.now 0 ≡ 32 }
    ensures words { MatchOption result (words_after after.now ≡ [])
        (λ next. words_after after.now ≡ next.0.now ∷ words_after next.1.now) }
    ensures space { IfSome result (λ next. 0 < length next.1.now → slice_index next.1.now 0 ≡ 32) }
    ensures fewer { IfSome result (λ next. length next.1.now < length after.now) }
{
    if after.is_empty() {
        return None;
    }
    Some(first_word(&after[1..]))
}

/// The number that a word writes behind this label.
pub fn labelled(label: &[u8], range: Range, word: &[u8]) -> Option<u64>
    ensures { result ≡ labelled label.now range word.now }
{
    if !word.starts_with(label) {
        return None;
    }
    range.read(&word[label.len()..]).ok()
}
