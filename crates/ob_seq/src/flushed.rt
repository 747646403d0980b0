ghost use Rattle.std.specs.Prelude.{◌≡◌};
ghost use Rattle.std.specs.Iterator.{YieldsFirstRef, item_count};
ghost use Rattle.ob_seq.specs.Looks.{messages_to_send};
ghost use Rattle.ob_seq.specs.Unsent.{pending_entries};

use crate::walk::Walk;
use ob_types::Message;
use std::iter::FusedIterator;
use std::marker::Model;

/// The flushed messages that were not voided, oldest first, each as what is left of it (Netty's
/// `forEachFlushedMessage`). It ends, and does not allocate.
#[derive(Drop)]
pub struct Flushed<'a> {
    /// What stands in line behind the messages that were handed out.
    entries: Walk<'a>,
}

impl<'a> Model for Flushed<'a> {
    ghost use Rattle.std.specs.Prelude.{List};
    ghost use Rattle.ob_types.specs.declared.message.Message.{Message};

    ghost Value = { List Message };

    ghost use Rattle.ob_seq.specs.Looks.{messages_to_send};
    ghost use Rattle.ob_seq.specs.Unsent.{pending_entries};

    ghost view = { λ flushed. messages_to_send (pending_entries flushed.entries) };
}

impl<'a> Flushed<'a> {
    /// The messages of these entries.
    pub(crate) fn new(entries: Walk<'a>) -> Flushed<'a>
        ensures { result ≡ messages_to_send (pending_entries entries.entry) }
    {
        Flushed { entries }
    }
}

impl<'a> Iterator for Flushed<'a> {
    type Item = &'a Message;

    ghost next_gives = { YieldsFirstRef (λ rest. rest) };

    ghost remaining = { item_count (λ rest. rest) };

    fn next(&mut self) -> Option<&'a Message> {
        while let Some(entry) = self.entries.next() {
            if !entry.taken_back {
                return Some(&entry.message);
            }
        }
        None
    }
}

impl<'a> FusedIterator for Flushed<'a> {}
