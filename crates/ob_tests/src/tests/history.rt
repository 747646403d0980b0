//! The stored history of a buffer.

use ob_history::{As, Booked, Receipt, Recorded, Seen};
use ob_players::buffers::Options;
use ob_players::commands::wanted;
use ob_players::story::{Begins, Player, Story, play_each};
use ob_players::trace::{push_answer, push_either, push_look, push_refusal, push_settled};
use ob_players::words::{NoAnswer, Words, number_in};
use ob_seq::{Buffer, Look};
use ob_stories::HISTORY;
use ob_types::{Command, PromiseId, Refusal};
use std::alloc::{AllocError, Global};
use std::test::Fail;

/// A recorded buffer, and what its calls answered.
#[derive(Drop)]
struct History {
    alloc: Global,
    kept: As,
    /// The receipts of its calls, in order.
    receipts: Vec<Receipt>,
    /// What was seen, in order.
    seen: Vec<Seen>,
}

impl Begins for History {
    fn begin(alloc: Global, story: Story) -> Result<History, NoAnswer> {
        let recorded = Options::of(story.command)?.recorded(alloc)?;
        Ok(History {
            alloc,
            kept: As {
                recorded,
                caller: 0,
            },
            receipts: Vec::new(alloc),
            seen: Vec::new(alloc),
        })
    }
}

impl Player for History {
    fn answer(&mut self, asked: &str, text: &mut String) -> Result<(), NoAnswer> {
        let mut words = Words::of(asked);
        let word = words.word();
        if let Ok(caller) = number_in(word) {
            return self.call(caller, &mut words, text);
        }
        match word {
            "reserve" => self.reserve(words.small()?, text),
            "?" => self.see(text),
            "check" | "seen" => push_is_of(text, self.is_of(word, words.word())),
            "own" | "told" | "looks" => push_first(text, self.first_foreign(word, words)),
            _ => self.tell(word, &mut words, text),
        }
    }
}

fn push_is_of(text: &mut String, is_of: Result<bool, NoAnswer>) -> Result<(), NoAnswer> {
    Ok(push_either(text, is_of?, "yes", "no")?)
}

fn push_first(text: &mut String, index: Result<Option<usize>, NoAnswer>) -> Result<(), NoAnswer> {
    Ok(match index? {
        None => text.push_str("none"),
        Some(index) => write!(text, "{index}"),
    }?)
}

impl History {
    /// Makes a call, tells what it answered, and keeps its receipt.
    fn call(&mut self, caller: u32, words: &mut Words, text: &mut String) -> Result<(), NoAnswer> {
        // a call that was made is not asked again for want of a place for its receipt
        self.receipts.reserve(1)?;
        let command = wanted(self.alloc, words)?;
        self.kept.caller = caller;
        let answer = self.kept.call(command);
        keep(&mut self.receipts, answer, self.kept.buffer().look(), text)
    }

    fn reserve(&mut self, count: u32, text: &mut String) -> Result<(), NoAnswer> {
        match self.kept.reserve(count) {
            Ok(()) => Ok(text.push_str("ok")?),
            Err(refusal) => push_refusal(text, refusal),
        }
    }

    /// Looks, and keeps what is seen.
    fn see(&mut self, text: &mut String) -> Result<(), NoAnswer> {
        let seen = self.kept.recorded.look();
        write!(text, "place {}: ", seen.place)?;
        push_look(text, seen.look)?;
        Ok(self.seen.push(seen)?)
    }

    /// Tells of settlements and of callers.
    fn tell(&self, word: &str, words: &mut Words, text: &mut String) -> Result<(), NoAnswer> {
        match word {
            "settles" => push_settles(text, self.kept.buffer(), wanted(self.alloc, words)?),
            "settled" => push_all_settled(text, &self.receipts),
            "settling" => self.settling(PromiseId(words.small()?), text),
            "callers" => push_callers(text, &self.kept.recorded),
            _ => Err(NoAnswer::Unread),
        }
    }

    /// Tells which record settles a promise, whose receipt has to be of the history.
    fn settling(&self, id: PromiseId, text: &mut String) -> Result<(), NoAnswer> {
        let recorded = &self.kept.recorded;
        let Some(one) = recorded.settling(id) else {
            return Ok(text.push_str("none")?);
        };
        write!(text, "place {} of caller {}", one.place, one.caller)?;
        if !is_kept(recorded, one.receipt()?) {
            text.push_str(", whose receipt is foreign")?;
        }
        Ok(())
    }

    /// Whether a receipt or a look is of the history.
    fn is_of(&self, word: &str, what: &str) -> Result<bool, NoAnswer> {
        let recorded = &self.kept.recorded;
        if word == "check" {
            return Ok(is_kept(recorded, self.receipt(what)?));
        }
        Ok(recorded.check_seen(&self.look(what)?)?)
    }

    /// The index of the first of what a line hands in that is not of the history.
    fn first_foreign(&self, word: &str, words: Words) -> Result<Option<usize>, NoAnswer> {
        let recorded = &self.kept.recorded;
        let mut words = words;
        Ok(match word {
            "own" => {
                let caller = words.small()?;
                recorded.first_foreign_receipt(caller, &self.handed_in(words)?)
            }
            "told" => recorded.first_foreign_told(&self.handed_in(words)?),
            _ => recorded.first_foreign_seen(&self.looks(words)?)?,
        })
    }

    fn handed_in(&self, words: Words) -> Result<Vec<Receipt>, NoAnswer> {
        let mut receipts = Vec::new(self.alloc);
        for word in words.rest() {
            receipts.push(self.receipt(word)?)?;
        }
        Ok(receipts)
    }

    fn looks(&self, words: Words) -> Result<Vec<Seen>, NoAnswer> {
        let mut looks = Vec::new(self.alloc);
        for word in words.rest() {
            looks.push(self.look(word)?)?;
        }
        Ok(looks)
    }

    /// The receipt of a call, or what a word makes of it.
    fn receipt(&self, word: &str) -> Result<Receipt, NoAnswer> {
        let (call, place) = at_place(word)?;
        let number = number_in(call.trim_end_matches('f'))?;
        let receipt = self.receipts.get(number as usize).ok_or(NoAnswer::Unread)?;
        let mut receipt = receipt.copy()?;
        receipt.place = place.unwrap_or(receipt.place);
        if call.ends_with('f') {
            drop(std::mem::replace(&mut receipt.command, Command::Flush));
        }
        Ok(receipt)
    }

    /// What was seen, or what a word makes of it.
    fn look(&self, word: &str) -> Result<Seen, NoAnswer> {
        let (number, place) = at_place(word)?;
        let number = number_in(number)? as usize;
        let mut seen = *self.seen.get(number).ok_or(NoAnswer::Unread)?;
        seen.place = place.unwrap_or(seen.place);
        Ok(seen)
    }
}

/// Keeps a receipt, and adds what the call answered.
fn keep(
    kept: &mut Vec<Receipt>,
    answer: Result<Receipt, Refusal>,
    look: Look,
    text: &mut String,
) -> Result<(), NoAnswer> {
    match answer {
        Ok(receipt) => {
            let told = push_receipt(text, &receipt, look);
            kept.push(receipt)?;
            Ok(told?)
        }
        Err(refusal) => push_refusal(text, refusal),
    }
}

fn push_receipt(text: &mut String, receipt: &Receipt, look: Look) -> Result<(), AllocError> {
    write!(text, "place {}: ", receipt.place)?;
    push_answer(text, &receipt.reply, look)
}

fn push_settles(text: &mut String, buffer: &Buffer, command: Command) -> Result<(), NoAnswer> {
    let settles = buffer.settles(&command);
    drop(command);
    Ok(write!(text, "{settles}")?)
}

fn push_all_settled(text: &mut String, receipts: &[Receipt]) -> Result<(), NoAnswer> {
    for receipt in receipts {
        push_settled(text, receipt)?;
    }
    Ok(())
}

fn push_callers(text: &mut String, recorded: &Recorded) -> Result<(), NoAnswer> {
    for one in recorded.records() {
        write!(text, " {}", one.caller)?;
    }
    Ok(())
}

/// A word without the place that it names, and that place.
fn at_place(word: &str) -> Result<(&str, Option<u32>), NoAnswer> {
    match word.split_once('@') {
        Some((word, place)) => Ok((word, Some(number_in(place)?))),
        None => Ok((word, None)),
    }
}

/// Whether a receipt is of the history. It is dropped here, so that the prover follows that drop in one function.
fn is_kept(recorded: &Recorded, receipt: Receipt) -> bool {
    let is_kept = recorded.check(&receipt);
    drop(receipt);
    is_kept
}

#[test]
fn a_history_is_kept(rt: HostRuntime) -> Result<(), Fail> {
    play_each::<History>(rt.alloc(), HISTORY)
}
