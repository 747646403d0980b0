ghost use Rattle.std.specs.Prelude.{◌≡◌, ℕ, None, ◌+◌, ◌≤◌, ◌↔◌, [], length, map, Some, IfSome, IsNone, IfOk};
ghost use Rattle.std.specs.Prelude.{IsErrOf, IsOk, IsOkUnless, OnOk, OnErr, ◌<◌, vec_capacity, vec_len};
ghost use Rattle.std.specs.List.{All, Contains};
ghost use Rattle.ob_types.specs.declared.promise.Outcome.{Outcome};
ghost use Rattle.ob_types.specs.declared.promise.PromiseState.TheVariants.{Settled};
ghost use Rattle.ob_seq.specs.Looks.{promise_after};
ghost use Rattle.ob_history.specs.History.{next_record, KeepsReceipt, accepted_commands, IsBeginning, IsCall};
ghost use Rattle.ob_history.specs.History.{IsRecording, IsReservation, new_history, IsBufferOf, AreGivenSince};
ghost use Rattle.ob_history.specs.History.{receipt_of, IsLookAt, settlements_in};
ghost use Rattle.ob_shared.specs.Calls.{HandsInAll, StandsIn, first_short, IsForeign, after_meeting, HasNoLooks};
ghost use Rattle.ob_shared.specs.Calls.{LacksShare, made_by, one_more, share_after, IsAsOpened, IsCheckIn};
ghost use Rattle.ob_shared.specs.Calls.{IsCopiedFreely, IsToldFreely, IsUnknown, IsUnsettled, TellsOf};
ghost use Rattle.ob_shared.specs.declared.finish_fault.FinishFault.TheVariants.{ForeignReceipt, ReceiptsMissing};

use crate::callers::Callers;
use crate::done::Done;
use crate::finish::{first_foreign, first_short, lacks_share};
use crate::finish_fault::FinishFault;
use crate::named::Named;
use crate::reader::Reader;
use crate::rung::{Owed, Rung};
use crate::share::Share;
use crate::words::{Publisher, Words};
use ob_history::{Receipt, Record, Recorded, Seen, a_history_tells_each_settled_promise};
use ob_seq::Buffer;
use ob_types::{Command, PromiseId, PromiseState, Refusal};
use std::marker::Model;
use std::sync::ledger;
use std::sync::ledger::Book;

/// What lies under the lock. Contracts see the history.
#[derive(Drop)]
pub struct Locked<L: Named> {
    recorded: Recorded,
    /// How many records all shares made.
    book: Book<L>,
    /// What is left of the ledger when each caller has its share.
    rest: ledger::Share<L>,
    /// The seat that publishes the glance after the last record.
    publisher: Publisher<L>,
    /// For how many records those who wait were woken, or are when the lock goes.
    rung: Rung,
}

impl<L: Named> Model for Locked<L> {
    ghost use Rattle.std.specs.Prelude.{◌≡◌, length};
    ghost use Rattle.ob_history.specs.History.{History};
    ghost use Rattle.ob_shared.specs.Calls.{settling_count};

    ghost Value = { History };

    ghost view = { λ locked. locked.recorded };

    ghost invariant = { λ locked. (length locked.recorded.records ≡ locked.book.total)
        × (locked.recorded.settings ≡ L.opened.settings)
        × (locked.recorded.limit ≡ L.opened.limit)
        × (locked.rest.parts ≡ 0) × (locked.rest.amount ≡ 0)
        × (locked.publisher ≡ locked.recorded.records)
        × (locked.rung.count ≡ settling_count locked.recorded.records) };
}

impl<L: Named> Locked<L> {
    /// A history without a record.
    pub fn new(
        recorded: Recorded,
        book: Book<L>,
        rest: ledger::Share<L>,
        publisher: Publisher<L>,
    ) -> Locked<L>
        requires opened { recorded ≡ new_history L.opened.settings L.opened.limit }
        requires book { book.total ≡ 0 }
        requires rest { (rest.parts ≡ 0) × (rest.amount ≡ 0) }
        requires published { publisher ≡ [] }
        ensures { result ≡ new_history L.opened.settings L.opened.limit }
    {
        Locked {
            recorded,
            book,
            rest,
            publisher,
            rung: Rung::never(),
        }
    }

    /// The history is one of what was opened. It does nothing else than to say so.
    pub fn is_as_opened(&self)
        ensures { IsAsOpened L.opened self.now }
    {
        let _records = self.recorded.records();
    }

    /// One call in the name of the caller of a share. Its record is made, and then published, before the lock goes; if it
    /// settles a promise, that those who wait are woken is owed.
    pub fn call(
        &mut self,
        words: &Words<L>,
        share: &mut Share<L>,
        owed: &mut Owed,
        command: Command,
    ) -> Result<Receipt, Refusal>
        ensures is_call { IsCall self.old share.old.maker.caller command result self.new }
        ensures made { OnOk result (share.new.maker ≡ one_more share.old.maker) }
        ensures none_made { OnErr result (share.new.maker ≡ share.old.maker) }
        ensures sight { share.new.sight ≡ share.old.sight }
    {
        // for the proof alone: the records are legal, and at most as many as the limit
        let _records = self.recorded.records();
        let receipt = self.recorded.call(share.caller(), command)?;
        self.publisher.publish(words, &self.recorded);
        share.count(&mut self.book);
        self.rung.hear(&receipt.reply, owed);
        Ok(receipt)
    }

    /// The same for who keeps the receipt behind others, in a place that is there for it.
    #[inline(always)]
    pub fn keep(
        &mut self,
        words: &Words<L>,
        share: &mut Share<L>,
        owed: &mut Owed,
        command: Command,
        receipts: &mut Vec<Receipt>,
    ) -> Result<(), Refusal>
        requires { vec_len receipts.old < vec_capacity receipts.old }
        ensures is_recording { IsRecording self.old share.old.maker.caller command result self.new }
        ensures kept { KeepsReceipt (next_record self.old share.old.maker.caller command)
            receipts.old.items receipts.new.items result }
        ensures places { vec_capacity receipts.new ≡ vec_capacity receipts.old }
        ensures made { OnOk result (share.new.maker ≡ one_more share.old.maker) }
        ensures none_made { OnErr result (share.new.maker ≡ share.old.maker) }
        ensures sight { share.new.sight ≡ share.old.sight }
    {
        // for the proof alone: the records are legal, and at most as many as the limit
        let _records = self.recorded.records();
        let Locked {
            recorded,
            book,
            publisher,
            rung,
            ..
        } = self;
        recorded.keep(share.caller(), command, receipts)?;
        publisher.publish(words, recorded);
        share.count(book);
        if let Some(made) = recorded.records().last() {
            rung.hear(&made.reply, owed);
        }
        Ok(())
    }

    /// The same for who wants no receipt: nothing of the record is copied.
    pub fn record(
        &mut self,
        words: &Words<L>,
        share: &mut Share<L>,
        owed: &mut Owed,
        command: Command,
    ) -> Result<(), Refusal>
        ensures is_recording { IsRecording self.old share.old.maker.caller command result self.new }
        ensures made { OnOk result (share.new.maker ≡ one_more share.old.maker) }
        ensures none_made { OnErr result (share.new.maker ≡ share.old.maker) }
        ensures sight { share.new.sight ≡ share.old.sight }
    {
        // for the proof alone: the records are legal, and at most as many as the limit
        let _records = self.recorded.records();
        let Locked {
            recorded,
            book,
            publisher,
            rung,
            ..
        } = self;
        recorded.record(share.caller(), command)?;
        publisher.publish(words, recorded);
        share.count(book);
        if let Some(last) = recorded.records().last() {
            rung.hear(&last.reply, owed);
        }
        Ok(())
    }

    /// The share meets the history: it has seen all of it, and had seen a beginning of it.
    pub fn meet(&mut self, words: &Words<L>, share: &mut Share<L>)
        ensures met { share.new ≡ share_after share.old.maker self.old.records }
        ensures part { IsBeginning share.old.sight.seen self.old.records }
        ensures same { self.new ≡ self.old }
    {
        self.publisher.meet(words, &mut share.reader);
    }

    /// The share of a Done meets the history.
    fn meet_done(&mut self, words: &Words<L>, done: &mut Done<L>)
        ensures met { done.new ≡ after_meeting self.old.records done.old }
        ensures part { IsBeginning done.old.sight.seen self.old.records }
        ensures same { self.new ≡ self.old }
    {
        self.meet(words, &mut done.share);
    }

    /// The share of each Done meets the history.
    pub fn meet_all(&mut self, words: &Words<L>, dones: &mut [Done<L>])
        ensures met { dones.new ≡ map (after_meeting self.old.records) dones.old }
        ensures saw { All (λ one. IsBeginning one.sight.seen self.old.records) dones.old }
    {
        for done in dones.iter_mut() {
            self.meet_done(words, done);
        }
    }

    /// A look that a reader takes, which meets the history.
    pub fn check_in(&mut self, words: &Words<L>, reader: &mut Reader<L>) -> Seen
        ensures checked_in { IsCheckIn L.opened.settings reader.old result reader.new }
        ensures met { reader.new.seen ≡ self.old.records }
        ensures same { self.new ≡ self.old }
    {
        self.publisher.meet(words, reader);
        // for the proof alone: the records are legal
        let _records = self.recorded.records();
        self.recorded.look()
    }

    /// Reserves `count` calls.
    pub fn reserve(&mut self, count: u32) -> Result<(), Refusal>
        ensures { IsReservation self.old count result self.new }
    {
        self.recorded.reserve(count)
    }

    /// The buffer after the accepted commands of the records.
    pub fn buffer(&self) -> &Buffer
        ensures { IsBufferOf self.now result.now }
    {
        self.recorded.buffer()
    }

    /// What is pending now, and how many calls are recorded.
    pub fn look(&self) -> Seen
        ensures { IsLookAt self.now result }
    {
        self.recorded.look()
    }

    /// The receipts of the records of a caller from a place on.
    pub fn receipts_since(&self, caller: u32, place: u32) -> Result<Vec<Receipt>, Refusal>
        ensures { AreGivenSince (λ receipts. receipts.items) self.now.records caller place result }
    {
        self.recorded.receipts_since(caller, place)
    }

    /// The receipt of the record that settled a promise, or nothing while it is not settled. It asks what has become of
    /// the promise, and only then looks for the record.
    pub fn told(&self, id: PromiseId) -> Option<Result<Receipt, Refusal>>
        ensures waits { IsNone result ↔ (¬ IsUnknown self.now.records id × IsUnsettled self.now.records id) }
        ensures told { IfSome result (λ answer. IfOk answer (TellsOf self.now.records id)) }
        ensures unknown { IfSome result (λ answer.
            IsErrOf answer Refusal.UnknownPromise ↔ IsUnknown self.now.records id) }
        ensures no_memory { ¬ IsUnknown self.now.records id
            → IfSome result (λ answer. IsOkUnless answer Refusal.NoMemory) }
        ensures frugal { IsToldFreely self.now.records id
            → IfSome result (λ answer. ¬ IsErrOf answer Refusal.NoMemory) }
    {
        match self.promise(id) {
            None => Some(Err(Refusal::UnknownPromise)),
            Some(PromiseState::Waiting) => None,
            Some(PromiseState::Fixed) => None,
            Some(PromiseState::Settled(_)) => {
                let settling = self.recorded.settling(id)?;
                Some(receipt(settling))
            }
        }
    }

    /// What has become of a promise.
    fn promise(&self, id: PromiseId) -> Option<PromiseState>
        ensures state { result ≡ promise_after self.now.settings (accepted_commands self.now.records) id }
        ensures unknown { IsNone result ↔ IsUnknown self.now.records id }
        ensures settled { (outcome : Outcome) →
            result ≡ Some (Settled outcome) ↔ Contains (settlements_in self.now.records) (id, outcome) }
    {
        a_history_tells_each_settled_promise();
        self.recorded.buffer().promise(id)
    }

    /// Why the buffer is not finished with what was handed in, if there is a reason.
    pub fn fault(&self, callers: &Callers<L>, dones: &[Done<L>]) -> Option<FinishFault>
        ensures missing { result ≡ Some FinishFault.SharesMissing ↔ LacksShare callers.now.count dones.now }
        ensures short { ¬ LacksShare callers.now.count dones.now → (caller : ℕ) →
            result ≡ Some (ReceiptsMissing caller) ↔ first_short dones.now ≡ Some caller }
        ensures foreign { (caller place : ℕ) → result ≡ Some (ForeignReceipt caller place)
            → IsForeign self.now.settings self.now.records dones.now caller place }
        ensures frugal { HasNoLooks dones.now → ¬ (result ≡ Some FinishFault.NoMemory) }
        ensures as_many { IsNone result → first_short dones.now ≡ None }
        ensures stands { IsNone result → All (StandsIn self.now.settings self.now.records) dones.now }
    {
        if lacks_share(callers.count, dones) {
            return Some(FinishFault::SharesMissing);
        }
        if let Some(caller) = first_short(dones) {
            return Some(FinishFault::ReceiptsMissing { caller });
        }
        match first_foreign(&self.recorded, dones) {
            Ok(None) => None,
            Ok(Some((caller, place))) => Some(FinishFault::ForeignReceipt { caller, place }),
            Err(_) => Some(FinishFault::NoMemory),
        }
    }

    /// The recorded buffer, for the callers who handed in, each with its share and the receipts of all its calls.
    pub fn into_recorded(
        self,
        words: &Words<L>,
        callers: &Callers<L>,
        dones: Vec<Done<L>>,
    ) -> Recorded
        requires all { ¬ LacksShare callers.now.count dones.items }
        requires as_many { first_short dones.items ≡ None }
        requires stands { All (StandsIn self.settings self.records) dones.items }
        ensures recorded { result ≡ self }
        ensures counted { length result.records ≡ made_by dones.items }
        ensures own { All (HandsInAll result.records) dones.items }
        ensures saw { All (λ one. IsBeginning one.sight.seen result.records) dones.items }
    {
        let Locked {
            recorded,
            mut book,
            rest,
            mut publisher,
            rung: _,
        } = self;
        let mut all = merged(words, &mut publisher, rest, dones);
        book.audit(&mut all);
        recorded
    }
}

/// All parts of the ledger that callers handed in, with those that a share has. Their readers are taken in: each had seen
/// a beginning of what was published.
fn merged<L: Named>(
    words: &Words<L>,
    publisher: &mut Publisher<L>,
    rest: ledger::Share<L>,
    dones: Vec<Done<L>>,
) -> ledger::Share<L>
    requires { rest.parts ≤ L.parts }
    ensures parts { result.parts ≡ rest.parts + length dones.items }
    ensures amount { result.amount ≡ rest.amount + made_by dones.items }
    ensures within { result.parts ≤ L.parts }
    ensures saw { All (λ one. IsBeginning one.sight.seen publisher.old) dones.items }
{
    let mut all = rest;
    for done in dones {
        let (part, reader) = done.share.into_parts();
        all.merge(part);
        publisher.take(words, reader);
    }
    all
}

/// The receipt of a record. It fails only if it is out of memory.
fn receipt(one: &Record) -> Result<Receipt, Refusal>
    ensures same { IfOk result (λ receipt. receipt ≡ receipt_of one.now) }
    ensures no_memory { IsOkUnless result Refusal.NoMemory }
    ensures succeeds { IsCopiedFreely one.now → IsOk result }
{
    Ok(one.receipt()?)
}
