ghost use Rattle.std.specs.Prelude.{◌≡◌, ◌<◌, vec_capacity, vec_len};
ghost use Rattle.ob_history.specs.History.{IsCall, IsRecording, next_record, KeepsReceipt};

use crate::answer;
use crate::receipt::Receipt;
use crate::record::Record;
use crate::recorded::Recorded;
use crate::recorded::copies::Copies;
use ob_types::{Command, Refusal};

impl Recorded {
    /// Gives the buffer one command, records the call, and returns the receipt of the record. A command that the
    /// buffer refuses is recorded too, with the refusal as its reply.
    ///
    /// `HistoryFull` comes first, exactly if the history holds as many records as it may, whatever the buffer would
    /// have returned. `NoMemory` comes only if the allocator refused, or the written block has more owners than can be
    /// counted, and never to a reserved call of a command that is no write and settles at most four promises. Then
    /// there is no record, and all is as it was.
    pub fn call(&mut self, caller: u32, command: Command) -> Result<Receipt, Refusal>
        ensures { IsCall self.old caller command result self.new }
    {
        let place = self.records.len();
        if place == self.limit as usize {
            return Err(Refusal::HistoryFull);
        }
        let copies = Copies::new(*self.records.allocator(), &self.buffer, &command)?;
        self.record(caller, command)?;
        Ok(copies.receipt(&self.records[place]))
    }

    /// Makes a call, as `call` does, and puts its receipt behind others, in a place that is there for it: a receipt is large,
    /// and so it is made where it stays. Our own.
    ///
    /// `HistoryFull` and `NoMemory` come as in `call`, and leave all as it was, the receipts too.
    // in one piece with its callers, so that the command is not passed through memory
    #[inline(always)]
    pub fn keep(
        &mut self,
        caller: u32,
        command: Command,
        receipts: &mut Vec<Receipt>,
    ) -> Result<(), Refusal>
        requires { vec_len receipts.old < vec_capacity receipts.old }
        ensures is_recording { IsRecording self.old caller command result self.new }
        ensures kept { KeepsReceipt (next_record self.old caller command) receipts.old.items receipts.new.items result }
        ensures places { vec_capacity receipts.new ≡ vec_capacity receipts.old }
    {
        let place = self.records.len();
        if place == self.limit as usize || self.buffer.settles(&command) != 0 {
            return self.keep_call(caller, command, receipts);
        }
        let told = command.copy()?;
        self.record(caller, command)?;
        let alloc = *self.records.allocator();
        receipts.push_reserved(self.records[place].receipt_with(alloc, told));
        Ok(())
    }

    /// The same, of any command: the receipt is made first, and then moved behind the others.
    fn keep_call(
        &mut self,
        caller: u32,
        command: Command,
        receipts: &mut Vec<Receipt>,
    ) -> Result<(), Refusal>
        requires { vec_len receipts.old < vec_capacity receipts.old }
        ensures is_recording { IsRecording self.old caller command result self.new }
        ensures kept { KeepsReceipt (next_record self.old caller command) receipts.old.items receipts.new.items result }
        ensures places { vec_capacity receipts.new ≡ vec_capacity receipts.old }
    {
        let receipt = self.call(caller, command)?;
        receipts.push_reserved(receipt);
        Ok(())
    }

    /// Gives the buffer one command and records the call, as `call` does, for who wants no receipt: the record is the
    /// last of `records`, and nothing of it is copied. Our own.
    ///
    /// `HistoryFull` and `NoMemory` come as in `call`, and leave all as it was.
    // in one piece with its callers, so that the command is not passed through memory
    #[inline(always)]
    pub fn record(&mut self, caller: u32, command: Command) -> Result<(), Refusal>
        ensures { IsRecording self.old caller command result self.new }
    {
        if self.records.len() == self.limit as usize {
            return Err(Refusal::HistoryFull);
        }
        self.records.reserve(1)?;
        let asked = command.copy()?;
        let place = self.records.len() as u32;
        // the answer goes into the record as it comes: through another result it would be moved once more
        let reply = self.buffer.apply(command);
        if answer::wants_memory(&reply) {
            return Err(Refusal::NoMemory);
        }
        self.records.push_reserved(Record {
            place,
            caller,
            command: asked,
            reply,
        });
        self.reserved = self.reserved.saturating_sub(1);
        Ok(())
    }
}
