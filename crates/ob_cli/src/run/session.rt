ghost use Rattle.std.specs.Prelude.{◌≡◌, true, not, ◌+◌, ◌++◌, ◌%◌, [], ◌∷◌, IsOk, IfOk, OnOk, string_bytes};
ghost use Rattle.ob_history.specs.History.{history_after, is_full, accepted_commands, seen_now};
ghost use Rattle.ob_cli.specs.Run.{first_history, block_write, call_text, history_after_line, history_after_lines};
ghost use Rattle.ob_cli.specs.Run.{line_trace, run_grammar, run_texts};
ghost use Rattle.ob_seq.specs.State.{writes_in};

use crate::cli::options::Options;
use crate::run::blocks::Blocks;
use crate::run::line::RunLine;
use crate::run::text::{push_gathered, push_look, push_refusal, push_reply};
use crate::run::words::RunWord;
use ob_history::Recorded;
use ob_script::{Grammar, Interpreter, LineFault, read_line};
use ob_seq::Look;
use ob_types::{Command, Message, Refusal};
use std::alloc::{AllocError, Global};

/// A recorded buffer that carries out the lines of a script, whose caller is 0.
#[derive(Drop)]
pub struct RunSession {
    pub options: Options,
    pub recorded: Recorded,
    /// The first byte of the next block: how many writes were accepted, modulo 256.
    pub next_byte: u8,
    pub blocks: Blocks,
    ghost counted: { next_byte ≡ writes_in (accepted_commands recorded.records) % 256 },
}

impl RunSession {
    /// A session before its first line.
    pub fn new(alloc: Global, options: Options) -> RunSession
        ensures history { result.recorded ≡ first_history options }
        ensures options { result.options ≡ options }
    {
        let recorded = Recorded::new(alloc, options.marks, options.estimate, options.limit);
        RunSession {
            options,
            recorded,
            next_byte: 0,
            blocks: Blocks::new(),
        }
    }

    /// Carries out a line and adds its trace to the text. It fails only out of memory.
    fn carry_out_line(
        &mut self,
        alloc: Global,
        line: RunLine,
        text: &mut String,
    ) -> Result<(), AllocError>
        ensures options { self.new.options ≡ self.old.options }
        ensures after { OnOk result (self.new.recorded ≡ history_after_line self.old.recorded line) }
        ensures text { OnOk result (string_bytes text.new
            ≡ string_bytes text.old ++ line_trace self.old.recorded line) }
    {
        match line {
            RunLine::Block(size) => {
                let command = self.block_write(alloc, size)?;
                self.trace_command(command, text)
            }
            RunLine::Command(command) => self.trace_command(command, text),
            RunLine::Look => push_look(text, &self.look()),
            RunLine::Gather(max_count, max_bytes) => self.gather(max_count, max_bytes, text),
        }
    }

    /// The write of a script's block of *n* bytes.
    fn block_write(&mut self, alloc: Global, size: u64) -> Result<Command, AllocError>
        ensures options { self.new.options ≡ self.old.options }
        ensures same { self.new.recorded ≡ self.old.recorded }
        ensures value { IfOk result (λ command. command ≡ block_write self.old.recorded size) }
    {
        let bytes = self.blocks.block(alloc, self.next_byte, size)?;
        Ok(Command::Write(Message::Block(bytes)))
    }

    /// A look at the buffer.
    fn look(&self) -> Look
        ensures { result ≡ (seen_now self.now.recorded).look }
    {
        self.recorded.buffer().look()
    }

    /// Adds the trace of a gathering to the text.
    fn gather(&self, max_count: u32, max_bytes: u32, text: &mut String) -> Result<(), AllocError>
        ensures { OnOk result (string_bytes text.new
            ≡ string_bytes text.old ++ line_trace self.now.recorded (RunLine.Gather max_count max_bytes)) }
    {
        match self.recorded.buffer().gather(max_count, max_bytes) {
            Ok(blocks) => push_gathered(text, &blocks, &self.look()),
            Err(_) => Err(AllocError),
        }
    }

    /// Gives a command to the buffer, and adds its trace to the text.
    // A call that is not inlined would pass the command through memory, in pieces of other sizes than it is read in.
    #[inline(always)]
    fn trace_command(&mut self, command: Command, text: &mut String) -> Result<(), AllocError>
        ensures options { self.new.options ≡ self.old.options }
        ensures after { OnOk result (self.new.recorded ≡ history_after self.old.recorded 0 command) }
        ensures text { OnOk result (string_bytes text.new
            ≡ string_bytes text.old ++ call_text self.old.recorded command) }
    {
        let place = self.recorded.records().len();
        if !self.call(command)? {
            return push_refusal(text, Refusal::HistoryFull, &self.look());
        }
        let look = self.look();
        match &self.recorded.records()[place].reply {
            Ok(reply) => push_reply(text, reply, &look),
            Err(refusal) => push_refusal(text, *refusal, &look),
        }
    }

    /// Gives a command to the buffer and records the call, or returns `false` if the history is full. It fails for
    /// lack of memory alone, and so never if the history is full.
    fn call(&mut self, command: Command) -> Result<bool, AllocError>
        ensures options { self.new.options ≡ self.old.options }
        ensures after { OnOk result (self.new.recorded ≡ history_after self.old.recorded 0 command) }
        ensures answer { IfOk result (λ recorded. recorded ≡ not (is_full self.old.recorded)) }
        ensures full { is_full self.old.recorded ≡ true → IsOk result }
    {
        let place = self.recorded.records().len();
        let next_byte = next_byte(self.next_byte, &command);
        match self.recorded.record(0, command) {
            Ok(()) => {
                if self.recorded.records()[place].reply.is_ok() {
                    self.next_byte = next_byte;
                }
                Ok(true)
            }
            Err(Refusal::HistoryFull) => Ok(false),
            Err(_) => Err(AllocError),
        }
    }
}

impl Grammar for RunSession {
    type Line = RunLine;

    ghost grammar = { run_grammar };

    fn read(line: &[u8]) -> Result<RunLine, LineFault> {
        read_line::<RunWord>(line)
    }
}

impl Interpreter for RunSession {
    ghost texts = { λ session. run_texts (first_history session.options) };

    ghost HasDone = { λ session lines. session.recorded ≡ history_after_lines (first_history session.options) lines };

    fn carry_out(
        &mut self,
        alloc: Global,
        line: RunLine,
        text: &mut String,
    ) -> Result<bool, AllocError> {
        self.carry_out_line(alloc, line, text)?;
        Ok(true)
    }

    fn push_last(&self, _text: &mut String) -> Result<(), AllocError> {
        Ok(())
    }
}

/// The first byte of the next block once a command is accepted.
fn next_byte(byte: u8, command: &Command) -> u8
    ensures { result ≡ (byte + writes_in (command.now ∷ [])) % 256 }
{
    match command {
        Command::Write(_) => byte.wrapping_add(1),
        Command::Flush
        | Command::Remove
        | Command::RemoveWith(_)
        | Command::RemoveBytes(_)
        | Command::Progress(_)
        | Command::Cancel(_)
        | Command::FailFlushed(_, _)
        | Command::Close(_)
        | Command::UserBit(_, _)
        | Command::SetMarks(_) => byte,
    }
}
