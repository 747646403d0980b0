ghost use Rattle.std.specs.Prelude.{◌≡◌, ◌+◌, ◌<◌, ◌≤◌, ◌==◌, List, ℕ, Some, true, false};
ghost use Rattle.std.specs.Prelude.{IfErr, IfOk, drop, length, take};
ghost use Rattle.ob_script.specs.Inside.{EndsAt, IsFollowed, StandsAt};
ghost use Rattle.ob_script.specs.Reading.{greatest_script, script_lines};
ghost use Rattle.ob_script.specs.declared.reading.fault.LineFault.{LineFault};
ghost use Rattle.ob_script.specs.declared.reading.fault.LineFault.TheVariants.{Misplaced};
ghost use Rattle.ob_script.specs.declared.script_fault.ScriptFault.TheVariants.{Line};

use crate::reading::fault::LineFault;
use crate::reading::faulty_line::FaultyLine;
use crate::reading::grammar::Grammar;
use crate::reading::lines::{first_line, index_or_len};
use crate::script_fault::ScriptFault;
use std::marker::Model;

/// How many bytes are read at least before their memory is given back.
const PIECE: usize = 65536;

/// Reads the lines of a script one after the other, and counts them. When most of the script was read, the memory of that
/// is given back. Contracts see what is left of the script, and the count.
#[derive(Drop)]
pub struct Cursor {
    /// What is left of the script, behind bytes that were read.
    script: Vec<u8>,
    /// How many bytes of it were read before the line that was read last.
    last: usize,
    /// How many bytes of it were read.
    read: usize,
    /// How many are to be read before their memory is given back.
    enough: usize,
    /// How many lines were read.
    count: u32,
}

impl Model for Cursor {
    ghost use Rattle.std.specs.Prelude.{◌+◌, ◌≤◌, drop, length};
    ghost use Rattle.ob_script.specs.Inside.{Cursor};
    ghost use Rattle.ob_script.specs.Reading.{greatest_script};

    ghost Value = { Cursor };

    ghost view = { λ cursor. record { rest = drop cursor.read cursor.script.items; count = cursor.count } };

    ghost invariant = { λ cursor. (cursor.read ≤ length cursor.script.items)
        × (cursor.count + length (drop cursor.read cursor.script.items) ≤ greatest_script) };
}

impl Cursor {
    /// In front of the first line.
    pub fn new(script: Vec<u8>) -> Cursor
        requires small { length script.items ≤ greatest_script }
        ensures { result ≡ record { rest = script.items; count = 0 } }
    {
        let enough = enough_of(script.len());
        Cursor {
            script,
            last: 0,
            read: 0,
            enough,
            count: 0,
        }
    }

    /// Whether there is no further line.
    pub fn is_at_end(&self) -> bool
        ensures { result ≡ (length self.now.rest == 0) }
    {
        self.read == self.script.len()
    }

    /// Reads the next line: what it asks by itself, or its fault with its number.
    pub fn read<G: Grammar>(&mut self) -> Result<G::Line, ScriptFault>
        requires more { 0 < length self.old.rest }
        ensures count { self.new.count ≡ self.old.count + 1 }
        ensures fewer { length self.new.rest < length self.old.rest }
        ensures faulty { IfErr result (λ told. (script : List ℕ)
            → StandsAt G.grammar script self.old.count self.old.rest → (fault : LineFault)
            × (told ≡ Line (self.old.count + 1) fault)
            × EndsAt G.grammar script self.old.count (Some (self.old.count + 1, fault))) }
        ensures misplaced { IfOk result (λ line. (script : List ℕ)
            → StandsAt G.grammar script self.old.count self.old.rest
            → G.grammar.is_misplaced (take self.old.count (script_lines G.grammar script)) line ≡ true
            → EndsAt G.grammar script self.old.count (Some (self.old.count + 1, Misplaced))) }
        ensures placed { IfOk result (λ line. (script : List ℕ)
            → StandsAt G.grammar script self.old.count self.old.rest
            → G.grammar.is_misplaced (take self.old.count (script_lines G.grammar script)) line ≡ false
            → IsFollowed G.grammar script self.old.count line self.new.rest) }
    {
        self.give_back();
        let (line, bytes) = first_line(behind(&self.script, self.read));
        self.last = self.read;
        self.read += bytes;
        self.count += 1;
        match G::read(line) {
            Ok(line) => Ok(line),
            Err(fault) => Err(self.fault(fault)),
        }
    }

    /// A fault of the line that was read last.
    pub fn fault(&self, fault: LineFault) -> ScriptFault
        ensures { result ≡ Line self.now.count fault }
    {
        let bytes = self.script.get(self.last..self.read).unwrap_or(&[]);
        let line = &bytes[..index_or_len(bytes, b'\n')];
        ScriptFault::Line {
            line: FaultyLine::new(self.count, line, fault),
            fault,
        }
    }

    /// Gives back the memory of what was read, if that is enough.
    #[inline(always)]
    fn give_back(&mut self)
        ensures { self.new ≡ self.old }
    {
        if self.read >= self.enough {
            self.move_rest();
        }
    }

    /// Moves what is left to the front, and gives back the memory behind it.
    fn move_rest(&mut self)
        ensures { self.new ≡ self.old }
    {
        let left = self.script.len() - self.read;
        self.script.copy_within(self.read.., 0);
        self.script.truncate(left);
        self.script.shrink_to_fit();
        self.read = 0;
        self.enough = enough_of(left);
    }
}

/// What stands behind *n* bytes.
fn behind(script: &[u8], read: usize) -> &[u8]
    requires { read ≤ length script.now }
    ensures { result.now ≡ drop read script.now }
{
    &script[read..]
}

/// How many bytes of *n* are to be read before their memory is given back: seven eighths, and a piece at least.
fn enough_of(bytes: usize) -> usize {
    PIECE.max(bytes - bytes / 8)
}
