ghost use Rattle.std.specs.Prelude.{◌≡◌, ◌<◌, ◌≤◌, List, ℕ, Option, IsTrue, IfOk, IfErr, IfSome, IsErrOf, OnOk, length};
ghost use Rattle.std.specs.Io.KnownBytes.{Consumes, IsAtEnd};
ghost use Rattle.ob_script.specs.Reading.{greatest_script};
ghost use Rattle.ob_script.specs.Tracing.{IsReadingFault};

use crate::script_fault::ScriptFault;
use std::alloc::{AllocError, Global};
use std::io::{ErrorKind, Read};

/// The most bytes of a script. Our own limit.
const MAX_SCRIPT: usize = 16777216;

/// The most reads of a script. Our own limit.
const MAX_READS: u32 = 33554432;

/// How many bytes a read asks for.
const PIECE: usize = 65536;

/// Reads a script to its end.
///
/// `TooLong` comes if it has more than 16777216 bytes, `Read` if the reader fails or if 33554432 reads do not bring the
/// script to its end (a read that was interrupted counts, and is tried again), `NoMemory` if the allocator refuses.
pub fn read_script<R: Read>(alloc: Global, reader: &mut R) -> Result<Vec<u8>, ScriptFault>
    ensures whole { IfOk result (λ script. IfSome (R.remaining reader.old) (λ bytes. bytes ≡ script.items)) }
    ensures end { OnOk result (IsAtEnd (R.remaining reader.new)) }
    ensures within { IfOk result (λ script. length script.items ≤ greatest_script) }
    ensures too_long { IsErrOf result ScriptFault.TooLong
        → IfSome (R.remaining reader.old) (λ bytes. greatest_script < length bytes) }
    ensures faults { IfErr result IsReadingFault }
{
    let mut script = Vec::new(alloc);
    let Ok(mut piece) = zeros(alloc, PIECE) else {
        return Err(ScriptFault::NoMemory);
    };
    for _ in 0..MAX_READS {
        if read_piece(reader, &mut piece, &mut script)? {
            return Ok(script);
        }
    }
    Err(ScriptFault::Read)
}

/// Reads once, and adds what came to the script. The answer is whether the script is at its end.
fn read_piece<R: Read>(
    reader: &mut R,
    piece: &mut [u8],
    script: &mut Vec<u8>,
) -> Result<bool, ScriptFault>
    requires room { 0 < length piece.old }
    requires within { length script.old.items ≤ greatest_script }
    ensures so_far { OnOk result ((start : Option (List ℕ)) → Consumes start (R.remaining reader.old) script.old.items
        → Consumes start (R.remaining reader.new) script.new.items) }
    ensures end { IfOk result (λ ended. IsTrue ended → IsAtEnd (R.remaining reader.new)) }
    ensures within { OnOk result (length script.new.items ≤ greatest_script) }
    ensures too_long { IsErrOf result ScriptFault.TooLong → (start : Option (List ℕ))
        → Consumes start (R.remaining reader.old) script.old.items
        → IfSome start (λ bytes. greatest_script < length bytes) }
    ensures faults { IfErr result IsReadingFault }
{
    match reader.read(piece) {
        Ok(0) => Ok(true),
        Ok(count) => {
            if count > MAX_SCRIPT - script.len() {
                return Err(ScriptFault::TooLong);
            }
            match script.extend_from_slice(&piece[..count]) {
                Ok(()) => Ok(false),
                Err(_) => Err(ScriptFault::NoMemory),
            }
        }
        Err(error) if error.kind() == ErrorKind::Interrupted => Ok(false),
        Err(_) => Err(ScriptFault::Read),
    }
}

/// *n* zero bytes.
fn zeros(alloc: Global, count: usize) -> Result<Vec<u8>, AllocError>
    ensures { IfOk result (λ bytes. length bytes.items ≡ count) }
{
    vec![in alloc; 0; count]
}
