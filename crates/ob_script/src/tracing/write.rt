ghost use Rattle.std.specs.Prelude.{◌≡◌, IfErr, OnOk};
ghost use Rattle.std.specs.Io.KnownBytes.{Appends};
ghost use Rattle.ob_script.specs.declared.script_fault.ScriptFault.TheVariants.{Write};

use crate::script_fault::ScriptFault;
use std::io;

/// Writes a text whole.
pub fn write_text<W: io::Write>(text: &str, writer: &mut W) -> Result<(), ScriptFault>
    ensures text { OnOk result (Appends (W.contents writer.old) (W.contents writer.new) text.now) }
    ensures fault { IfErr result (λ fault. fault ≡ Write) }
{
    if writer.write_all(text.as_bytes()).is_err() || writer.flush().is_err() {
        return Err(ScriptFault::Write);
    }
    Ok(())
}
