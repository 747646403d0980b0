ghost use Rattle.std.specs.Prelude.{◌≡◌};
ghost use Rattle.ob_script.specs.Reading as specs;

use crate::reading::fault::LineFault;

/// What the lines of a kind of script say.
pub trait Grammar {
    /// What a line asks.
    type Line: Drop;

    /// The grammar of the scripts.
    ghost grammar: { specs.Grammar Self.Line };

    /// What a line asks by itself, given without the byte that ends it, or its fault.
    fn read(line: &[u8]) -> Result<Self::Line, LineFault>
        ensures { result ≡ grammar.reading line.now };
}
