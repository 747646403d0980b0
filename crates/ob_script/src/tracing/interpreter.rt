ghost use Rattle.std.specs.Prelude.{◌≡◌, ◌++◌, [], ◌∷◌, List, true, not, IfOk, OnOk, string_bytes};
ghost use Rattle.ob_script.specs.Tracing.{Texts};

use crate::reading::grammar::Grammar;
use std::alloc::{AllocError, Global};

/// What carries out the lines of a script, one after the other, and tells of each.
pub trait Interpreter: Grammar + Drop {
    /// What it tells of the lines.
    ghost texts: { Self → Texts Self.Line };

    /// It has carried out these lines.
    ghost HasDone: { Self → List Self.Line → Type 0 };

    /// Carries out a line and adds its trace to the text, or returns `false` if the line is misplaced. It fails
    /// only out of memory. Of itself and the text nothing is said then, nor after a misplaced line.
    fn carry_out(
        &mut self,
        alloc: Global,
        line: Self::Line,
        text: &mut String,
    ) -> Result<bool, AllocError>
        ensures texts { texts self.new ≡ texts self.old }
        ensures fits { IfOk result (λ fits. (before : List Self.Line) → HasDone self.old before
            → fits ≡ not (Self.grammar.is_misplaced before line)) }
        ensures done { IfOk result (λ fits. fits ≡ true → (before : List Self.Line) → HasDone self.old before
            → HasDone self.new (before ++ line ∷ [])) }
        ensures text { IfOk result (λ fits. fits ≡ true → (before : List Self.Line) → HasDone self.old before
            → string_bytes text.new ≡ string_bytes text.old ++ (texts self.old).line_text before line) };

    /// Adds the text that comes behind the trace of all lines.
    fn push_last(&self, text: &mut String) -> Result<(), AllocError>
        ensures { OnOk result ((lines : List Self.Line) → HasDone self.now lines
            → string_bytes text.new ≡ string_bytes text.old ++ (texts self.now).last_text lines) };
}
