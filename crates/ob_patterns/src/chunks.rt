ghost use Rattle.std.specs.Prelude.{◌≡◌, ◌∷◌, [], ℕ, List, Option};
ghost use Rattle.ob_connection.specs.Calls.{with_more};
ghost use Rattle.ob_patterns.specs.Writing.{WritesGiven};

use bytes::Bytes;
use ob_connection::{Connection, Refused};
use ob_types::Message;

/// What a long response is made of, piece by piece, such as a file.
pub trait Chunks {
    /// What it answered so far, of a source that tells it: for contracts alone, as what a socket tells.
    ghost answers: { Self → Option (List (Option (List ℕ))) };

    /// The next piece, or none at the end.
    fn next(&mut self) -> Option<Bytes>
        ensures { answers self.new ≡ with_more (answers self.old) (result ∷ []) };
}

/// How far a long response is written.
#[derive(Clone, Copy, Debug, PartialEq, Eq)]
pub enum Progress {
    /// All of it is written.
    Finished,
    /// The connection is not writable: go on when a send reports `Writable`.
    Paused,
    /// As many pieces are written as one call may write: go on after the other connections had their turn.
    ComeAgain,
}

/// Writes at most `most` pieces, while the connection is writable. Flush and send after it. The source is asked for a
/// piece only while the connection is writable.
///
/// A piece that is refused comes back in the error, and the pieces before it stay written. Write that piece first if
/// you go on. The refusals are those of `write`.
pub fn write_chunks<C: Chunks>(
    connection: &mut Connection,
    chunks: &mut C,
    most: u32,
) -> Result<Progress, Refused>
    ensures { WritesGiven most connection.old (C.answers chunks.old) result connection.new (C.answers chunks.new) }
{
    for _count in 0..most {
        if !connection.is_writable() {
            return Ok(Progress::Paused);
        }
        let Some(bytes) = chunks.next() else {
            return Ok(Progress::Finished);
        };
        let _written = connection.write(Message::Block(bytes))?;
    }
    Ok(Progress::ComeAgain)
}
