ghost use Rattle.std.specs.Prelude.{◌≡◌, ◌+◌, ◌≤◌, List, IfSome, IfNone};
ghost use Rattle.ob_types.specs.declared.command.Command.{Command};
ghost use Rattle.ob_seq.specs.Looks.{look_after};
ghost use Rattle.ob_connection.specs.Connected.{Gives, StandsFor};

use ob_connection::Connection;

/// The most bytes that a frame may have if the connection is to stay writable, or none if not even an empty one may be
/// written. It is one less than the number of bytes that makes it unwritable, less what each message counts beside its
/// own.
pub fn most_frame_bytes(connection: &Connection, overhead: u32) -> Option<u32>
    ensures most { IfSome result (λ most. Gives connection.now
        (λ settings commands. (look_after settings commands).before_unwritable) (most + overhead + 1)) }
    ensures none { IfNone result ((commands : List Command) → StandsFor connection.now commands
        → (look_after connection.now.unsent.settings commands).before_unwritable ≤ overhead) }
{
    connection
        .look()
        .before_unwritable
        .checked_sub(1)?
        .checked_sub(overhead)
}
