//! Where the bytes of a block lie, for a vectored write.

ghost use Rattle.std.specs.Prelude.{◌≡◌};
ghost use Rattle.ob_c.specs.Calls.{piece_of};

/// A piece of memory that is to be sent: `struct iovec` of POSIX.
#[repr(C)]
#[derive(Clone, Copy)]
pub struct Piece {
    /// Its first byte.
    pub at: *const u8,
    /// How many bytes it has.
    pub length: usize,
}

impl Piece {
    /// Where these bytes lie.
    pub(crate) fn of(bytes: &[u8]) -> Piece
        ensures { result ≡ piece_of bytes.entry }
    {
        Piece {
            at: bytes.as_ptr(),
            length: bytes.len(),
        }
    }
}
