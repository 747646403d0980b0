ghost use Rattle.std.specs.Prelude.{◌≡◌, ◌<◌};
ghost use Rattle.ob_core.specs.World.{is_set, with_bit, without_bit};

/// The index of the bit that shows whether the total has passed a mark. It is no lane's.
pub const MARK_BIT: u32 = 0;

/// Whether the bit with this index is set.
pub fn has_bit(word: u32, index: u32) -> bool
    requires { index < 32 }
    ensures { result ≡ is_set word index }
{
    (word >> index) & 1 == 1
}

/// The word with the bit with this index set.
pub fn set_bit(word: u32, index: u32) -> u32
    requires { index < 32 }
    ensures { result ≡ with_bit word index }
{
    word | (1 << index)
}

/// The word with the bit with this index cleared.
pub fn clear_bit(word: u32, index: u32) -> u32
    requires { index < 32 }
    ensures { result ≡ without_bit word index }
{
    word & !(1 << index)
}
