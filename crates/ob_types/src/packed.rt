ghost use Rattle.std.specs.Prelude.{◌≡◌, ◌<◌, ◌^◌, ℕ};
ghost use Rattle.ob_types.specs.Marks.{packed};

/// How many numbers a half of 64 bits has.
const HALF: u64 = 1 << 32;

/// A word and a total in one number, so that one atomic step reads or writes both: the word in the high 32 bits, the
/// total, in bytes, in the low 32. `unpack` gives both back. It does not allocate. Our own: Netty reads two fields.
pub fn pack(word: u32, total: u32) -> u64
    ensures { result ≡ packed word total }
{
    u64::from(word) * HALF + u64::from(total)
}

/// The word and the total that `pack` made one number of; every number is one of a word and a total. It does not
/// allocate. Our own.
pub fn unpack(both: u64) -> (u32, u32)
    ensures packs_again { packed result.0 result.1 ≡ both }
    ensures undoes { (word total : ℕ) → total < 2 ^ 32 → packed word total ≡ both
        → (result.0 ≡ word) × (result.1 ≡ total) }
{
    ((both / HALF) as u32, (both % HALF) as u32)
}
