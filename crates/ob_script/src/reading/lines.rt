ghost use Rattle.std.specs.Prelude.{◌≡◌, ◌<◌, ◌≤◌, ◌∷◌, drop, length, slice_index};
ghost use Rattle.std.specs.Prelude.{◌==◌};
ghost use Rattle.std.specs.List.{position, position_or_len};
ghost use Rattle.ob_script.specs.Reading.{lines_of, words_of, words_after};

/// The first line of a script that is not empty, and how many bytes it takes with the byte 10 that ends it.
pub fn first_line(script: &[u8]) -> (&[u8], usize)
    requires { 0 < length script.now }
    ensures lines { lines_of script.now ≡ result.0.now ∷ lines_of (drop result.1 script.now) }
    ensures some { 0 < result.1 }
    ensures within { result.1 ≤ length script.now }
{
    let end = index_or_len(script, b'\n');
    if end == script.len() {
        return (script, end);
    }
    (&script[..end], end + 1)
}

/// The first word of a piece of a line, and what follows the word, from the space on.
pub fn first_word(piece: &[u8]) -> (&[u8], &[u8])
    ensures words { words_of piece.now ≡ result.0.now ∷ words_after result.1.now }
    ensures space { 0 < length result.1.now → slice_index result.1.now 0 ≡ 32 }
    ensures within { length result.1.now ≤ length piece.now }
{
    let end = index_or_len(piece, b' ');
    piece.split_at(end)
}

/// The place of the first such byte, or the number of bytes if there is none.
pub fn index_or_len(bytes: &[u8], byte: u8) -> usize
    ensures place { result ≡ position_or_len (λ b. b == byte) bytes.now }
    ensures within { result ≤ length bytes.now }
{
    match find_byte(bytes, byte) {
        Some(place) => place,
        None => bytes.len(),
    }
}

/// The place of the first such byte, if there is one.
fn find_byte(bytes: &[u8], byte: u8) -> Option<usize>
    ensures { result ≡ position (λ b. b == byte) bytes.now }
{
    bytes.iter().position(|b| *b == byte)
}
