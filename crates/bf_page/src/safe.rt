//! Texts that stand between tags.
ghost use Rattle.std.specs.Prelude.{◌≡◌, ◌||◌, ◌==◌, ◌<◌, ◌≤◌, ◌++◌, length, slice_index, take};
ghost use Rattle.bf_page.specs.Safe.{safe, safe_byte};

/// Whether a page escapes this byte: `%`, `<`, a carriage return or U+0000.
fn is_escaped(byte: u8) -> bool
    ensures { result ≡ (byte == 37 || (byte == 60 || (byte == 13 || byte == 0))) }
{
    byte == b'%' || (byte == b'<' || (byte == b'\r' || byte == 0))
}

/// How many bytes at the front of a text a page has as they are, up to the first that it escapes.
fn plain_length(text: &[u8]) -> usize
    ensures within { result ≤ length text.now }
    ensures plain { safe (take result text.now) ≡ take result text.now }
{
    for (index, byte) in text.iter().enumerate() {
        if is_escaped(*byte) {
            return index;
        }
    }
    text.len()
}

/// The first byte of a text as a page has it: as it is, or escaped, with `%3C` for `<`. The text isn't empty.
fn first_byte(text: &[u8]) -> &[u8]
    requires { 0 < length text.now }
    ensures { result.now ≡ safe_byte (slice_index text.now 0) }
{
    match text[0] {
        b'%' => b"%25".as_slice(),
        b'<' => b"%3C".as_slice(),
        b'\r' => b"%0D".as_slice(),
        0 => b"%00".as_slice(),
        _ => &text[..1],
    }
}

/// Splits a text in two: its front as a page has it, all bytes up to the first that is escaped, or just that one,
/// escaped; and the rest, not escaped yet. The text isn't empty.
pub(crate) fn split_safe_front(text: &[u8]) -> (&[u8], &[u8])
    requires { 0 < length text.now }
    ensures all { safe text.now ≡ result.0.now ++ safe result.1.now }
    ensures some { 0 < length result.0.now }
{
    let plain = plain_length(text);
    if plain == 0 {
        return (first_byte(text), &text[1..]);
    }
    text.split_at(plain)
}
