//! The fields of a line.
ghost use Rattle.std.specs.Prelude.{◌≡◌, ◌==◌, ◌<◌, ◌^◌, ◌++◌, ◌∷◌, [], ℕ, IfSome, IfNone, Some, decimal, position};
ghost use Rattle.bf_report_reader.specs.inner.Reads.{IsWord};

use itoa::Buffer;
use memchr::memchr;

/// Finds the first space of a text, by its index; None where there is none.
#[tactic(auto, using(crate::proofs::Finding::first_is))]
fn space_in(text: &[u8]) -> Option<usize>
    ensures { result ≡ position (λ b. b == 32) text.now }
{
    memchr(b' ', text)
}

/// Splits a text at its first space into what stands before and after it; None where there is no space.
pub(crate) fn split_field(text: &[u8]) -> Option<(&[u8], &[u8])>
    ensures some { IfSome result (λ p. text.now ≡ p.0.now ++ 32 ∷ p.1.now) }
    ensures word { IfSome result (λ p. IsWord p.0.now) }
    ensures none { IfNone result (IsWord text.now) }
{
    let at = space_in(text)?;
    Some((&text[..at], &text[at + 1..]))
}

/// Reads an ASCII digit as its number; None for any other byte.
fn digit_in(digit: u8) -> Option<u32>
    ensures some { IfSome result (λ n. digit ∷ [] ≡ decimal n) }
    ensures every { (n : ℕ) → n < 2 ^ 32 → digit ∷ [] ≡ decimal n → result ≡ Some n }
{
    if digit.is_ascii_digit() {
        Some((digit - b'0') as u32)
    } else {
        None
    }
}

/// Reads a decimal number without leading zeros that fits 32 bits; None for any other text.
pub(crate) fn number_in(text: &[u8]) -> Option<u32>
    ensures some { IfSome result (λ n. text.now ≡ decimal n) }
    ensures every { (n : ℕ) → n < 2 ^ 32 → text.now ≡ decimal n → result ≡ Some n }
{
    // most numbers of a report are tries, which have one digit
    if let [digit] = text {
        return digit_in(*digit);
    }
    let Ok(digits) = std::str::from_utf8(text) else {
        return None;
    };
    let Ok(number) = digits.parse::<u32>() else {
        return None;
    };
    if Buffer::new().format(number).as_bytes() != text {
        return None;
    }
    Some(number)
}
