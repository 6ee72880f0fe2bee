//! Lines of a text that may be cut short anywhere.
ghost use Rattle.std.specs.Prelude.{◌≡◌, ◌++◌, ◌∷◌, [], IfSome, IfNone};
ghost use Rattle.bf_journal.specs.Lines.{whole_lines};
ghost use Rattle.bf_journal.specs.inner.Lines.{IsInLine};

use memchr::memchr;

/// Splits off the first line: gives it without its line feed, and the bytes behind that. None where there is no line
/// feed.
#[tactic(auto, using(crate::proofs::Finding::first_found, crate::proofs::Finding::none_found))]
pub(crate) fn first_line(bytes: &[u8]) -> Option<(&[u8], &[u8])>
    ensures some { IfSome result (λ p. (bytes.now ≡ p.0.now ++ 10 ∷ p.1.now) × IsInLine p.0.now
        × (whole_lines bytes.now ≡ p.0.now ∷ whole_lines p.1.now)) }
    ensures none { IfNone result (IsInLine bytes.now × (whole_lines bytes.now ≡ [])) }
{
    match memchr(b'\n', bytes) {
        Some(at) => Some((&bytes[..at], &bytes[at + 1..])),
        None => None,
    }
}
