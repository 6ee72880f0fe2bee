//! Parts of a text.
ghost use Rattle.std.specs.Prelude.{◌≡◌, ◌≢◌, ◌++◌, ◌∷◌, ℕ, IfSome, List, MatchOption};

use memchr::memchr;

/// Gives what follows `front`; None where the bytes don't begin with it.
pub(crate) fn behind<'b>(bytes: &'b [u8], front: &[u8]) -> Option<&'b [u8]>
    ensures { MatchOption result ((rest : List ℕ) → bytes.entry.now ≢ front.now ++ rest)
        (λ rest. bytes.entry.now ≡ front.now ++ rest.now) }
{
    bytes.strip_prefix(front)
}

/// Gives what stands before `end`; None where the bytes don't end with it.
pub(crate) fn before<'b>(bytes: &'b [u8], end: &[u8]) -> Option<&'b [u8]>
    ensures { MatchOption result ((rest : List ℕ) → bytes.entry.now ≢ rest ++ end.now)
        (λ rest. bytes.entry.now ≡ rest.now ++ end.now) }
{
    bytes.strip_suffix(end)
}

/// Splits a text at its first comma; None where it has none. Contracts say only that the two parts lie round a comma.
#[tactic(auto, using(crate::proofs::Finding::taken))]
pub(crate) fn split_comma(text: &[u8]) -> Option<(&[u8], &[u8])>
    ensures { IfSome result (λ p. text.now ≡ p.0.now ++ 44 ∷ p.1.now) }
{
    let at = memchr(b',', text)?;
    Some((&text[..at], &text[at + 1..]))
}
