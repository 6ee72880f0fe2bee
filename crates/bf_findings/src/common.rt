//! What two texts have in common.
ghost use Rattle.std.specs.Prelude.{◌≡◌, ◌≤◌, length};
ghost use Rattle.bf_findings.specs.Nearest.{shared, shared_at_end};

/// Counts the first characters that a text and a name, in ASCII, have in common.
#[tactic(auto, using(crate::proofs::Shares::one_more_shared, crate::proofs::Shares::no_more_shared, crate::proofs::Shares::ended))]
pub(crate) fn shared_start(text: &[char], name: &[u8]) -> usize
    ensures count { result ≡ shared text.now name.now }
    ensures text { result ≤ length text.now }
    ensures name { result ≤ length name.now }
{
    let most = text.len().min(name.len());
    for count in 0..most {
        if text[count] != char::from(name[count]) {
            return count;
        }
    }
    most
}

/// Counts the last characters that a text and a name, in ASCII, have in common.
#[tactic(auto, using(crate::proofs::Shares::one_more_at_end, crate::proofs::Shares::no_more_at_end, crate::proofs::Shares::ended_at_end))]
pub(crate) fn shared_end(text: &[char], name: &[u8]) -> usize
    ensures count { result ≡ shared_at_end text.now name.now }
    ensures text { result ≤ length text.now }
    ensures name { result ≤ length name.now }
{
    let most = text.len().min(name.len());
    for count in 0..most {
        if text[text.len() - 1 - count] != char::from(name[name.len() - 1 - count]) {
            return count;
        }
    }
    most
}
