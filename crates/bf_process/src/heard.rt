//! What is heard of a program.
ghost use Rattle.std.specs.Prelude.{◌≡◌, None, false};

use bf_failure::Detail;
use bf_try::Raw;

/// What was heard of a program: its raw answer, and what is known beside that.
#[derive(Debug, Drop)]
pub struct Heard {
    pub raw: Raw,
    pub detail: Option<Detail>,
    /// Whether processes or memory were wanting to start it, so that it may start later.
    pub may_start_later: bool,
}

impl Heard {
    /// Makes what was heard of a program of which only the raw answer is known.
    pub(crate) fn without_detail(raw: Raw) -> Heard
        ensures raw { result.raw ≡ raw }
        ensures detail { result.detail ≡ None }
        ensures later { result.may_start_later ≡ false }
    {
        Heard {
            raw,
            detail: None,
            may_start_later: false,
        }
    }
}
