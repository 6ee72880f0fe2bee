//! What a journal is of.
use std::marker::Brand;

/// Which bytes a journal goes on behind, and which records may be written there: a call that makes a recorder picks
/// them, so that they are known behind its lock.
pub trait Journaled {
    ghost use Rattle.std.specs.Prelude.{ℕ, List, Option};

    ghost base: { Option (List ℕ) };

    ghost may_record: { List ℕ → Type 0 };
}

/// For a `Brand` the call that is generic over it picks its own; nothing else is known of it.
impl Journaled for Brand {
    ghost use Rattle.std.specs.Prelude.{None};

    ghost base = { None };

    ghost may_record = { λ line. ⊥ };
}
