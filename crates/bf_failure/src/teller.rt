//! What takes lines.

/// Takes lines, each with its line feed, from several threads at once. `may_tell` says which lines it may be handed.
pub trait Teller {
    ghost use Rattle.std.specs.Prelude.{ℕ, List};

    /// It may be handed this line.
    ghost may_tell: { Self → List ℕ → Type 0 };

    /// Tells a line. A failure is ignored: there is nowhere left to report it.
    fn tell(&self, line: &str)
        requires { may_tell self.now line.now };
}
