//! How many runs there are.
ghost use Rattle.std.specs.Prelude.{◌≡◌, ◌≤◌};

/// The runs of a backfill, where only their number counts.
pub trait RunCount {
    ghost use Rattle.std.specs.Prelude.{ℕ};

    /// How many runs there are.
    ghost runs: { Self → ℕ };

    /// How many runs there are, at most 4,096.
    fn count(&self) -> usize
        ensures count { result ≡ runs self.now }
        ensures few { result ≤ 4_096 };
}
