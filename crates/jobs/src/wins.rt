//! Which jobs of a round win.
ghost use Rattle.std.specs.Prelude.{ℕ};

/// A set of jobs, those that win. It has no call: contracts alone see its value as that set.
pub trait Wins {
    /// The job with this number wins.
    ghost wins: { Self → ℕ → Type 0 };
}
