ghost use Rattle.std.specs.Prelude.{◌≡◌, ℕ};

/// What a link can cut: a value that is carried as bytes, of which the first alone may come through. What that leaves of it,
/// each type says by `cut_to`; a link does so much with any value, and knows no more of it.
pub trait Cuttable {
    // The value with as many of its first bytes alone, which is the value where it has no more.
    ghost cut_to: { ℕ → Self → Self };

    /// Keeps the first `keep` bytes, or all of them where there are no more, as `cut_to` has it. It takes no memory.
    fn cut(&mut self, keep: u32)
        ensures { self.new ≡ cut_to keep self.old };
}
