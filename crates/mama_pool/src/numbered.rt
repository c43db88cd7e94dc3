ghost use Rattle.std.specs.Prelude.{◌≡◌, ℕ};

/// An item of a pool. Its number never changes while it is in the pool, and rules count items by it.
pub trait Numbered: Drop {
    ghost numbered: { Self → ℕ };

    /// The item's number.
    fn number(&self) -> u32
        ensures { result ≡ numbered self.now };
}
