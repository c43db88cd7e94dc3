ghost use Rattle.std.specs.Prelude.{◌≡◌, ℕ, List, Option, Some, IfSome, slice_index};
ghost use Rattle.mama_edge.specs.Told.{after_first};

/// What time it is.
///
/// `left` is the moments that the clock will give, where it tells them. Of a clock that does not tell them nothing is
/// promised. A moment is a number of milliseconds, counted from a beginning that is open.
pub trait Clock {
    ghost left: { Self → Option (List ℕ) };

    /// The present moment: the first that is left, or 0 where none is.
    fn now(&mut self) -> u64
        ensures first { IfSome (left self.old) (λ moments. result ≡ slice_index moments 0) }
        // The first is gone, unless it is the only one.
        ensures rest { IfSome (left self.old) (λ moments. left self.new ≡ Some (after_first moments)) };
}
