ghost use Rattle.std.specs.Prelude.{◌≡◌, ℕ, ◌≤◌, List, length};
ghost use Rattle.std.specs.List.{All, Contains};
ghost use Rattle.mama_pool.specs.Values.{ShareValue, HandValue, IsPool, Closed, KnowsEmpty, shares_at, taken_weight, total};

/// Where a share of a deque knows as many takes as there were pushes, of each number as many were taken as were pushed, and so
/// nothing was left: weigh that number 1, and others 0.
///
/// A hand's own share knows that after a `pop` that answered `None`, if the hand pushed no more.
pub fn nothing_is_left()
    ensures { (pushed : List ℕ) (shares : List ShareValue) (own : ShareValue) → Closed pushed shares → Contains shares own → length pushed ≤ own.known → (weight : ℕ → ℕ) → total weight pushed ≡ total (λ s. total weight s.took) shares }
{}

/// Where each hand of a pool knows at its close that all that it pushed was taken, of each number as many were taken, by all
/// hands, as were pushed: weigh that number 1, and others 0.
pub fn all_was_taken()
    ensures { (hands : List HandValue) → IsPool hands → All (λ hand. Closed hand.pushed (shares_at hand.number hands)) hands → All KnowsEmpty hands → (weight : ℕ → ℕ) → total (λ hand. total weight hand.pushed) hands ≡ total (taken_weight weight) hands }
{}
