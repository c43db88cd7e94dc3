//! Laws of watches.
ghost use Rattle.std.specs.Prelude.{◌≡◌, ◌++◌, ◌∷◌, ℕ, List, []};
ghost use Rattle.std.specs.List.{flat_map};
ghost use Rattle.mama_event.specs.declared.ids.ObjectId.{ObjectId};
ghost use Rattle.mama_event.specs.declared.ids.TimerId.{TimerId};
ghost use Rattle.mama_event.specs.declared.order.Order.{Order};
ghost use Rattle.mama_event.specs.declared.to_queue.QueueNote.{QueueNote};
ghost use Rattle.mama_event.specs.declared.watch.WatchRow.{WatchRow};
ghost use Rattle.mama_rules_queue.specs.Queue.{deeds, deeds_at};
ghost use Rattle.mama_rules_queue.specs.Watch.{is_missed, watch_notes_at, wish_in};
ghost use Rattle.mama_timeout.specs.Table.{watch_by, ticked, tick_wishes, IsTick, IsNoTick};

/// What a watch notes and wishes for turn by turn is what its rules say of the journal of its queue: of an entry that is a tick of
/// a timer that was called back what the tick makes of it, and of an entry that is none nothing.
pub fn watches_note_turn_by_turn()
    ensures noted { (orders : ObjectId → ℕ → List Order) (w : ℕ × WatchRow) (before : List (ℕ × QueueNote)) (e : ℕ × QueueNote) (t : TimerId) (moment : ℕ) → IsTick t moment (deeds_at orders before e) → watch_by orders (before ++ e ∷ []) w ≡ ticked t moment (λ s. is_missed s (before ++ e ∷ []) (deeds orders (before ++ e ∷ []))) (watch_by orders before w) }
    ensures wished { (orders : ObjectId → ℕ → List Order) (w : ℕ × WatchRow) (before : List (ℕ × QueueNote)) (e : ℕ × QueueNote) (t : TimerId) (moment : ℕ) → IsTick t moment (deeds_at orders before e) → flat_map (wish_in w.1) (watch_notes_at orders w.1 before e) ≡ tick_wishes t moment (λ s. is_missed s (before ++ e ∷ []) (deeds orders (before ++ e ∷ []))) (watch_by orders before w) }
    ensures unnoted { (orders : ObjectId → ℕ → List Order) (w : ℕ × WatchRow) (before : List (ℕ × QueueNote)) (e : ℕ × QueueNote) → IsNoTick (deeds_at orders before e) → watch_by orders (before ++ e ∷ []) w ≡ watch_by orders before w }
    ensures unwished { (orders : ObjectId → ℕ → List Order) (w : ℕ × WatchRow) (before : List (ℕ × QueueNote)) (e : ℕ × QueueNote) → IsNoTick (deeds_at orders before e) → flat_map (wish_in w.1) (watch_notes_at orders w.1 before e) ≡ [] }
{}
