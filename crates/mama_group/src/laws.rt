//! Laws of groups.
ghost use Rattle.std.specs.Prelude.{◌≡◌, ℕ, List, true, false, [], map};
ghost use Rattle.mama_event.specs.declared.ids.ObjectId.{ObjectId};
ghost use Rattle.mama_event.specs.declared.ids.ObjectId.TheVariants.{Sub};
ghost use Rattle.mama_event.specs.declared.ids.SubId.{SubId};
ghost use Rattle.mama_event.specs.declared.order.Order.{Order};
ghost use Rattle.mama_event.specs.declared.to_queue.QueueNote.{QueueNote};
ghost use Rattle.mama_rules_queue.specs.Queue.{calls_of, deeds, deeds_at};
ghost use Rattle.mama_rules_queue.specs.Group.{group_notes, group_notes_at, group_state};
ghost use Rattle.mama_rules_queue.specs.GroupTurns.{state_after, turn_notes};
ghost use Rattle.mama_group.specs.Table.{has_member, IsOnly};

/// What a group hears turn by turn is what its rules say of the journal of its queue: of an entry that calls back one
/// subscription alone it hears that subscription's callbacks and then its state where that is another, if it is a member, and
/// otherwise nothing. Its state is that of the rules.
pub fn groups_hear_turn_by_turn()
    ensures heard { (orders : ObjectId → ℕ → List Order) (members : List SubId) (before : List (ℕ × QueueNote)) (e : ℕ × QueueNote) (s : SubId) → IsOnly s (deeds_at orders before e) → has_member s members ≡ true → group_notes_at orders members before e ≡ turn_notes members (group_notes orders members before) s (map (λ c. c.0) (calls_of (Sub s) (deeds_at orders before e))) }
    ensures unheard { (orders : ObjectId → ℕ → List Order) (members : List SubId) (before : List (ℕ × QueueNote)) (e : ℕ × QueueNote) (s : SubId) → IsOnly s (deeds_at orders before e) → has_member s members ≡ false → group_notes_at orders members before e ≡ [] }
    ensures state { (orders : ObjectId → ℕ → List Order) (members : List SubId) (journal : List (ℕ × QueueNote)) → state_after members (group_notes orders members journal) ≡ group_state members (deeds orders journal) }
{}
