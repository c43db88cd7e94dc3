//! Laws of the words: what is read is spelled so, and what is spelled so is read.
ghost use Rattle.std.specs.Prelude.{◌≡◌, ◌<◌, ◌≤◌, ◌^◌, ℕ, ℤ, true, List, [], ◌∷◌, map, Option, None, Some, Ok};
ghost use Rattle.mama_edge.specs.Decimal.{decimal, int_decimal};
ghost use Rattle.mama_edge.specs.Quoted.{quoted, IsPrintable};
ghost use Rattle.mama_event.specs.declared.market.SubKind.{SubKind};
ghost use Rattle.mama_event.specs.declared.market.MsgKind.{MsgKind};
ghost use Rattle.mama_event.specs.declared.market.Quality.{Quality};
ghost use Rattle.mama_event.specs.declared.group.GroupState.{GroupState};
ghost use Rattle.mama_event.specs.declared.shape.Strategy.{Strategy};
ghost use Rattle.mama_msg.specs.Field.{FieldData};
ghost use Rattle.mama_words.specs.declared.id.IdWord.{IdWord};
ghost use Rattle.mama_words.specs.declared.order.OrderWord.{OrderWord};
ghost use Rattle.mama_words.specs.declared.nums.Nums.{Nums};
ghost use Rattle.std.specs.List.{flat_map};
ghost use Rattle.mama_words.specs.Parting.{words, parted_in, cut_at, pieces};
ghost use Rattle.mama_words.specs.Sentence.{spaced, sentence};
ghost use Rattle.mama_words.specs.WordForm.{IsWord, AreWords};
ghost use Rattle.mama_words.specs.Number.{number_in, int_in, is_within};
ghost use Rattle.mama_words.specs.Quote.{quoted_in};
ghost use Rattle.mama_words.specs.Kind.{sub_kind_in, sub_kind_text, msg_kind_text, quality_text, strategy_in, strategy_text, group_state_in, group_state_text};
ghost use Rattle.mama_words.specs.KindIn.{msg_kind_in, quality_in};
ghost use Rattle.mama_words.specs.Id.{id_in, id_text};
ghost use Rattle.mama_words.specs.Field.{field_in, field_text, IsField, fields_text, message_in, IsMessage};
ghost use Rattle.mama_words.specs.Order.{order_in, order_words, order_text, IsOrder, IsId};

/// Numbers: one spelling for each.
pub fn numbers_are_spelled()
    ensures found { (text : List ℕ) (n : ℕ) → number_in text ≡ Some n → (n < 2 ^ 64) × (text ≡ decimal n) }
    ensures again { (n : ℕ) → n < 2 ^ 64 → number_in (decimal n) ≡ Some n }
    ensures int_found { (half : ℕ) (text : List ℕ) (z : ℤ) → int_in half text ≡ Some z → (is_within half z ≡ true) × (text ≡ int_decimal z) }
    ensures int_again { (half : ℕ) (z : ℤ) → half ≤ 2 ^ 63 → is_within half z ≡ true → int_in half (int_decimal z) ≡ Some z }
{}

/// Texts between quotes.
pub fn texts_are_spelled()
    ensures found { (word text : List ℕ) → quoted_in word ≡ Some text → IsPrintable text × (word ≡ quoted text) }
    ensures again { (text : List ℕ) → IsPrintable text → quoted_in (quoted text) ≡ Some text }
{}

/// Kinds, qualities and strategies.
pub fn kinds_are_spelled()
    ensures sub_kind_found { (word : List ℕ) (k : SubKind) → sub_kind_in word ≡ Some k → word ≡ sub_kind_text k }
    ensures sub_kind_again { (k : SubKind) → sub_kind_in (sub_kind_text k) ≡ Some k }
    ensures msg_kind_found { (word : List ℕ) (k : MsgKind) → msg_kind_in word ≡ Some k → word ≡ msg_kind_text k }
    ensures msg_kind_again { (k : MsgKind) → msg_kind_in (msg_kind_text k) ≡ Some k }
    ensures quality_found { (word : List ℕ) (q : Quality) → quality_in word ≡ Some q → word ≡ quality_text q }
    ensures quality_again { (q : Quality) → quality_in (quality_text q) ≡ Some q }
    ensures strategy_found { (word : List ℕ) (s : Strategy) → strategy_in word ≡ Some s → word ≡ strategy_text s }
    ensures strategy_again { (s : Strategy) → strategy_in (strategy_text s) ≡ Some s }
    ensures group_state_found { (word : List ℕ) (s : GroupState) → group_state_in word ≡ Some s → word ≡ group_state_text s }
    ensures group_state_again { (s : GroupState) → group_state_in (group_state_text s) ≡ Some s }
{}

/// Ids, with any letter.
pub fn ids_are_spelled()
    ensures found { (letter : ℕ) (word : List ℕ) (id : IdWord) → id_in letter word ≡ Some id → IsId id × (word ≡ id_text letter id) }
    ensures again { (letter : ℕ) (id : IdWord) → IsId id → id_in letter (id_text letter id) ≡ Some id }
{}

/// Fields, and messages as lists of words, where the type `nums` is known and where it is not.
pub fn fields_are_spelled()
    ensures found { (nums : Nums) (word : List ℕ) (f : FieldData) → field_in nums word ≡ Ok f → IsField nums f × (word ≡ field_text f) }
    ensures again { (nums : Nums) (f : FieldData) → IsField nums f → field_in nums (field_text f) ≡ Ok f }
    ensures message_found { (nums : Nums) (words : List (List ℕ)) (fs : List FieldData) → message_in nums words ≡ Ok fs → IsMessage nums fs × (words ≡ map field_text fs) }
    ensures message_again { (nums : Nums) (fs : List FieldData) → IsMessage nums fs → message_in nums (map field_text fs) ≡ Ok fs }
{}

/// Orders as lists of words.
pub fn orders_are_spelled()
    ensures found { (words : List (List ℕ)) (o : OrderWord) → order_in words ≡ Ok o → IsOrder o × (words ≡ order_words o) }
    ensures again { (o : OrderWord) → IsOrder o → order_in (order_words o) ≡ Ok o }
{}

/// The pieces of a text between the bytes of a kind are what stands before the first of them, and the pieces behind it.
pub fn pieces_are_cut()
    ensures cut { (c : ℕ) (text before rest : List ℕ) → cut_at c text ≡ Some (before, rest) → pieces c text ≡ before ∷ pieces c rest }
    ensures uncut { (c : ℕ) (text : List ℕ) → cut_at c text ≡ None → pieces c text ≡ text ∷ [] }
{}

/// The words of a line make the line, and words in a row are parted again.
pub fn lines_are_words()
    ensures joined { (line : List ℕ) → sentence (words line) ≡ line }
    ensures found { (line : List ℕ) (ws : List (List ℕ)) → parted_in line ≡ Some ws → line ≡ sentence ws }
    ensures again { (w : List ℕ) (ws : List (List ℕ)) → AreWords (w ∷ ws) → parted_in (sentence (w ∷ ws)) ≡ Some (w ∷ ws) }
{}

/// Each spelling is a word, or words in a row.
pub fn spellings_are_words()
    ensures number { (n : ℕ) → n < 2 ^ 64 → IsWord (decimal n) }
    ensures text { (text : List ℕ) → IsPrintable text → IsWord (quoted text) }
    ensures sub_kind { (k : SubKind) → IsWord (sub_kind_text k) }
    ensures msg_kind { (k : MsgKind) → IsWord (msg_kind_text k) }
    ensures quality { (q : Quality) → IsWord (quality_text q) }
    ensures strategy { (s : Strategy) → IsWord (strategy_text s) }
    ensures group_state { (s : GroupState) → IsWord (group_state_text s) }
    ensures sub_id { (id : IdWord) → IsId id → IsWord (id_text 115 id) }
    ensures timer_id { (id : IdWord) → IsId id → IsWord (id_text 116 id) }
    ensures inbox_id { (id : IdWord) → IsId id → IsWord (id_text 105 id) }
    ensures message { (nums : Nums) (fs : List FieldData) → IsMessage nums fs → AreWords (map field_text fs) }
    ensures message_row { (fs : List FieldData) → fields_text fs ≡ flat_map spaced (map field_text fs) }
    ensures order { (o : OrderWord) → IsOrder o → AreWords (order_words o) }
    ensures order_row { (o : OrderWord) → order_text o ≡ sentence (order_words o) }
{}
