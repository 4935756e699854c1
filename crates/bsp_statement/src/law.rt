//! The laws of the two sides of a period, and of tallies.

ghost use Rattle.std.specs.Prelude.{◌≡◌, ◌≢◌, ℕ, pos, true, false, List, [], ◌∷◌, map};
ghost use Rattle.std.specs.List.{All};
ghost use Rattle.std.specs.List.Sorted.{IsPermutation};
ghost use Rattle.bsp_rules.specs.Amounts.{sum_of};
ghost use Rattle.bsp_rules.specs.declared.rows.Item.{Item};
ghost use Rattle.bsp_memos.specs.declared.fields.MemoFields.{MemoFields};
ghost use Rattle.bsp_statement.specs.Postings.{postings};
ghost use Rattle.bsp_statement.specs.Nets.{agent_net, airline_net, net_of_rows};
ghost use Rattle.bsp_statement.specs.declared.tally.Tally.{Tally as TallyValue};
ghost use Rattle.bsp_statement.specs.Tallies.{IsTallyOf, is_item_under, is_memo_under, no_tally, tally_postings, with_item, with_memo};
ghost use Rattle.bsp_statement.specs.Removal.{without_item, without_memo};
ghost use Rattle.bsp_statement.specs.Sides.{AreOnce, HaveAgents, HaveAirlines};

/// The agents' nets and the airlines' nets of a period have one sum, which is the net of all rows.
/// This holds over any lists of agents and of airlines, none twice, that have those of each row
/// that posts something. Who has no such row has the net 0, and the order of the rows changes no
/// net.
pub fn two_sides()
    ensures one_sum { (period : ℕ) (items : List Item) (memos : List MemoFields) (agents airlines : List ℕ) → AreOnce agents → AreOnce airlines → HaveAgents period items memos agents → HaveAirlines period items memos airlines → sum_of (map (λ a. agent_net a period items memos) agents) ≡ sum_of (map (λ c. airline_net c period items memos) airlines) }
    ensures agents { (period : ℕ) (items : List Item) (memos : List MemoFields) (agents : List ℕ) → AreOnce agents → HaveAgents period items memos agents → sum_of (map (λ a. agent_net a period items memos) agents) ≡ net_of_rows period items memos }
    ensures airlines { (period : ℕ) (items : List Item) (memos : List MemoFields) (airlines : List ℕ) → AreOnce airlines → HaveAirlines period items memos airlines → sum_of (map (λ c. airline_net c period items memos) airlines) ≡ net_of_rows period items memos }
    ensures no_agent { (period : ℕ) (items : List Item) (memos : List MemoFields) (agent : ℕ) → All (λ p. p.agent ≢ agent) (postings period items memos) → agent_net agent period items memos ≡ pos 0 }
    ensures no_airline { (period : ℕ) (items : List Item) (memos : List MemoFields) (airline : ℕ) → All (λ p. p.airline ≢ airline) (postings period items memos) → airline_net airline period items memos ≡ pos 0 }
    ensures order { (period : ℕ) (items others : List Item) (memos other_memos : List MemoFields) → IsPermutation items others → IsPermutation memos other_memos → IsPermutation (postings period items memos) (postings period others other_memos) }
{}

/// How a tally grows with its rows. The tally of no rows has zeros. A row of its agent, airline and period
/// changes it as [`Tally::with_item`](crate::Tally::with_item) and
/// [`Tally::with_memo`](crate::Tally::with_memo) do, another row leaves it, and the order of the rows
/// changes nothing.
pub fn tallies_grow()
    ensures nothing { (agent airline period : ℕ) → IsTallyOf [] [] (no_tally agent airline period) }
    ensures item { (i : Item) (items : List Item) (memos : List MemoFields) (t : TallyValue) → is_item_under t i ≡ true → IsTallyOf items memos t → IsTallyOf (i ∷ items) memos (with_item i t) }
    ensures other_item { (i : Item) (items : List Item) (memos : List MemoFields) (t : TallyValue) → is_item_under t i ≡ false → IsTallyOf items memos t → IsTallyOf (i ∷ items) memos t }
    ensures memo { (m : MemoFields) (items : List Item) (memos : List MemoFields) (t : TallyValue) → is_memo_under t m ≡ true → IsTallyOf items memos t → IsTallyOf items (m ∷ memos) (with_memo m t) }
    ensures other_memo { (m : MemoFields) (items : List Item) (memos : List MemoFields) (t : TallyValue) → is_memo_under t m ≡ false → IsTallyOf items memos t → IsTallyOf items (m ∷ memos) t }
    ensures order { (items others : List Item) (memos other_memos : List MemoFields) (t : TallyValue) → IsPermutation items others → IsPermutation memos other_memos → IsTallyOf items memos t → IsTallyOf others other_memos t }
    ensures postings { (period : ℕ) (tallies others : List TallyValue) → IsPermutation tallies others → IsPermutation (tally_postings period tallies) (tally_postings period others) }
{}

/// How a tally shrinks with its rows. Of rows with an item or a memo of its agent, airline and
/// period, the tally of the others is what [`Tally::without_item`](crate::Tally::without_item) and
/// [`Tally::without_memo`](crate::Tally::without_memo) give.
pub fn tallies_shrink()
    ensures item { (i : Item) (items : List Item) (memos : List MemoFields) (t : TallyValue) → is_item_under t i ≡ true → IsTallyOf (i ∷ items) memos t → IsTallyOf items memos (without_item i t) }
    ensures memo { (m : MemoFields) (items : List Item) (memos : List MemoFields) (t : TallyValue) → is_memo_under t m ≡ true → IsTallyOf items (m ∷ memos) t → IsTallyOf items memos (without_memo m t) }
{}
