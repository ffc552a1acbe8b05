//! What follows for every list of pulls.
ghost use Rattle.std.specs.Prelude.{ℕ, ◌≡◌, ◌↔◌, true, false, Bool, List, Some, Contains, All, length};
ghost use Rattle.std.specs.declared.cmp.Ordering.{Ordering};
ghost use Rattle.std.specs.Ordering.{is_lt};
ghost use Rattle.std.specs.Cmp.{IsTotalOrder};
ghost use Rattle.ct_frame.specs.declared.round.Pull.{Pull};
ghost use Rattle.ct_frame.specs.declared.frame.Msg.{Msg};
ghost use Rattle.ct_frame.specs.Fields.{is_message};
ghost use Rattle.ct_merge.specs.declared.merged.MergedAll.{MergedAll};
ghost use Rattle.ct_merge.specs.declared.held.HeldRow.{HeldRow};
ghost use Rattle.ct_merge.specs.Placing.{best};
ghost use Rattle.ct_merge.specs.Held.{is_in_order, rows_of, row_rank, ptable_rank, address_rank};
ghost use Rattle.ct_merge.specs.Gathered.{nothing, gathered_all, finished};
ghost use Rattle.ct_merge.specs.Rule.{are_in_order, told, vparent, different, is_same_place, HasOneOfEach, IsKeptRather, IsMerge};

/// What is made of all that was gathered of pulls, one after the other, is what the three merges make of them.
pub fn gathered_pulls_are_merged()
    ensures { (pulls : List Pull) → are_in_order pulls ≡ true → IsMerge pulls (finished (gathered_all pulls nothing)) }
{}

/// What is gathered of the pulls of different members is the same in whatever order they come.
pub fn order_does_not_matter()
    ensures { (pulls others : List Pull) → are_in_order pulls ≡ true → HasOneOfEach pulls → ((p : Pull) → Contains pulls p ↔ Contains others p) → gathered_all pulls nothing ≡ gathered_all others nothing }
{}

/// The rule of the three merges gives one answer.
pub fn merges_have_one_answer()
    ensures { (pulls : List Pull) (m n : MergedAll) → IsMerge pulls m → IsMerge pulls n → m ≡ n }
{}

/// The best of several is one of them, and none comes before it.
pub fn best_is_first<T>()
    ensures { (rank : T → T → Ordering) → IsTotalOrder rank → (xs : List T) (x : T) → best rank xs ≡ Some x → Contains xs x × All (λ y. is_lt (rank y x) ≡ false) xs }
{}

/// Of several rows at a key the one that is kept has the greatest RSN; of those with this RSN it names its own node as
/// data master, if one of them does; and of those that then are left it is the lowest node's.
pub fn newest_row_is_kept()
    ensures { (rows : List HeldRow) (x : HeldRow) → best row_rank rows ≡ Some x → Contains rows x × All (IsKeptRather x) rows }
{}

/// As many rows are held as there are different databases and keys in the tables of the pulls of the greatest base.
pub fn one_row_a_key()
    ensures { (pulls : List Pull) → are_in_order pulls ≡ true → length (gathered_all pulls nothing).rows ≡ different is_same_place (told (λ p. p.vbase) rows_of (vparent pulls) pulls) }
{}

/// The orders by which one of several is kept are total.
pub fn ranks_are_total()
    ensures rows { IsTotalOrder row_rank }
    ensures ptables { IsTotalOrder ptable_rank }
    ensures addresses { IsTotalOrder address_rank }
{}

/// A reply that keeps its rules is in order as a pull.
pub fn replies_are_in_order()
    ensures { (node : ℕ) (p : Pull) → is_message node (Msg.PullReply p.vbase p.pbase p.table p.ptables p.addresses) ≡ true → is_in_order p ≡ true }
{}
