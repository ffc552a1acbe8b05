//! What follows of the rules of updates.
ghost use Rattle.std.specs.Prelude.{ℕ, ◌≡◌, ◌≢◌, ◌+◌, List, [], length, None, Some, IsTrue};
ghost use Rattle.ct_values.specs.declared.client.Pair.{Pair};
ghost use Rattle.ct_store.specs.Map.{Pairs, look};
ghost use Rattle.ct_persist.specs.Persisted.{Persisted, IsKept, stored, listed, replaced};
ghost use Rattle.ct_persist.specs.Updates.{Update, contents, updated_all, commits, each_next, writes_of};

/// Whatever updates come, the contents are those after the commits that they apply, and the number is higher by as many.
/// Where each has the next number and fits, each is a commit.
pub fn updates_are_commits()
    ensures any { (us : List Update) (p : Persisted) → updated_all us p ≡ record { seq = p.seq + length (commits us p); pairs = contents (commits us p) p.pairs } }
    ensures each_next { (us : List Update) (p : Persisted) → IsTrue (each_next us p) → updated_all us p ≡ record { seq = p.seq + length us; pairs = contents (writes_of us) p.pairs } }
    ensures kept { (cs : List (List Pair)) (m : Pairs (List ℕ)) → IsKept m → IsKept (contents cs m) }
{}

/// A write is seen at its key alone, and one of the empty value removes the pair.
pub fn writes_are_seen()
    ensures value { (m : Pairs (List ℕ)) (key value : List ℕ) → value ≢ [] → look key (stored key value m) ≡ Some value }
    ensures removed { (m : Pairs (List ℕ)) (key : List ℕ) → IsKept m → look key (stored key [] m) ≡ None }
    ensures others { (m : Pairs (List ℕ)) (key other value : List ℕ) → other ≢ key → look other (stored key value m) ≡ look other m }
{}

/// A database that takes the pairs and the number of another is the same.
pub fn pairs_replace()
    ensures { (db : ℕ) (p : Persisted) → replaced (record { db = db; seq = p.seq; pairs = listed p.pairs }) ≡ p }
{}
