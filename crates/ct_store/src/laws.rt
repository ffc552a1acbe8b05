//! What follows for every map.
ghost use Rattle.std.specs.Prelude.{ℕ, ◌≡◌, ◌≢◌, ◌+◌, List, [], length, Some, None, is_some, if◌then◌else◌};
ghost use Rattle.ct_store.specs.Map.{Pairs, Ascends, look, write, erase};

/// A write and an erasure are seen at their key alone, and keep the order.
pub fn changes_are_seen<T>()
    ensures written { (m : Pairs T) (key : List ℕ) (item : T) → look key (write key item m) ≡ Some item }
    ensures not_written { (m : Pairs T) (key other : List ℕ) (item : T) → other ≢ key → look other (write key item m) ≡ look other m }
    ensures erased { (m : Pairs T) (key : List ℕ) → Ascends m → look key (erase key m) ≡ None }
    ensures not_erased { (m : Pairs T) (key other : List ℕ) → other ≢ key → look other (erase key m) ≡ look other m }
    ensures write_ascends { (m : Pairs T) (key : List ℕ) (item : T) → Ascends m → Ascends (write key item m) }
    ensures erase_ascends { (m : Pairs T) (key : List ℕ) → Ascends m → Ascends (erase key m) }
{}

/// A map is what it has at each key, and is one longer or shorter where a key comes or goes.
pub fn maps_are_finite<T>()
    ensures empty { Ascends {X = T} [] }
    ensures same { (m n : Pairs T) → Ascends m → Ascends n → ((key : List ℕ) → look key m ≡ look key n) → m ≡ n }
    ensures write_length { (m : Pairs T) (key : List ℕ) (item : T) → Ascends m → length (write key item m) ≡ (if is_some (look key m) then length m else length m + 1) }
    ensures erase_length { (m : Pairs T) (key : List ℕ) → length (erase key m) + (if is_some (look key m) then 1 else 0) ≡ length m }
{}
