//! What follows from the rules.
ghost use Rattle.std.specs.Prelude.{ℕ, ◌≡◌, ◌<◌, ◌^◌, false, true, List, [], Some, Contains};
ghost use Rattle.std.specs.List.{AllByRecursion};
ghost use Rattle.ct_values.specs.declared.address.Address.TheVariants.{V4, V6};
ghost use Rattle.ct_frame.specs.Fields.{ascends, assigned_before};
ghost use Rattle.ct_frame.specs.declared.frame.Assigned.{Assigned};
ghost use Rattle.ct_lcp2.specs.Distance.{distance, IsAgreed};
ghost use Rattle.ct_lcp2.specs.Best.{best};
ghost use Rattle.ct_lcp2.specs.declared.choice.Choice.{Choice};
ghost use Rattle.ct_lcp2.specs.declared.choice.Source.{Source};
ghost use Rattle.ct_lcp2.specs.Placing.{addresses, Ascend, vacated, choice_before, source_before, failbacks, filled, must_leave, placed, places, targets_of};

/// The distance of two addresses of one family is the greatest number of first bits in which they agree, and 0 across
/// the families.
pub fn distance_is_greatest()
    ensures of_ipv4 { (a b : ℕ) → a < 2 ^ 32 → b < 2 ^ 32 → IsAgreed 32 a b (distance (V4 a) (V4 b)) }
    ensures of_ipv6 { (a b : ℕ) → a < 2 ^ 128 → b < 2 ^ 128 → IsAgreed 128 a b (distance (V6 a) (V6 b)) }
    ensures across { (a b : ℕ) → (distance (V4 a) (V6 b) ≡ 0) × (distance (V6 a) (V4 b) ≡ 0) }
{}

/// Each of the steps goes on as long as it can: in the end no address can be placed, and no address may fail back.
pub fn steps_end()
    ensures placed { (able : List ℕ) (given : List Assigned) → places able (filled able (vacated able given)).at ≡ [] }
    ensures failed_back { (able : List ℕ) (given : List Assigned) → Ascend given → AllByRecursion (λ node. failbacks node (targets_of able given) (placed able given) ≡ []) able }
{}

/// What is picked from a list is one of it, and none of the list comes before it.
pub fn best_is_first()
    ensures choices { (xs : List Choice) (c : Choice) → best choice_before xs ≡ Some c → Contains xs c × AllByRecursion (λ d. choice_before d c ≡ false) xs }
    ensures sources { (xs : List Source) (s : Source) → best source_before xs ≡ Some s → Contains xs s × AllByRecursion (λ d. source_before d s ≡ false) xs }
{}

/// The addresses of a placement are the given ones, so they ascend too; they do so where each comes before the next.
/// None stands at a node that is not able.
pub fn addresses_stay()
    ensures same { (able : List ℕ) (given : List Assigned) → addresses (placed able given) ≡ addresses given }
    ensures able { (able : List ℕ) (given : List Assigned) → AllByRecursion (λ x. must_leave able x.node ≡ false) (placed able given) }
    ensures ascend { (at : List Assigned) → ascends assigned_before at ≡ true → Ascend at }
{}
