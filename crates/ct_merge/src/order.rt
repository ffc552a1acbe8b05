//! Whether the lists of pulls are in order.
ghost use Rattle.std.specs.Prelude.{◌≡◌};
ghost use Rattle.ct_merge.specs.Held.{is_in_order};
ghost use Rattle.ct_merge.specs.Rule.{are_in_order};

use ct_frame::order::ascends;
use ct_frame::round::Pull;

/// Whether the rows of a pull ascend by database and key, its persistent databases by place, and its addresses.
pub fn is_in_order(pull: &Pull) -> bool
    ensures { result ≡ is_in_order pull.now }
{
    ascends(pull.table.as_slice())
        && ascends(pull.ptables.as_slice())
        && ascends(pull.addresses.as_slice())
}

/// Whether this holds of each of the pulls.
pub fn are_in_order(pulls: &[Pull]) -> bool
    ensures { result ≡ are_in_order pulls.now }
{
    pulls.iter().all(|pull| is_in_order(pull))
}
