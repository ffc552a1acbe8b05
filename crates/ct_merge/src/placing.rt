//! Lists with one item at each place, and how two of them are merged.
ghost use Rattle.std.specs.Prelude.{◌≡◌, ◌≤◌, ◌<◌, ◌+◌, [], ◌∷◌, IfSome, IfNone, OnSome, IfOk};
ghost use Rattle.std.specs.declared.cmp.Ordering.{Ordering};
ghost use Rattle.std.specs.Vec.{vec_len, vec_capacity};
ghost use Rattle.std.specs.VecDeque.{deque_len};
ghost use Rattle.std.specs.Cmp.{IsTotalOrder};
ghost use Rattle.std.specs.List.Sorted.{IsStrictlySortedBy};
ghost use Rattle.ct_merge.specs.Placing.{better, all_inserted, turn};
ghost use Rattle.ct_merge.specs.Gathered.{joined};

use ct_values::memory::NoMemory;
use std::alloc::Global;
use std::cmp::Ordering;
use std::collections::VecDeque;
use std::mem;

/// Items that have places, of which one at each place is kept.
pub(crate) trait Candidate: Drop {
    ghost order: { Self → Self → Ordering };

    ghost rank: { Self → Self → Ordering };

    /// Which of the two has the lower place.
    fn order(&self, other: &Self) -> Ordering
        ensures { result ≡ order self.now other.now };

    /// Which of two at one place comes before the other.
    fn rank(&self, other: &Self) -> Ordering
        ensures { result ≡ rank self.now other.now };

    ghost total: { IsTotalOrder order };
}

/// Of two at one place the one that comes first by rank.
fn better<T: Candidate>(x: T, y: T) -> T
    ensures { result ≡ better T.rank x y }
{
    if x.rank(&y).is_lt() { x } else { y }
}

/// From which list the next item comes; `Equal` for both.
fn turn<T: Candidate>(more: &VecDeque<T>, kept: &VecDeque<T>) -> Ordering
    ensures { result ≡ turn T.order more.now.items kept.now.items }
{
    match (more.front(), kept.front()) {
        (Some(x), Some(y)) => x.order(y),
        (Some(_), None) => Ordering::Less,
        (None, _) => Ordering::Greater,
    }
}

/// Takes the next item of the two lists as they are merged.
fn take_next<T: Candidate>(more: &mut VecDeque<T>, kept: &mut VecDeque<T>) -> Option<T>
    requires { IsStrictlySortedBy T.order more.old.items }
    ensures next { IfSome result (λ x. all_inserted T.order T.rank more.old.items kept.old.items ≡ x ∷ all_inserted T.order T.rank more.new.items kept.new.items) }
    ensures end { IfNone result (all_inserted T.order T.rank more.old.items kept.old.items ≡ []) }
    ensures ascends { IsStrictlySortedBy T.order more.new.items }
    ensures shorter { OnSome result (deque_len more.new + deque_len kept.new < deque_len more.old + deque_len kept.old) }
{
    match turn(more, kept) {
        Ordering::Less => more.pop_front(),
        Ordering::Greater => kept.pop_front(),
        Ordering::Equal => {
            let x = more.pop_front()?;
            let y = kept.pop_front()?;
            Some(better(x, y))
        }
    }
}

/// Moves the items of two lists into an empty one that has the room.
fn merge<T: Candidate>(more: Vec<T>, kept: Vec<T>, room: Vec<T>) -> Vec<T>
    requires ascends { IsStrictlySortedBy T.order more.items }
    requires empty { room.items ≡ [] }
    requires fits { vec_len more + vec_len kept ≤ vec_capacity room }
    ensures { result.items ≡ all_inserted T.order T.rank more.items kept.items }
{
    let mut merged = room;
    let mut more = VecDeque::from_vec(more);
    let mut kept = VecDeque::from_vec(kept);
    while let Some(item) = take_next(&mut more, &mut kept) {
        merged.push_reserved(item);
    }
    merged
}

/// An empty list that has room for all items of both.
pub fn room_for<T>(alloc: Global, kept: &Vec<T>, more: &Vec<T>) -> Result<Vec<T>, NoMemory>
    ensures empty { IfOk result (λ room. room.items ≡ []) }
    ensures fits { IfOk result (λ room. vec_len more.now + vec_len kept.now ≤ vec_capacity room) }
{
    let Some(count) = more.len().checked_add(kept.len()) else {
        return Err(NoMemory);
    };
    Ok(Vec::with_capacity(alloc, count)?)
}

/// Puts items of a base to those of the greatest base so far. It takes no memory.
pub fn join<T: Candidate>(
    alloc: Global,
    base: u64,
    kept: &mut Vec<T>,
    new: u64,
    more: Vec<T>,
    room: Vec<T>,
)
    requires ascends { IsStrictlySortedBy T.order more.items }
    requires empty { room.items ≡ [] }
    requires fits { vec_len more + vec_len kept.old ≤ vec_capacity room }
    ensures { kept.new.items ≡ joined T.order T.rank base kept.old.items new more.items }
{
    if base < new {
        *kept = more;
    } else if base == new {
        let old = mem::replace(kept, Vec::new(alloc));
        *kept = merge(more, old, room);
    }
}
