//! Nodes that are awaited and trackings, call by call, against the rules.
ghost use Rattle.std.specs.Prelude.{◌≡◌, None, OnOk};

use ct_tracking::awaited::Awaited;
use ct_tracking::tracking::Tracking;
use ct_values::copies::Duplicate;
use std::alloc::Global;
use std::test::Fail;

/// Begins a revocation where a node is tracked.
fn revoke(tracking: &mut Tracking, rsn: u64) -> Result<(), Fail>
    requires { tracking.old.revoking ≡ None }
{
    if !tracking.tracked().is_empty() {
        tracking.begin(rsn)?;
    }
    Ok(())
}

/// Does it answer so to an acknowledgement, and which nodes are left?
fn acks_so(it: &mut Awaited, node: u32, last: bool, left: &[u32]) -> bool {
    it.ack(node) == last && it.missing() == left && !it.is_missing(node)
}

fn asks_one_more(it: &mut Awaited) -> Result<bool, Fail> {
    it.add(3)?;
    Ok(it.asked() == [2, 3, 5, 9].as_slice())
}

fn copy_acks_all(it: &Awaited) -> Result<bool, Fail> {
    let mut copy = it.copy()?;
    Ok(!copy.ack(2) && !copy.ack(9) && !copy.ack(3) && copy.ack(5))
}

fn misses_all(it: &Awaited) -> bool {
    it.missing() == [2, 3, 5, 9].as_slice()
}

fn asks_nobody(it: &Awaited) -> bool {
    it.asked().is_empty() && it.missing().is_empty()
}

fn all_ack_so(it: &mut Awaited) -> bool {
    acks_so(it, 4, false, &[2, 5, 9])
        && acks_so(it, 5, false, &[2, 9])
        && acks_so(it, 5, false, &[2, 9])
        && acks_so(it, 9, false, &[2])
        && acks_so(it, 2, true, &[])
        && acks_so(it, 2, false, &[])
}

fn asks_again(it: &mut Awaited) -> Result<bool, Fail> {
    it.ask_again();
    Ok(copy_acks_all(it)? && misses_all(it))
}

#[test]
fn awaited_nodes(rt: HostRuntime) -> Result<(), Fail> {
    let mut it = Awaited::begin(rt.alloc(), &[2, 5, 9])?;
    assert!(rt; all_ack_so(&mut it));
    assert!(rt; asks_one_more(&mut it)?);
    assert!(rt; asks_again(&mut it)?);
    it.clear();
    assert!(rt; asks_nobody(&it));
    Ok(())
}

fn tracks(it: &Tracking, nodes: &[u32]) -> bool {
    it.tracked() == nodes
}

fn revokes(it: &Tracking, rsn: Option<u64>, missing: &[u32]) -> bool {
    it.revoking() == rsn && it.missing() == missing
}

fn adds_so(it: &mut Tracking, node: u32, nodes: &[u32]) -> Result<bool, Fail>
    requires { it.old.revoking ≡ None }
    ensures { OnOk result (it.new.revoking ≡ None) }
{
    it.add(node)?;
    Ok(tracks(it, nodes))
}

fn all_add_so(it: &mut Tracking) -> Result<bool, Fail>
    requires { it.old.revoking ≡ None }
    ensures { OnOk result (it.new.revoking ≡ None) }
{
    let first = adds_so(it, 4, &[4])?;
    let second = adds_so(it, 0, &[0, 4])?;
    let third = adds_so(it, 7, &[0, 4, 7])?;
    let again = adds_so(it, 4, &[0, 4, 7])?;
    let last = adds_so(it, 5, &[0, 4, 5, 7])?;
    Ok(first && second && third && again && last)
}

fn is_new(it: &Tracking) -> bool {
    tracks(it, &[]) && revokes(it, None, &[])
}

fn adds_after_all(it: &mut Tracking) -> Result<bool, Fail> {
    it.clear();
    let cleared = tracks(it, &[]);
    Ok(adds_so(it, 1, &[1])? && cleared)
}

fn are_in_order(it: &mut Tracking) -> Result<bool, Fail>
    requires { it.old.revoking ≡ None }
{
    let new = is_new(it);
    let added = all_add_so(it)?;
    let quiet = revokes(it, None, &[]);
    Ok(adds_after_all(it)? && new && added && quiet)
}

#[test]
fn nodes_in_order(rt: HostRuntime) -> Result<(), Fail> {
    let mut it = Tracking::new(rt.alloc());
    let in_order = are_in_order(&mut it);
    drop(it);
    assert!(rt; in_order?);
    Ok(())
}

/// Nodes 2, 5 and 9 are called back.
fn called_back(alloc: Global) -> Result<Tracking, Fail> {
    let mut it = Tracking::new(alloc);
    it.add(2)?;
    it.add(9)?;
    it.add(5)?;
    revoke(&mut it, 30)?;
    Ok(it)
}

/// Does it answer so to an acknowledgement, of a revocation that goes on?
fn goes_on(it: &mut Tracking, node: u32, rsn: u64, last: bool, left: &[u32]) -> bool {
    it.ack(node, rsn) == last && tracks(it, &[2, 5, 9]) && revokes(it, Some(30), left)
}

fn ends(it: &mut Tracking) -> bool {
    it.ack(2, 30) && tracks(it, &[]) && revokes(it, None, &[]) && !it.ack(2, 30)
}

/// Node 2 is missing here.
fn goes_on_and_ends(it: &mut Tracking) -> bool {
    tracks(it, &[2, 5, 9]) && revokes(it, Some(30), &[2]) && it.ack(2, 30)
}

fn does_not_end(it: &Tracking) -> Result<bool, Fail> {
    let mut again = it.duplicate()?;
    Ok(again.revoking() == Some(30) && !again.ack(2, 31) && is_cleared(&mut again))
}

fn is_cleared(it: &mut Tracking) -> bool {
    it.clear();
    tracks(it, &[]) && revokes(it, None, &[]) && !it.ack(2, 30)
}

fn all_go_on(it: &mut Tracking) -> bool {
    goes_on(it, 5, 29, false, &[2, 5, 9])
        && goes_on(it, 5, 31, false, &[2, 5, 9])
        && goes_on(it, 4, 30, false, &[2, 5, 9])
        && goes_on(it, 5, 30, false, &[2, 9])
        && goes_on(it, 5, 30, false, &[2, 9])
        && goes_on(it, 9, 30, false, &[2])
        && goes_on(it, 9, 29, false, &[2])
}

fn ends_and_so_does_its_copy(it: &mut Tracking) -> Result<bool, Fail> {
    let mut copy = it.copy()?;
    Ok(ends(it) && goes_on_and_ends(&mut copy))
}

fn is_begun(it: &Tracking) -> bool {
    tracks(it, &[2, 5, 9]) && revokes(it, Some(30), &[2, 5, 9])
}

fn is_acknowledged(it: &mut Tracking) -> Result<bool, Fail> {
    Ok(is_begun(it) && all_go_on(it) && does_not_end(it)? && ends_and_so_does_its_copy(it)?)
}

#[test]
fn acknowledgements(rt: HostRuntime) -> Result<(), Fail> {
    let mut it = called_back(rt.alloc())?;
    let is_acknowledged = is_acknowledged(&mut it);
    drop(it);
    assert!(rt; is_acknowledged?);
    Ok(())
}
