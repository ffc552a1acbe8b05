//! Runs and holders, call by call.
use ct_frame::frame::Assigned;
use ct_lead::holder::Holder;
use ct_lead::run::Run;
use ct_values::address::Address;
use std::alloc::Global;
use std::test::Fail;

const FIRST: Address = Address::V4(1);

const SECOND: Address = Address::V4(2);

const LONG: Address = Address::V6(1);

/// The second address at node 1, and the others at this node.
fn placement(alloc: Global, node: u32) -> Result<Vec<Assigned>, Fail> {
    let mut all = Vec::new(alloc);
    for (address, at) in [(FIRST, node), (SECOND, 1), (LONG, node)] {
        all.push(Assigned {
            address,
            node: Some(at),
        })?;
    }
    Ok(all)
}

/// Is it run 5 of two nodes and three addresses?
fn is_begun(it: &Run) -> bool {
    it.number() == 5
        && it.members() == [0, 1].as_slice()
        && it.missing() == [0, 1].as_slice()
        && it.placement().len() == 3
}

fn shares_so(it: &Run, node: u32, wanted: &[Address]) -> Result<bool, Fail> {
    Ok(it.share(node)?.as_slice() == wanted)
}

fn awaits_node_1(it: &mut Run) -> bool {
    !it.acked(0, 4) && !it.acked(2, 5) && !it.acked(0, 5) && !it.acked(0, 5)
}

fn ends(it: &mut Run) -> bool {
    it.acked(1, 5) && it.missing().is_empty() && !it.acked(1, 5)
}

fn ends_too(it: &mut Run) -> bool {
    it.missing() == [1].as_slice() && it.acked(1, 5)
}

#[test]
fn a_run(rt: HostRuntime) -> Result<(), Fail> {
    let placement = placement(rt.alloc(), 0)?;
    let mut it = Run::begin(rt.alloc(), 5, &[0, 1], placement)?;
    assert!(rt; is_begun(&it));
    assert!(rt; shares_so(&it, 0, &[FIRST, LONG])?);
    assert!(rt; shares_so(&it, 1, &[SECOND])?);
    assert!(rt; shares_so(&it, 2, &[])?);
    assert!(rt; awaits_node_1(&mut it));
    let mut copy = it.copy()?;
    assert!(rt; ends(&mut it));
    assert!(rt; ends_too(&mut copy));
    Ok(())
}

fn holds(it: &Holder, held: &[Address], run: u64) -> bool {
    it.held() == held && it.last_run() == run
}

/// Is it of a run that it obeys?
fn releases(it: &mut Holder, run: u64, keep: &[Address]) -> Result<bool, Fail> {
    Ok(it.release(run, keep)?.is_some())
}

const OWN: [Assigned; 2] = [
    Assigned {
        address: FIRST,
        node: Some(0),
    },
    Assigned {
        address: LONG,
        node: Some(0),
    },
];

/// Is it of a run that it obeys?
fn takes(it: &mut Holder, run: u64) -> Result<bool, Fail> {
    Ok(it.take(run, &OWN, 0)?.is_some())
}

fn gives_up(it: &mut Holder) -> Result<bool, Fail> {
    let left = it.install(&[FIRST])?;
    Ok(left.as_slice() == [LONG].as_slice())
}

#[test]
fn a_holder(rt: HostRuntime) -> Result<(), Fail> {
    let mut it = Holder::new(rt.alloc());
    assert!(rt; holds(&it, &[], 0));
    assert!(rt; releases(&mut it, 3, &[])? && it.last_run() == 3);
    assert!(rt; !takes(&mut it, 2)? && it.held().is_empty());
    assert!(rt; takes(&mut it, 3)? && it.held() == [FIRST, LONG].as_slice());
    let copy = it.copy()?;
    assert!(rt; !releases(&mut it, 2, &[FIRST])? && it.held() == [FIRST, LONG].as_slice());
    assert!(rt; releases(&mut it, 4, &[SECOND, LONG])? && holds(&it, &[LONG], 4));
    assert!(rt; gives_up(&mut it)? && holds(&it, &[], 0));
    assert!(rt; holds(&copy, &[FIRST, LONG], 3));
    Ok(())
}
