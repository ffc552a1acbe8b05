//! Messages that are sent and end, step by step.
use ct_frame::frame::{Frame, Msg};
use ct_mail::mail::Mail;
use ct_values::items::Items;
use std::alloc::Global;
use std::test::Fail;

/// What becomes of messages.
#[derive(Clone, Copy)]
enum Turn {
    /// So many are sent.
    Post(usize),
    Deliver(u64),
    Drop(u64),
    /// So many are left.
    Keep(usize),
}

/// So many messages.
fn frames(alloc: Global, count: usize) -> Result<Items<Frame>, Fail> {
    let mut list = Vec::new(alloc);
    for _ in 0..count {
        list.push(Frame {
            generation: 1,
            sender: 0,
            receiver: 1,
            msg: Msg::Pull,
        })?;
    }
    Ok(Items::new(list))
}

/// It becomes of them, where they wait.
fn goes(alloc: Global, mail: &mut Mail, turn: Turn) -> Result<(), Fail> {
    match turn {
        Turn::Post(count) => mail.post(alloc, frames(alloc, count)?)?,
        Turn::Deliver(number) => if mail.is_waiting(number) {
            mail.deliver(number);
        },
        Turn::Drop(number) => if mail.is_waiting(number) {
            mail.drop(number);
        },
        Turn::Keep(count) => mail.truncate(count),
    }
    Ok(())
}

#[test]
fn the_next_that_waits(rt: HostRuntime) -> Result<(), Fail> {
    let alloc = rt.alloc();
    let mut mail = Mail::new(alloc);
    for (turn, next, len) in [
        (Turn::Deliver(1), None, 0),
        (Turn::Post(3), Some(1), 3),
        (Turn::Deliver(2), Some(1), 3),
        (Turn::Deliver(1), Some(3), 3),
        (Turn::Drop(1), Some(3), 3),
        (Turn::Post(2), Some(3), 5),
        (Turn::Drop(3), Some(4), 5),
        (Turn::Deliver(5), Some(4), 5),
        (Turn::Keep(3), None, 3),
        (Turn::Post(1), Some(4), 4),
    ] {
        goes(alloc, &mut mail, turn)?;
        assert!(rt; mail.next_waiting() == next && mail.len() == len);
    }
    assert!(rt; mail.is_delivered(2) && !mail.is_delivered(3) && !mail.is_waiting(0));
    assert!(rt; mail.frame(4).is_some() && mail.frame(5).is_none());
    Ok(())
}
