//! Messages from one node to another, call by call.
use crate::handling::{answers_are, three_services};
use crate::pair::Pair;
use ct_values::value::Value;
use std::test::Fail;

#[test]
fn a_message_is_handed_over(rt: HostRuntime) -> Result<(), Fail> {
    let alloc = rt.alloc();
    let handlers = three_services(alloc)?;
    let mut pair = Pair::open(&rt, alloc)?;
    assert_eq!(rt; pair.post(2, Value::new(alloc, b"abc")?), Ok(0));
    let Some(message) = pair.poll() else {
        return Err(Fail::new("no message came"));
    };
    assert_eq!(rt; (message.srvid, message.place), (2, 0));
    let answers = handlers.dispatch(&message)?;
    assert!(rt; answers_are(answers.as_slice(), &[b"a", b"abc"]));
    assert!(rt; pair.poll().is_none());
    Ok(())
}

#[test]
fn a_full_queue_hands_back(rt: HostRuntime) -> Result<(), Fail> {
    let alloc = rt.alloc();
    let mut pair = Pair::open(&rt, alloc)?;
    for place in 0..64u64 {
        assert_eq!(rt; pair.post(3, Value::new(alloc, b"x")?), Ok(place));
    }
    assert_eq!(rt;
        pair.post(3, Value::new(alloc, b"last")?),
        Err(Value::new(alloc, b"last")?)
    );
    assert!(rt; pair.poll().is_some_and(|message| message.place == 0));
    assert_eq!(rt; pair.post(3, Value::new(alloc, b"last")?), Ok(64));
    for place in 1..65u64 {
        assert!(rt;
            pair.poll().is_some_and(|message| message.place == place),
            "{place}"
        );
    }
    assert!(rt; pair.poll().is_none());
    Ok(())
}
