use ct_frame::event::Note;
use ct_frame::frame::{Frame, Msg};
use ct_rules_cluster::step::{Line, PendingCall, Step};
use ct_values::client::{Answer, ClientOp};
use ct_values::copies::Duplicate;
use ct_values::items::Items;
use ct_values::key::Key;
use ct_values::value::Value;
use std::test::Fail;

/// Is its copy equal to it? It is let go.
fn is_copied<T: Duplicate + PartialEq>(source: T) -> Result<bool, Fail> {
    Ok(source.duplicate()? == source)
}

#[test]
fn copies_of_steps(rt: HostRuntime) -> Result<(), Fail> {
    let members = Items::new(Vec::from_array(rt.alloc(), [0, 1])?);
    assert!(rt; is_copied(Step::Recover { node: 1, members })?);
    let key = Key::new(rt.alloc(), b"k")?;
    let op = ClientOp::Lock { db: 1, key };
    assert!(rt; is_copied(Step::Client { node: 2, op })?);
    let able = true;
    assert!(rt; is_copied(Step::Able { node: 3, able })?);
    Ok(())
}

#[test]
fn copies_of_lines(rt: HostRuntime) -> Result<(), Fail> {
    let frame = Frame {
        generation: 2,
        sender: 0,
        receiver: 1,
        msg: Msg::Thaw,
    };
    assert!(rt; is_copied(Line::Sent { number: 7, frame })?);
    let answer = Answer::Read(Value::new(rt.alloc(), b"v")?);
    assert!(rt; is_copied(Line::Answered { call: 4, answer })?);
    let note = Note::Thawed(2);
    assert!(rt; is_copied(Line::Noted { node: 1, note })?);
    Ok(())
}

#[test]
fn copies_of_pending_calls(rt: HostRuntime) -> Result<(), Fail> {
    let key = Key::new(rt.alloc(), b"k")?;
    let op = ClientOp::Read { db: 1, key };
    assert!(rt;
        is_copied(PendingCall {
            call: 5,
            node: 1,
            op,
            seq: 3,
        })?
    );
    Ok(())
}
