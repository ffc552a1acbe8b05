//! Scenarios with ample memory, line by line, against texts from outside.
use ct_call::table::CallTable;
use ct_play::session::Session;
use ct_play_text::text::push_what;
use ct_play_text::what::PlayFault;
use ct_values::items::Items;
use ct_values::memory::NoMemory;
use std::alloc::Global;
use std::test::Fail;

// Lines, what they and the calls that wait at the end print, and why the last one is refused; nothing where it is not.
type Case = (&'static [&'static str], &'static str, &'static str);

const SCENARIOS: [Case; 13] = [
    (
        &["nodes 2", "db t volatile", "lock 1 t b", "settle 9"],
        "frame 1 1 0 1 call t b 1 lock\nframe 2 0 0 1 recall t b 0 1 1 lock\nframe 3 0 0 1 give t b 0 -\nframe 4 0 1 1 pass t b 1 0 -\nanswer 1 locked -\n",
        "",
    ),
    (
        &["nodes 2", "db t volatile", "lock 1 t b"],
        "frame 1 1 0 1 call t b 1 lock\npending 1 1 lock t b\n",
        "",
    ),
    (
        &["nodes 2", "ctdb 1 disable", "ctdb 0 status"],
        "Number of nodes:2\npnn:0 OK (THIS NODE)\npnn:1 DISABLED\nGeneration:1\nSize:2\nhash:0 lmaster:0\nhash:1 lmaster:1\nRecovery mode:NORMAL (0)\nLeader:UNKNOWN\n",
        "",
    ),
    (
        &["nodes 2", "db t volatile", "recover 0 0", "recover 1 1"],
        "ticket 2 0\nframe 1 0 0 2 freeze 0\n",
        "lock-held 0",
    ),
    (
        &["nodes 2", "db t volatile", "recover 0 0", "deliver 9"],
        "ticket 2 0\nframe 1 0 0 2 freeze 0\n",
        "no-such-frame 9",
    ),
    (
        &["nodes 2", "ctdb 0 pnn", "db t volatile"],
        "PNN:0\n",
        "order",
    ),
    (
        &[
            "nodes 1",
            "db t volatile",
            "ctdb 0 writekey t b x",
            "ctdb 0 catdb t",
            "walk 9",
        ],
        "answer 1 written\ntframe 1 0 0 1 ask 1 copies\ntframe 2 0 0 1 rows 1 copies 1\ntframe 3 0 0 1 ask 1 entries\ntframe 4 0 0 1 rows 1 entries 1\nkey=b data=x\nDumped 1 records\n",
        "",
    ),
    (
        &[
            "nodes 2",
            "db t volatile",
            "ctdb 1 catdb t",
            "lose 2",
            "stop 1",
            "ctdb 0 catdb t",
        ],
        "tframe 1 1 0 1 ask 1 copies\ntframe 2 1 1 1 ask 1 copies\nstopped 1\ntraverse 1 ended\ntframe 3 0 0 1 ask 2 copies\ntframe 4 0 1 1 ask 2 copies\npending-traverse 2 0 t\n",
        "",
    ),
    (
        &["nodes 1", "db t volatile", "again 1"],
        "",
        "no-such-tframe 1",
    ),
    (&["nodes 1", "db g_lock volatile"], "", "repeat"),
    (&["nodes 2", "ctdb 2 pnn"], "", "no-such-node 2"),
    (
        &["nodes 2", "stop 1", "ctdb 1 pnn"],
        "stopped 1\n",
        "node-down 1",
    ),
    (&["nodes 1", "vacuum 0 t"], "", "no-such-db"),
];

fn add_texts(text: &mut Vec<u8>, texts: &[Items<u8>]) -> Result<(), Fail> {
    for one in texts {
        text.extend_from_slice(one.as_slice())?;
    }
    Ok(())
}

// Plays a line, and adds what it prints. Is it taken? `refused` gets the reason where it is not.
fn takes(
    alloc: Global,
    session: &mut Session,
    table: &CallTable,
    line: &str,
    text: &mut Vec<u8>,
    refused: &mut Vec<u8>,
) -> Result<bool, Fail> {
    match session.play(alloc, table, line.as_bytes()) {
        Ok(texts) => {
            add_texts(text, texts.as_slice())?;
            Ok(true)
        }
        Err(PlayFault::Refused(what)) => {
            push_what(refused, what)?;
            Ok(false)
        }
        Err(PlayFault::NoMemory) => Err(Fail::from(NoMemory)),
    }
}

// Plays lines up to the first that is refused. Are all taken?
fn all_taken(
    alloc: Global,
    session: &mut Session,
    lines: &[&str],
    text: &mut Vec<u8>,
    refused: &mut Vec<u8>,
) -> Result<bool, Fail> {
    let table = CallTable::new(alloc);
    for line in lines {
        if !takes(alloc, session, &table, *line, text, refused)? {
            return Ok(false);
        }
    }
    Ok(true)
}

fn add_pending(alloc: Global, session: &Session, text: &mut Vec<u8>) -> Result<(), Fail> {
    let waiting = session.pending(alloc)?;
    add_texts(text, waiting.as_slice())
}

// Plays lines, and answers what they print. `refused` gets the reason of the one that is refused.
fn played(alloc: Global, lines: &[&str], refused: &mut Vec<u8>) -> Result<Vec<u8>, Fail> {
    let mut session = Session::new(alloc);
    let mut text = Vec::new(alloc);
    if all_taken(alloc, &mut session, lines, &mut text, refused)? {
        add_pending(alloc, &session, &mut text)?;
    }
    Ok(text)
}

#[test]
fn scenarios(rt: HostRuntime) -> Result<(), Fail> {
    let alloc = rt.alloc();
    for (lines, text, what) in &SCENARIOS {
        let mut refused = Vec::new(alloc);
        assert!(rt; played(alloc, *lines, &mut refused)?.as_slice() == text.as_bytes());
        assert!(rt; refused.as_slice() == what.as_bytes());
    }
    Ok(())
}
