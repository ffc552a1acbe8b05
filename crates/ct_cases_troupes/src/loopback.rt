//! Two nodes whose clients write the same record.
use crate::plans::{count_answers, two_writers};
use ct_call::table::CallTable;
use ct_troupe::troupe::Troupe;
use ct_troupe_threads::loopback::{Loopback, TURNS};
use ct_values::client::Answer;
use std::test::Fail;

#[test]
fn two_nodes_write_the_same_record(rt: HostRuntime) -> Result<(), Fail> {
    let alloc = rt.alloc();
    let table = CallTable::new(alloc);
    let plan = two_writers(alloc, 1)?;
    let mut loopback = Loopback::new(&rt, alloc);
    assert!(rt; loopback.journals().is_empty() && loopback.tallies().is_empty());
    loopback.play(alloc, &table, &plan)?;
    let journals = loopback.journals();
    assert_eq!(rt; journals.len(), 2);
    for journal in journals {
        assert_eq!(rt; count_answers(journal, &Answer::Written), 1);
    }
    assert_eq!(rt; loopback.tallies().len(), 2);
    for tally in loopback.tallies() {
        assert_eq!(rt;
            (tally.looks(), tally.endings(), tally.faults()),
            (TURNS, 0, 0)
        );
    }
    Ok(())
}
