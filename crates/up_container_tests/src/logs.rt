use std::test::Fail;
use up_model::{Call, Entry, Log, Reply};

#[test]
fn a_log_ends_in_the_order_of_its_entries(rt: HostRuntime) -> Result<(), Fail> {
    let mut log = Log::new(rt.alloc());
    assert_eq!(rt; log.count(), 0);
    for who in [4, 1] {
        log.room(1)?;
        log.push(Entry {
            who,
            epoch: 0,
            call: Call::Packet,
            reply: Reply::Empty,
        });
    }
    assert_eq!(rt; log.count(), 2);
    let entries = log.end();
    assert_eq!(rt; entries.len(), 2);
    assert_eq!(rt; entries.at(0).who, 4);
    assert_eq!(rt; entries.at(1).who, 1);
    Ok(())
}
