ghost use Rattle.std.specs.Prelude.{◌≡◌, ◌+◌, ◌<◌, ◌^◌, false, IfOk, OnOk};

use std::test::Fail;
use up_asks::{Asks, Event, Waiter};
use up_num::{AskKind, Bytes, Code, Memory, Outcome, Packet, PageNo, PageRange};

fn reading(rt: &HostRuntime, page: u32) -> Waiter {
    Waiter {
        write: false,
        off: u64::from(page) * 4096,
        bytes: Bytes::new(rt.alloc()),
        len: 1,
        last: PageNo(page),
    }
}

fn pages(first: u32, count: u32) -> PageRange
    requires some { 0 < count }
    requires below { first + count < 2 ^ 32 }
    ensures { result ≡ record { first = first; count = count } }
{
    PageRange { first, count }
}

/// Three who wait: for pages 2 to 5 and 0 to 7 to be read, and to make page 4 dirty.
fn three_asks(rt: &HostRuntime) -> Result<Asks, Fail>
    ensures open { IfOk result (λ asks. asks.closed ≡ false) }
{
    let mut asks = Asks::new(rt.alloc())?;
    park(rt, &mut asks, 1, AskKind::Read, pages(2, 4))?;
    park(rt, &mut asks, 2, AskKind::Read, pages(0, 8))?;
    park(rt, &mut asks, 3, AskKind::Dirty, pages(4, 1))?;
    Ok(asks)
}

fn park(
    rt: &HostRuntime,
    asks: &mut Asks,
    who: u32,
    kind: AskKind,
    range: PageRange,
) -> Result<(u64, u32), Memory>
    requires open { asks.old.closed ≡ false }
    ensures open { OnOk result (asks.new.closed ≡ false) }
{
    let piece = reading(rt, range.first);
    asks.ask(rt.alloc(), who, kind, range, piece)
        .map_err(|failed| failed.0)
}

#[test]
fn a_later_ask_sends_what_is_not_asked_yet(rt: HostRuntime) -> Result<(), Fail> {
    let mut asks = three_asks(&rt)?;
    assert_eq!(rt;
        park(&rt, &mut asks, 1, AskKind::Read, pages(7, 3))?,
        (3, 1)
    );
    assert_eq!(rt; asks.untaken(), 5);
    assert_eq!(rt; asks.next_packet(), Some(Packet::Read(pages(2, 4))));
    let sent = [
        Packet::Read(pages(2, 4)),
        Packet::Read(pages(0, 2)),
        Packet::Read(pages(6, 2)),
        Packet::Dirty(pages(4, 1)),
        Packet::Read(pages(8, 2)),
    ];
    for packet in sent {
        assert_eq!(rt; asks.packet(), Some(packet));
    }
    assert_eq!(rt; asks.next_packet(), None);
    assert_eq!(rt; asks.packet(), None);
    assert!(rt; asks.asked(AskKind::Read, PageNo(7)));
    assert!(rt; !asks.asked(AskKind::Dirty, PageNo(5)));
    Ok(())
}

#[test]
fn events_fix_those_who_wait_for_their_pages(rt: HostRuntime) -> Result<(), Fail> {
    let mut asks = three_asks(&rt)?;
    let events = [
        Event {
            kind: AskKind::Read,
            range: pages(0, 2),
            outcome: Outcome::Freed,
        },
        Event {
            kind: AskKind::Dirty,
            range: pages(3, 2),
            outcome: Outcome::Failed(Code::Io),
        },
    ];
    let woken = asks.resolve(rt.alloc(), events.as_slice())?;
    assert!(rt; woken.as_slice() == [1, 2].as_slice());
    assert_eq!(rt; asks.holder(2), Some(3));
    assert_eq!(rt; asks.outcome(2), Outcome::Failed(Code::Io));
    assert!(rt; asks.waiter(2).last == PageNo(4));
    let failed = asks.spend(2);
    assert_eq!(rt; failed.off, 16384);
    assert_eq!(rt; asks.holder(2), None);
    assert!(rt; !asks.asked(AskKind::Read, PageNo(1)));
    assert!(rt; asks.asked(AskKind::Read, PageNo(2)));
    Ok(())
}

#[test]
fn closing_detaches_who_still_waits(rt: HostRuntime) -> Result<(), Fail> {
    let mut asks = three_asks(&rt)?;
    assert_eq!(rt; asks.count_waiting(), 3);
    assert_eq!(rt; asks.close(), 3);
    assert_eq!(rt; asks.close(), 0);
    assert_eq!(rt; asks.count(), 3);
    assert_eq!(rt; asks.untaken(), 5);
    assert!(rt; !asks.asked(AskKind::Read, PageNo(2)));
    Ok(())
}
