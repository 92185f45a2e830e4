use std::test::Fail;
use up_span::{Run, Runs, Spans};

/// Five pages with a gap of three between them.
fn two_runs(rt: &HostRuntime) -> Result<Spans, Fail> {
    let mut set = Spans::new(rt.alloc());
    set.add(2, 3)?;
    set.add(8, 2)?;
    Ok(set)
}

fn has(runs: &Runs, expected: &[Run]) -> bool {
    runs.as_slice() == expected
}

#[test]
fn neighbours_are_one_run(rt: HostRuntime) -> Result<(), Fail> {
    let mut set = two_runs(&rt)?;
    set.add(5, 3)?;
    assert_eq!(rt; set.first_run(), Some(Run { first: 2, count: 8 }));
    assert!(rt; set.holds(7));
    assert!(rt; !set.holds(1));
    assert!(rt; !set.holds(10));
    Ok(())
}

#[test]
fn a_range_is_taken_out_of_the_middle(rt: HostRuntime) -> Result<(), Fail> {
    let mut set = two_runs(&rt)?;
    set.remove(3, 6)?;
    let outside = set.minus(rt.alloc(), 0, 12)?;
    let expected = [
        Run { first: 0, count: 2 },
        Run { first: 3, count: 6 },
        Run {
            first: 10,
            count: 2,
        },
    ];
    assert!(rt; has(&outside, expected.as_slice()));
    let mut copy = set.copy(rt.alloc())?;
    copy.remove(0, 12)?;
    assert_eq!(rt; copy.first_run(), None);
    assert_eq!(rt; set.first_run(), Some(Run { first: 2, count: 1 }));
    Ok(())
}

#[test]
fn lists_of_runs_keep_their_order(rt: HostRuntime) -> Result<(), Fail> {
    let mut runs = Runs::new(rt.alloc());
    for first in [9, 4] {
        assert!(rt; runs.push(Run { first, count: 1 }).is_ok());
    }
    assert_eq!(rt; runs.len(), 2);
    assert_eq!(rt; runs.at(0).first, 9);
    assert_eq!(rt; runs.pop(), Some(Run { first: 4, count: 1 }));
    Ok(())
}
