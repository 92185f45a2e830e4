use std::alloc::Global;
use std::test::Fail;
use up_num::{Memory, PageNo, PageSeq};
use up_queues::Queues;

#[derive(Clone, Copy)]
enum Change {
    Used { page: u32, place: u64 },
    Cold { page: u32, place: u64 },
    Dropped { page: u32 },
}

use Change::{Cold, Dropped, Used};

fn use_page(queues: &mut Queues, page: u32, generation: u64, place: u64) -> Result<(), Memory> {
    queues.reserve(1)?;
    queues.used(PageNo(page), generation, place);
    Ok(())
}

// Pages 5, 7 and 9, used in this order in the generations 1, 2 and 3, and then changed.
fn changed(alloc: Global, changes: &[Change]) -> Result<Queues, Memory> {
    let mut queues = Queues::new(alloc);
    use_page(&mut queues, 5, 1, 10)?;
    use_page(&mut queues, 7, 2, 11)?;
    use_page(&mut queues, 9, 3, 12)?;
    for change in changes {
        match *change {
            Used { page, place } => use_page(&mut queues, page, 3, place)?,
            Cold { page, place } => queues.cold(PageNo(page), place),
            Dropped { page } => queues.drop_page(PageNo(page)),
        }
    }
    Ok(queues)
}

// Changes of the three pages, and the pages in order after them.
const ROWS: [(&[Change], &[PageNo]); 13] = [
    (&[], &[PageNo(5), PageNo(7), PageNo(9)]),
    (
        &[Used { page: 5, place: 13 }],
        &[PageNo(7), PageNo(9), PageNo(5)],
    ),
    (
        &[Used { page: 9, place: 13 }],
        &[PageNo(5), PageNo(7), PageNo(9)],
    ),
    // a page that comes late, by its earlier use; one of the same use, by its number
    (
        &[Used { page: 6, place: 9 }],
        &[PageNo(6), PageNo(5), PageNo(7), PageNo(9)],
    ),
    (
        &[Used { page: 6, place: 11 }],
        &[PageNo(5), PageNo(6), PageNo(7), PageNo(9)],
    ),
    // a page that is called cold, behind those called cold before; one that comes late and was called cold
    (
        &[Cold { page: 9, place: 13 }],
        &[PageNo(9), PageNo(5), PageNo(7)],
    ),
    (
        &[Cold { page: 9, place: 13 }, Cold { page: 5, place: 14 }],
        &[PageNo(9), PageNo(5), PageNo(7)],
    ),
    (
        &[
            Cold { page: 9, place: 14 },
            Used { page: 6, place: 9 },
            Cold { page: 6, place: 13 },
        ],
        &[PageNo(6), PageNo(9), PageNo(5), PageNo(7)],
    ),
    (
        &[Cold { page: 9, place: 13 }, Used { page: 9, place: 14 }],
        &[PageNo(5), PageNo(7), PageNo(9)],
    ),
    // the first page goes, the middle one, the last one; one that isn't there
    (&[Dropped { page: 5 }], &[PageNo(7), PageNo(9)]),
    (&[Dropped { page: 7 }], &[PageNo(5), PageNo(9)]),
    (&[Dropped { page: 9 }], &[PageNo(5), PageNo(7)]),
    (
        &[Dropped { page: 6 }, Cold { page: 8, place: 13 }],
        &[PageNo(5), PageNo(7), PageNo(9)],
    ),
];

#[test]
fn pages_stand_in_order(rt: HostRuntime) -> Result<(), Fail> {
    for (changes, pages) in &ROWS {
        let queues = changed(rt.alloc(), changes)?;
        assert_eq!(rt; queues.len(), pages.len());
        let found: PageSeq = queues.oldest(rt.alloc(), 3, 0, 9)?;
        assert!(rt; found.as_slice() == *pages);
    }
    Ok(())
}

// Ages, with page 9 called cold and page 4 used after them all in generation 3: the newest generation, the limit, the
// greatest number of pages, and the pages that are old enough.
const AGES: [(u64, u32, u32, &[PageNo]); 6] = [
    (5, 0, 9, &[PageNo(9), PageNo(5), PageNo(7), PageNo(4)]),
    (5, 3, 9, &[PageNo(9), PageNo(5), PageNo(7)]),
    (5, 4, 9, &[PageNo(9), PageNo(5)]),
    (90, 7, 9, &[PageNo(9), PageNo(5), PageNo(7), PageNo(4)]),
    (90, 8, 9, &[PageNo(9)]),
    (5, 0, 2, &[PageNo(9), PageNo(5)]),
];

#[test]
fn old_pages_are_due(rt: HostRuntime) -> Result<(), Fail> {
    let queues = changed(
        rt.alloc(),
        &[Cold { page: 9, place: 13 }, Used { page: 4, place: 14 }],
    )?;
    for (newest, limit, max, pages) in &AGES {
        let found: PageSeq = queues.oldest(rt.alloc(), *newest, *limit, *max)?;
        assert!(rt; found.as_slice() == *pages);
    }
    Ok(())
}

#[test]
fn a_page_that_is_not_due_hides_none(rt: HostRuntime) -> Result<(), Fail> {
    let mut queues = Queues::new(rt.alloc());
    use_page(&mut queues, 1, 9, 1)?;
    use_page(&mut queues, 2, 4, 2)?;
    let found = queues.oldest(rt.alloc(), 9, 3, 9)?;
    assert!(rt; found.as_slice() == [PageNo(2)].as_slice());
    Ok(())
}
