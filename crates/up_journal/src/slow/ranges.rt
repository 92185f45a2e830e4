ghost use Rattle.std.specs.Prelude.{◌≡◌, ◌+◌, ◌-◌, ◌<◌, ◌≤◌, ◌^◌, [], ◌∷◌, ◌++◌, cond, length, map, reverse, take, IfOk, OnOk};
ghost use Rattle.up_model.specs.Pages as pages;
ghost use Rattle.up_model.specs.Reply as replies;
ghost use Rattle.up_journal.specs.Tested.{test_of, HasPages, run_after};

use crate::slow::order::{is_loose, is_reclaimable};
use std::alloc::Global;
use up_facts::{has_page, is_plain, is_unclean, loaned, pins, size};
use up_model::{Birth, Entry};
use up_num::{DirtyRange, Items, Memory, PageNo, PageRange, PageSeq, RangeSeq};

/// A test on pages.
#[derive(Clone, Copy)]
pub(crate) enum Test {
    Absent,
    Pinned,
    Unpinned,
    FullOfPins,
    NeedsOwnFrame,
    Loaned,
    LoanedFirm,
    LoanedLoose,
    /// Pinned, and numbered so or above.
    PinnedFrom(u32),
    Reclaimable { newest: u64, limit: u32 },
}

/// A run of pages of one kind that may go on: zero pages, other pages, or pages of neither kind.
#[derive(Clone, Copy)]
pub(crate) struct OpenRun {
    pub(crate) kind: Option<bool>,
    pub(crate) count: u32,
}

impl Test {
    /// Whether a page passes.
    pub(crate) fn holds(&self, birth: &Birth, before: &[Entry], page: u32) -> bool
        ensures { result ≡ test_of birth.now (reverse before.now) self.now page }
    {
        let number = u64::from(page);
        match self {
            Test::Absent => !has_page(birth, before, number),
            Test::Pinned => pins(before, number) != 0,
            Test::Unpinned => pins(before, number) == 0,
            Test::FullOfPins => 31 <= pins(before, number),
            Test::NeedsOwnFrame => is_plain(birth, before, number) || loaned(birth, before, number),
            Test::Loaned => loaned(birth, before, number),
            Test::LoanedFirm => loaned(birth, before, number) && !is_loose(birth, before, page),
            Test::LoanedLoose => loaned(birth, before, number) && is_loose(birth, before, page),
            Test::PinnedFrom(first) => *first <= page && pins(before, number) != 0,
            Test::Reclaimable { newest, limit } => {
                is_reclaimable(birth, before, *newest, *limit, page)
            }
        }
    }
}

/// The first of these pages that passes.
#[tactic(auto, using(crate::proofs::PageRuns::first_step))]
pub(crate) fn first_page(
    birth: &Birth,
    before: &[Entry],
    test: &Test,
    first: u32,
    count: u32,
) -> Option<u32>
    requires { first + count < 2 ^ 32 }
    ensures { result ≡ pages.first_page (test_of birth.now (reverse before.now) test.now) first count }
{
    for place in 0..count {
        let page = first + place;
        if test.holds(birth, before, page) {
            return Some(page);
        }
    }
    None
}

/// How many of these pages pass.
#[tactic(auto, using(crate::proofs::PageRuns::count_step))]
pub(crate) fn count_pages(
    birth: &Birth,
    before: &[Entry],
    test: &Test,
    first: u32,
    count: u32,
) -> u32
    requires { first + count < 2 ^ 32 }
    ensures { result ≡ pages.count_pages (test_of birth.now (reverse before.now) test.now) first count }
{
    let mut found = 0;
    for place in 0..count {
        let passes = test.holds(birth, before, first + place);
        found += one_where(passes);
    }
    found
}

/// One where the test holds.
pub(crate) fn one_where(test: bool) -> u32
    ensures { result ≡ replies.one_where test }
{
    if test { 1 } else { 0 }
}

/// All pages of the object that pass, rising.
#[tactic(auto, using(crate::proofs::PageRuns::list_step))]
pub(crate) fn pages_where(
    alloc: Global,
    birth: &Birth,
    before: &[Entry],
    test: &Test,
) -> Result<Items<u32>, Memory>
    ensures same { IfOk result (λ found. found ≡ replies.pages_where birth.now (reverse before.now) (test_of birth.now (reverse before.now) test.now)) }
    ensures few { IfOk result (λ found. length found < 2 ^ 32) }
{
    let mut found = Items::new(alloc);
    for page in 0..size(birth, before) {
        let passes = test.holds(birth, before, page);
        put_where(&mut found, passes, page)?;
    }
    Ok(found)
}

/// Appends the page where the test holds.
fn put_where(found: &mut Items<u32>, test: bool, page: u32) -> Result<(), Memory>
    ensures same { OnOk result (found.new ≡ cond test (found.old ++ page ∷ []) found.old) }
    ensures few { OnOk result (length found.new ≤ length found.old + 1) }
{
    if test {
        found.push(page).map_err(|failed| failed.0)?;
    }
    Ok(())
}

/// The first of these page numbers, at most so many.
pub(crate) fn numbered(alloc: Global, found: &[u32], most: u32) -> Result<PageSeq, Memory>
    ensures first { IfOk result (λ numbers. numbers ≡ map pages.page_number (take most found.now)) }
    ensures all { length found.now ≤ most → IfOk result (λ numbers. numbers ≡ map pages.page_number found.now) }
{
    let mut numbers = PageSeq::new(alloc);
    let count = found.len().min(most as usize);
    for place in 0..count {
        numbers
            .push(PageNo(found[place]))
            .map_err(|failed| failed.0)?;
    }
    Ok(numbers)
}

/// Which kind of unclean page it is.
fn unclean_kind(birth: &Birth, before: &[Entry], page: u32) -> Option<bool>
    ensures { result ≡ replies.unclean_kind birth.now (reverse before.now) page }
{
    let number = u64::from(page);
    if is_unclean(birth, before, number) {
        Some(is_plain(birth, before, number))
    } else {
        None
    }
}

fn is_same_kind(one: Option<bool>, other: Option<bool>) -> bool
    ensures { result ≡ pages.same_kind_of_page one other }
{
    match (one, other) {
        (None, None) => true,
        (Some(true), Some(true)) => true,
        (Some(false), Some(false)) => true,
        _ => false,
    }
}

/// Ends the run before a page.
fn close_run(list: &mut RangeSeq, page: u32, run: OpenRun) -> Result<(), Memory>
    requires within { run.count ≤ page }
    requires some { HasPages run.kind run.count }
    ensures { OnOk result (list.new ≡ list.old ++ map replies.dirty_run (pages.closed_kind page run.kind run.count)) }
{
    if let Some(zero) = run.kind {
        let range = PageRange {
            first: page - run.count,
            count: run.count,
        };
        list.push(DirtyRange { range, zero })
            .map_err(|failed| failed.0)?;
    }
    Ok(())
}

/// Goes on with the run by a page of this kind, or ends it and begins another.
fn next_run(
    list: &mut RangeSeq,
    page: u32,
    kind: Option<bool>,
    run: OpenRun,
) -> Result<OpenRun, Memory>
    requires within { run.count ≤ page }
    requires below { page < 2 ^ 32 - 1 }
    requires some { HasPages run.kind run.count }
    ensures next { IfOk result (λ longer. longer ≡ run_after kind run) }
    ensures closed { OnOk result (list.new ≡ cond (pages.same_kind_of_page kind run.kind) list.old (list.old ++ map replies.dirty_run (pages.closed_kind page run.kind run.count))) }
{
    if is_same_kind(kind, run.kind) {
        return Ok(OpenRun {
            kind: run.kind,
            count: run.count + 1,
        });
    }
    close_run(list, page, run)?;
    Ok(OpenRun { kind, count: 1 })
}

/// The maximal runs of unclean pages of one kind.
#[tactic(auto, using(crate::proofs::Runs::kinds_step))]
pub(crate) fn unclean_runs(
    alloc: Global,
    birth: &Birth,
    before: &[Entry],
    range: &PageRange,
) -> Result<RangeSeq, Memory>
    ensures same { IfOk result (λ list. list ≡ replies.unclean_runs birth.now (reverse before.now) range.now) }
    ensures few { IfOk result (λ list. length list < 2 ^ 32) }
{
    let mut list = RangeSeq::new(alloc);
    let mut run = OpenRun {
        kind: None,
        count: 0,
    };
    let first = range.first;
    let count = range.count;
    for place in 0..count {
        let page = first + place;
        let kind = unclean_kind(birth, before, page);
        run = next_run(&mut list, page, kind, run)?;
    }
    close_run(&mut list, first + count, run)?;
    Ok(list)
}
