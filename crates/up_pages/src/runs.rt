//! The maximal runs of unclean pages of one kind.
ghost use Rattle.std.specs.Prelude.{◌≡◌, ◌+◌, ◌-◌, ◌++◌, ◌<◌, ◌≤◌, ◌^◌, cond, length, map, take, slice_index_or, IfOk, OnOk, None};
ghost use Rattle.up_span.specs.Runs.{closed_kind, kind_runs, same_kind_of_page};
ghost use Rattle.up_pages.specs.Pages.{unclean_kind, dirty_run};
ghost use Rattle.up_pages.specs.Runs.{HasPages, run_after};

use crate::Memory;
use crate::page::Page;
use std::alloc::Global;
use up_num::{DirtyRange, PageRange, RangeSeq};

/// A run of pages of one kind that may go on: zero pages, held ones, or pages of neither kind.
#[derive(Clone, Copy, Debug)]
pub(crate) struct OpenRun {
    pub(crate) kind: Option<bool>,
    pub(crate) count: u32,
}

fn is_same_kind(one: Option<bool>, other: Option<bool>) -> bool
    ensures { result ≡ same_kind_of_page one other }
{
    match (one, other) {
        (None, None) => true,
        (Some(true), Some(true)) => true,
        (Some(false), Some(false)) => true,
        _ => false,
    }
}

// Ends the run before a page.
fn close_run(list: &mut Vec<DirtyRange>, page: u32, run: OpenRun) -> Result<(), Memory>
    requires within { run.count ≤ page }
    requires some { HasPages run.kind run.count }
    ensures { OnOk result (list.new.items ≡ list.old.items ++ map dirty_run (closed_kind page run.kind run.count)) }
{
    if let Some(zero) = run.kind {
        let range = PageRange {
            first: page - run.count,
            count: run.count,
        };
        list.push(DirtyRange { range, zero })?;
    }
    Ok(())
}

// Goes on with the run by a page of this kind, or ends it and begins another.
fn next_run(
    list: &mut Vec<DirtyRange>,
    page: u32,
    kind: Option<bool>,
    run: OpenRun,
) -> Result<OpenRun, Memory>
    requires within { run.count ≤ page }
    requires below { page < 2 ^ 32 - 1 }
    requires some { HasPages run.kind run.count }
    ensures next { IfOk result (λ longer. longer ≡ run_after kind run) }
    ensures closed { OnOk result (list.new.items ≡ cond (same_kind_of_page kind run.kind) list.old.items (list.old.items ++ map dirty_run (closed_kind page run.kind run.count))) }
{
    if is_same_kind(kind, run.kind) {
        return Ok(OpenRun {
            kind: run.kind,
            count: run.count + 1,
        });
    }
    close_run(list, page, run)?;
    Ok(OpenRun { kind, count: 1 })
}

// All runs of a range.
fn all_runs(
    alloc: Global,
    pages: &Vec<Page>,
    first: u32,
    count: u32,
) -> Result<Vec<DirtyRange>, Memory>
    requires within { first + count ≤ length pages.now.items }
    requires below { first + count < 2 ^ 32 }
    ensures same { IfOk result (λ list. list.items ≡ map dirty_run (kind_runs (λ p. unclean_kind (slice_index_or pages.now.items p Page.Absent)) first None 0 count)) }
    ensures few { IfOk result (λ list. length list.items ≤ count) }
{
    let mut list = Vec::new(alloc);
    let mut run = OpenRun {
        kind: None,
        count: 0,
    };
    for place in 0..count {
        let page = first + place;
        let kind = pages[page as usize].unclean_kind();
        run = next_run(&mut list, page, kind, run)?;
    }
    close_run(&mut list, first + count, run)?;
    Ok(list)
}

/// The first `room` of the runs of a range, and how many there are in all.
pub(crate) fn first_runs(
    alloc: Global,
    pages: &Vec<Page>,
    first: u32,
    count: u32,
    room: u32,
) -> Result<(RangeSeq, u32), Memory>
    requires within { first + count ≤ length pages.now.items }
    requires below { first + count < 2 ^ 32 }
    ensures first { IfOk result (λ found. found.0 ≡ take room (map dirty_run (kind_runs (λ p. unclean_kind (slice_index_or pages.now.items p Page.Absent)) first None 0 count))) }
    ensures total { IfOk result (λ found. found.1 ≡ length (map dirty_run (kind_runs (λ p. unclean_kind (slice_index_or pages.now.items p Page.Absent)) first None 0 count))) }
{
    let mut list = all_runs(alloc, pages, first, count)?;
    let total = list.len() as u32;
    list.truncate(room as usize);
    Ok((RangeSeq::from_vec(list), total))
}
