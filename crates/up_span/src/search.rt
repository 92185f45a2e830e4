//! Where a page stands among runs that lie apart.
ghost use Rattle.std.specs.Prelude.{◌≡◌, ◌+◌, ◌<◌, ◌≤◌, max, min, length, slice_get, take, drop, Some};
ghost use Rattle.up_span.specs.Sets.{Apart, AreSpans, end_of};
ghost use Rattle.up_span.specs.Parts.{start_in, stop_in, before_place};
ghost use Rattle.up_span.specs.declared.run.Run.{Run as RunValue};

use crate::run::Run;

/// The run at this place.
pub(crate) fn run_at(runs: &Vec<Run>, place: usize) -> Run
    requires within { place < length runs.now.items }
    ensures { slice_get runs.now.items place ≡ Some result }
{
    runs[place]
}

/// The page behind the run at this place.
pub(crate) fn end_at(runs: &Vec<Run>, place: usize) -> u32
    requires spans { AreSpans runs.now.items }
    requires within { place < length runs.now.items }
    ensures { (run : RunValue) → slice_get runs.now.items place ≡ Some run → result ≡ run.first + run.count }
{
    let run = run_at(runs, place);
    run.first + run.count
}

/// How many runs end before this page or with the page before it.
pub(crate) fn ended_by(runs: &Vec<Run>, page: u32) -> usize
    requires spans { AreSpans runs.now.items }
    ensures within { result ≤ length runs.now.items }
    ensures before { end_of 0 (take result runs.now.items) ≤ page + 1 }
    ensures after { (run : RunValue) → slice_get runs.now.items result ≡ Some run → page < run.first + run.count }
{
    let mut low = 0;
    let mut high = runs.len();
    while low < high {
        let middle = low + (high - low) / 2;
        if end_at(runs, middle) <= page {
            low = middle + 1;
        } else {
            high = middle;
        }
    }
    low
}

/// How many runs end more than a page before this one.
pub(crate) fn apart_from(runs: &Vec<Run>, page: u32) -> usize
    requires spans { AreSpans runs.now.items }
    ensures within { result ≤ length runs.now.items }
    ensures before { end_of 0 (take result runs.now.items) ≤ page }
    ensures after { (run : RunValue) → slice_get runs.now.items result ≡ Some run → page ≤ run.first + run.count }
{
    if page == 0 {
        0
    } else {
        ended_by(runs, page - 1)
    }
}

/// How many runs begin before this page or with it.
pub(crate) fn begun_by(runs: &Vec<Run>, page: u32) -> usize
    requires spans { AreSpans runs.now.items }
    ensures within { result ≤ length runs.now.items }
    ensures before { (run : RunValue) → before_place runs.now.items result ≡ Some run → run.first ≤ page }
    ensures after { Apart (page + 1) (drop result runs.now.items) }
{
    let mut low = 0;
    let mut high = runs.len();
    while low < high {
        let middle = low + (high - low) / 2;
        if run_at(runs, middle).first <= page {
            low = middle + 1;
        } else {
            high = middle;
        }
    }
    low
}

/// Where the run at this place starts, or the page where that comes first or there is no run.
pub(crate) fn start_at(runs: &Vec<Run>, place: usize, page: u32) -> u32
    ensures { result ≡ start_in (slice_get runs.now.items place) page }
{
    if place < runs.len() {
        run_at(runs, place).first.min(page)
    } else {
        page
    }
}

/// Where the run before this place ends, or the page where that comes later or there is no run.
pub(crate) fn stop_before(runs: &Vec<Run>, place: usize, page: u32) -> u32
    requires spans { AreSpans runs.now.items }
    requires within { place ≤ length runs.now.items }
    ensures { result ≡ stop_in (before_place runs.now.items place) page }
{
    if place > 0 {
        end_at(runs, place - 1).max(page)
    } else {
        page
    }
}
