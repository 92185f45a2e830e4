//! Pages from one on and before another, which may be none, and the change of a list of runs by them.
ghost use Rattle.std.specs.Prelude.{◌≡◌, ◌+◌, ◌-◌, ◌<◌, ◌≤◌, [], ◌∷◌, ◌++◌, nat_le, take, drop, vec_len, OnOk};
ghost use Rattle.std.specs.Vec.{vec_capacity};
ghost use Rattle.up_span.specs.Runs.{closed};

use crate::Memory;
use crate::run::Run;
use crate::runs::Runs;

/// The pages from `from` on and before `to`: none where `to` isn't the later one.
#[derive(Clone, Copy, Debug)]
pub(crate) struct Stretch {
    pub(crate) from: u32,
    pub(crate) to: u32,
}

impl Stretch {
    fn is_empty(&self) -> bool
        ensures { result ≡ nat_le self.now.to self.now.from }
    {
        self.to <= self.from
    }

    fn run(&self) -> Run
        requires { self.now.from < self.now.to }
        ensures { closed self.now.to (self.now.to - self.now.from) ≡ result ∷ [] }
    {
        Run {
            first: self.from,
            count: self.to - self.from,
        }
    }
}

/// Appends the pages as a run, if there are any.
pub(crate) fn push_stretch(runs: &mut Runs, pages: Stretch) -> Result<(), Memory>
    ensures { OnOk result (runs.new ≡ runs.old ++ closed pages.to (pages.to - pages.from)) }
{
    if pages.is_empty() {
        return Ok(());
    }
    runs.push(pages.run()).map_err(|failed| failed.0)
}

/// Puts the pages in at a place as a run, if there are any.
fn insert_stretch(runs: &mut Vec<Run>, place: usize, pages: Stretch)
    requires within { place ≤ vec_len runs.old }
    requires room { vec_len runs.old < vec_capacity runs.old }
    ensures items { runs.new.items ≡ take place runs.old.items ++ (closed pages.to (pages.to - pages.from) ++ drop place runs.old.items) }
    ensures len { vec_len runs.new ≤ vec_len runs.old + 1 }
    ensures longer { vec_len runs.old ≤ vec_len runs.new }
    ensures none { pages.to ≤ pages.from → vec_len runs.new ≡ vec_len runs.old }
    ensures capacity { vec_capacity runs.old ≤ vec_capacity runs.new }
{
    if pages.is_empty() {
        return;
    }
    match runs.insert(place, pages.run()) {
        Ok(()) => (),
        Err(_) => unreachable!(),
    }
}

/// Takes the runs from one place on and before another out.
fn close_gap(runs: &mut Vec<Run>, low: usize, high: usize)
    requires order { low ≤ high }
    requires within { high ≤ vec_len runs.old }
    ensures items { runs.new.items ≡ take low runs.old.items ++ drop high runs.old.items }
    ensures len { vec_len runs.new + (high - low) ≡ vec_len runs.old }
    ensures capacity { vec_capacity runs.new ≡ vec_capacity runs.old }
{
    let len = runs.len();
    runs.copy_within(high..len, low);
    runs.truncate(len - (high - low));
}

/// Puts pages in place of the runs from one place on and before another. There is room for one run more.
pub(crate) fn put_between(
    runs: &mut Vec<Run>,
    low: usize,
    high: usize,
    left: Stretch,
    right: Stretch,
)
    requires order { low ≤ high }
    requires within { high ≤ vec_len runs.old }
    requires room { vec_len runs.old < vec_capacity runs.old }
    requires few { right.from < right.to → low < high }
    ensures items { runs.new.items ≡ take low runs.old.items
        ++ (closed left.to (left.to - left.from) ++ (closed right.to (right.to - right.from) ++ drop high runs.old.items)) }
    ensures room { vec_capacity runs.old - vec_len runs.old ≤ vec_capacity runs.new - vec_len runs.new + 1 }
{
    close_gap(runs, low, high);
    insert_stretch(runs, low, right);
    insert_stretch(runs, low, left);
}
