//! Which pages are claimed, and by which range.
ghost use Rattle.std.specs.Prelude.{◌≡◌, ◌+◌, ◌<◌, ◌^◌, Some, true};
ghost use Rattle.up_num.specs.Span.{covers};
ghost use Rattle.up_claims.specs.Claimed.{claimed_range, holds};
ghost use Rattle.up_claims.specs.Listed.{held_by, over_by, claimed, claim_over};
ghost use Rattle.up_site.specs.Stages.{held_in, claim_in};

use crate::imaged::Imaged;
use crate::stage::{Stage, Tour};
use crate::steps::one_page;
use up_disk::Disk;
use up_num::PageRange;

fn covers(range: PageRange, page: u32) -> bool
    ensures { result ≡ covers range page }
{
    range.first <= page && page < range.first + range.count
}

// Whether a stage claims a page.
fn has_page(stage: &Stage, page: u32) -> bool
    ensures { result ≡ holds (Some (claim_in stage.now)) page }
{
    match stage {
        Stage::Fetched {
            page: own,
            block: _,
        } => own.0 == page,
        Stage::Begun { range, number: _ } => covers(*range, page),
        Stage::Copied {
            range,
            number: _,
            bytes: _,
            stored: _,
        } => covers(*range, page),
    }
}

// The pages that a stage claims, of which this is one.
fn range_of(stage: &Stage, page: u32) -> PageRange
    requires has { holds (Some (claim_in stage.now)) page ≡ true }
    requires small { page + 1 < 2 ^ 32 }
    ensures { Some result ≡ claimed_range (Some (claim_in stage.now)) }
{
    match stage {
        Stage::Fetched {
            page: own,
            block: _,
        } => one_page(*own),
        Stage::Begun { range, number: _ } => *range,
        Stage::Copied {
            range,
            number: _,
            bytes: _,
            stored: _,
        } => *range,
    }
}

fn is_held(tours: &Vec<Tour>, page: u32) -> bool
    ensures { result ≡ held_by (held_in tours.now.items) page }
{
    let mut place = 0;
    while place < tours.len() {
        if has_page(&tours[place].stage, page) {
            return true;
        }
        place += 1;
    }
    false
}

fn range_over(tours: &Vec<Tour>, page: u32) -> Option<PageRange>
    requires small { page + 1 < 2 ^ 32 }
    ensures { result ≡ over_by (held_in tours.now.items) page }
{
    let mut place = 0;
    while place < tours.len() {
        if has_page(&tours[place].stage, page) {
            return Some(range_of(&tours[place].stage, page));
        }
        place += 1;
    }
    None
}

impl<D: Disk> Imaged<D> {
    // Whether an actor claims the page.
    pub(crate) fn is_claimed(&self, page: u32) -> bool
        ensures { result ≡ claimed self.now.whole.journal page }
    {
        is_held(&self.tours, page)
    }

    // The pages of the claim that has the page.
    pub(crate) fn claim_over(&self, page: u32) -> Option<PageRange>
        requires small { page + 1 < 2 ^ 32 }
        ensures { result ≡ claim_over self.now.whole.journal page }
    {
        range_over(&self.tours, page)
    }
}
