ghost use Rattle.std.specs.Prelude.{◌≡◌, ◌+◌, ◌<◌, ◌^◌};
ghost use Rattle.up_model.specs.Size as sizes;
ghost use Rattle.up_model.specs.Value as values;
ghost use Rattle.up_model.specs.Pins as pinning;
ghost use Rattle.up_model.specs.States as states;
ghost use Rattle.up_model.specs.Looks as looks;
ghost use Rattle.up_model.specs.Pages.{first_page, count_pages};
ghost use Rattle.up_model.specs.Reply as replies;
ghost use Rattle.up_model.specs.Order as orders;
ghost use Rattle.up_object.specs.Parts.{shown};
ghost use Rattle.up_object.specs.Tests.{test_of};

use crate::frame_moves::lacks_own;
use crate::object::Object;
use crate::seating::is_spare;
use up_bank::FrameKind;
use up_num::{AskKind, PageNo, PageRange, PageState};
use up_pages::Look;

/// A test on pages, for which a range is looked through.
#[derive(Clone, Copy)]
pub(crate) enum PageTest {
    Absent,
    Pinned,
    Unpinned,
    FullOfPins,
    NeedsOwnFrame,
    Loaned,
}

/// The first page of a range.
pub fn first_of(range: PageRange) -> u32
    ensures { result ≡ range.first }
{
    range.first
}

/// How many pages a range has.
pub fn count_of(range: PageRange) -> u32
    ensures { result ≡ range.count }
{
    range.count
}

/// The number behind a range's last page.
pub fn end_of(range: PageRange) -> u32
    ensures value { result ≡ range.first + range.count }
    ensures small { range.first + range.count < 2 ^ 32 }
{
    range.first + range.count
}

/// Tells the prover that the number behind a range's last page fits 32 bits.
pub fn has_end(range: PageRange)
    ensures { range.first + range.count < 2 ^ 32 }
{}

fn is_present(look: Look) -> bool
    ensures { result ≡ looks.is_present (shown look) }
{
    match look {
        Look::Absent => false,
        _ => true,
    }
}

fn has_loan(look: Look) -> bool
    ensures { result ≡ looks.has_loan (shown look) }
{
    match look {
        Look::Held(_, FrameKind::Loaned) => true,
        _ => false,
    }
}

fn is_unclean(look: Look) -> bool
    ensures { result ≡ looks.is_unclean (shown look) }
{
    match look {
        Look::Absent | Look::Zero(PageState::Clean) | Look::Held(PageState::Clean, _) => false,
        _ => true,
    }
}

impl Object {
    /// Whether a range ends within the object.
    pub fn has_range(&self, range: PageRange) -> bool
        ensures { result ≡ sizes.range_fits self.now.birth self.now.journal range }
    {
        end_of(range) <= self.size()
    }

    /// Whether a page is there.
    #[tactic(auto, using(crate::proofs::PageLooks::present_is))]
    pub fn has_page(&self, page: PageNo) -> bool
        ensures { result ≡ values.there self.now.birth self.now.journal page.0 }
    {
        is_present(self.look(page))
    }

    /// Whether a page has a loaned frame.
    #[tactic(auto, using(crate::proofs::PageLooks::loan_is))]
    pub fn is_loaned(&self, page: PageNo) -> bool
        ensures { result ≡ pinning.loaned self.now.birth self.now.journal page.0 }
    {
        self.is_legal();
        has_loan(self.look(page))
    }

    /// Whether what a page has isn't written back.
    #[tactic(auto, using(crate::proofs::PageLooks::unclean_is))]
    pub fn is_unclean(&self, page: PageNo) -> bool
        ensures { result ≡ states.unclean self.now.birth self.now.journal page.0 }
    {
        is_unclean(self.look(page))
    }

    /// Whether a pin gives a page a frame of its own.
    #[tactic(auto, using(crate::proofs::PageLooks::own_is))]
    pub fn needs_frame(&self, page: PageNo) -> bool
        ensures { result ≡ replies.needs_own_frame self.now.birth self.now.journal page.0 }
    {
        self.is_legal();
        lacks_own(self.look(page))
    }

    /// Whether a page may be evicted.
    #[tactic(auto, using(crate::proofs::Seats::loose_is))]
    pub fn is_loose(&self, page: PageNo) -> bool
        ensures { result ≡ orders.loose self.now.birth self.now.journal page.0 }
    {
        is_spare(self.look(page))
            && self.pins(page) == 0
            && !self.protected(page)
            && !self.asked(AskKind::Dirty, page)
    }

    fn passes(&self, test: PageTest, page: PageNo) -> bool
        ensures { result ≡ test_of self.now.birth self.now.journal test page.0 }
    {
        match test {
            PageTest::Absent => !self.has_page(page),
            PageTest::Pinned => self.pins(page) != 0,
            PageTest::Unpinned => self.pins(page) == 0,
            PageTest::FullOfPins => 31 <= self.pins(page),
            PageTest::NeedsOwnFrame => self.needs_frame(page),
            PageTest::Loaned => self.is_loaned(page),
        }
    }

    #[tactic(auto, using(crate::proofs::PageSteps::first_step))]
    fn first_where(&self, test: PageTest, first: u32, count: u32) -> Option<u32>
        requires { first + count < 2 ^ 32 }
        ensures { result ≡ first_page (test_of self.now.birth self.now.journal test) first count }
    {
        for place in 0..count {
            let page = first + place;
            if self.passes(test, PageNo(page)) {
                return Some(page);
            }
        }
        None
    }

    #[tactic(auto, using(crate::proofs::PageSteps::count_step))]
    fn count_where(&self, test: PageTest, first: u32, count: u32) -> u32
        requires { first + count < 2 ^ 32 }
        ensures { result ≡ count_pages (test_of self.now.birth self.now.journal test) first count }
    {
        let mut found = 0;
        for place in 0..count {
            let passes = self.passes(test, PageNo(first + place));
            found += one_where(passes);
        }
        found
    }

    /// The first page of a range that isn't there.
    pub fn first_absent(&self, range: PageRange) -> Option<u32>
        ensures { result ≡ replies.first_in (replies.absent self.now.birth self.now.journal) range }
    {
        has_end(range);
        self.first_where(PageTest::Absent, first_of(range), count_of(range))
    }

    /// The first page of a range that has a pin.
    pub fn first_pinned(&self, range: PageRange) -> Option<u32>
        ensures { result ≡ replies.first_in (replies.is_pinned self.now.journal) range }
    {
        has_end(range);
        self.first_where(PageTest::Pinned, first_of(range), count_of(range))
    }

    /// The first page of a range without pins.
    pub fn first_unpinned(&self, range: PageRange) -> Option<u32>
        ensures { result ≡ replies.first_in (replies.is_unpinned self.now.journal) range }
    {
        has_end(range);
        self.first_where(PageTest::Unpinned, first_of(range), count_of(range))
    }

    /// The first page of a range that has as many pins as a page may have.
    pub fn first_full(&self, range: PageRange) -> Option<u32>
        ensures { result ≡ replies.first_in (replies.is_full_of_pins self.now.journal) range }
    {
        has_end(range);
        self.first_where(PageTest::FullOfPins, first_of(range), count_of(range))
    }

    /// How many pages of a range aren't there.
    pub fn count_absent(&self, range: PageRange) -> u32
        ensures { result ≡ replies.count_in (replies.absent self.now.birth self.now.journal) range }
    {
        has_end(range);
        self.count_where(PageTest::Absent, first_of(range), count_of(range))
    }

    /// How many pages of a range have a loaned frame.
    pub fn count_loaned(&self, range: PageRange) -> u32
        ensures { result ≡ replies.count_in (pinning.loaned self.now.birth self.now.journal) range }
    {
        has_end(range);
        self.count_where(PageTest::Loaned, first_of(range), count_of(range))
    }

    /// How many pages of a range a pin gives a frame of their own.
    pub fn count_needing_frames(&self, range: PageRange) -> u32
        ensures { result ≡ replies.count_in (replies.needs_own_frame self.now.birth self.now.journal) range }
    {
        has_end(range);
        self.count_where(PageTest::NeedsOwnFrame, first_of(range), count_of(range))
    }
}

/// One where the test holds.
fn one_where(test: bool) -> u32
    ensures { result ≡ replies.one_where test }
{
    if test { 1 } else { 0 }
}
