//! What is due: the least page that asks for something or may be written back, and a run of such pages.
ghost use Rattle.std.specs.Prelude.{◌≡◌, ℕ, ◌+◌, ◌<◌, ◌^◌, ◌==◌, ◌&&◌, nat_lt, true, IfOk, IfSome};
ghost use Rattle.up_num.specs.Span.{covers};
ghost use Rattle.up_model.specs.States.{plain, unclean};
ghost use Rattle.up_model.specs.Size as sizes;
ghost use Rattle.up_model.specs.Pages.{run_of, runs};
ghost use Rattle.up_object.specs.Parts.{shown};
ghost use Rattle.up_claims.specs.Sited.{is_wanted, is_free, goes_with, same_test, least, is_denied};
ghost use Rattle.up_claims.specs.Sited.{is_tight, is_unclean_or_loose};
ghost use Rattle.up_site.specs.Sought.{among_of, test_of, is_zeros};

use crate::imaged::Imaged;
use std::alloc::Global;
use up_claims::Chosen;
use up_disk::Disk;
use up_num::{AskKind, Memory, PageNo, PageRange};
use up_pages::Look;
use up_span::Spans;

// The pages that may be written back.
#[derive(Debug, Drop)]
pub(crate) enum Among {
    All,
    These(Chosen),
}

// What is looked for among the pages of the object.
#[derive(Clone, Copy, Debug)]
pub(crate) enum Sought {
    /// It is asked for reading, and nobody claims it.
    Wanted,
    /// It is asked for to get dirty.
    Trapped,
    /// It may be written back, is unclean, and nobody claims it.
    Free,
    /// It may be written back and is unclean.
    Unclean,
}

impl Among {
    fn has(&self, page: u32) -> bool
        ensures { result ≡ among_of self.now page }
    {
        match self {
            Among::All => true,
            Among::These(set) => set.holds(page),
        }
    }
}

fn is_zeros(look: Look) -> bool
    ensures { result ≡ is_zeros (shown look) }
{
    match look {
        Look::Zero(_) => true,
        _ => false,
    }
}

fn are_none(one: u32, other: u32) -> bool
    ensures { result ≡ ((one == 0) && (other == 0)) }
{
    one == 0 && other == 0
}

fn both(one: bool, other: bool) -> bool
    ensures { result ≡ (one && other) }
{
    one && other
}

fn same_test(one: bool, other: bool) -> bool
    ensures { result ≡ same_test one other }
{
    if one { other } else { !other }
}

impl<D: Disk> Imaged<D> {
    // Whether a page is a zero page.
    #[tactic(auto, using(crate::proofs::Looked::plain_is))]
    pub(crate) fn is_plain(&self, page: u32) -> bool
        ensures { result ≡ plain self.now.whole.birth self.now.whole.journal page }
    {
        is_zeros(self.object.look(PageNo(page)))
    }

    // Whether a page is asked for reading, and nobody claims it.
    fn is_wanted(&self, page: u32) -> bool
        ensures { result ≡ is_wanted self.now.whole.birth self.now.whole.journal page }
    {
        self.object.asked(AskKind::Read, PageNo(page)) && !self.is_claimed(page)
    }

    // Whether a page may be written back, is unclean, and nobody claims it.
    fn is_free(&self, among: &Among, page: u32) -> bool
        ensures { result ≡ is_free self.now.whole.birth self.now.whole.journal (among_of among.now) page }
    {
        among.has(page) && self.object.is_unclean(PageNo(page)) && !self.is_claimed(page)
    }

    fn passes(&self, among: &Among, sought: Sought, page: u32) -> bool
        ensures { result ≡ test_of self.now.whole.birth self.now.whole.journal among.now sought page }
    {
        match sought {
            Sought::Wanted => self.is_wanted(page),
            Sought::Trapped => self.object.asked(AskKind::Dirty, PageNo(page)),
            Sought::Free => self.is_free(among, page),
            Sought::Unclean => among.has(page) && self.object.is_unclean(PageNo(page)),
        }
    }

    // The least page that is looked for.
    #[tactic(auto, using(crate::proofs::Looked::least_step))]
    pub(crate) fn first(&self, among: &Among, sought: Sought) -> Option<u32>
        ensures value { result ≡ least self.now.whole.birth self.now.whole.journal
            (test_of self.now.whole.birth self.now.whole.journal among.now sought) }
        ensures passes { IfSome result (λ p. test_of self.now.whole.birth self.now.whole.journal among.now
            sought p ≡ true) }
        ensures small { IfSome result (λ p. p + 1 < 2 ^ 32) }
    {
        for page in 0..self.object.size() {
            if self.passes(among, sought, page) {
                return Some(page);
            }
        }
        None
    }

    // Whether a page goes with a run that begins with a zero page or not.
    fn goes_on(&self, among: &Among, zero: bool, page: u32) -> bool
        ensures value { result ≡ (is_free self.now.whole.birth self.now.whole.journal (among_of among.now)
            page
            && same_test zero (plain self.now.whole.birth self.now.whole.journal page)) }
        ensures small { result ≡ true → page + 1 < 2 ^ 32 }
    {
        let free = self.is_free(among, page);
        let like = same_test(zero, self.is_plain(page));
        let _ = self.object.size();
        both(free, like)
    }

    // Whether the page behind so many goes with the run too.
    fn runs_on(&self, among: &Among, first: u32, zero: bool, count: u32) -> bool
        requires small { first + count < 2 ^ 32 }
        requires zero { zero ≡ plain self.now.whole.birth self.now.whole.journal first }
        ensures value { result ≡ (nat_lt count 8
            && goes_with self.now.whole.birth self.now.whole.journal (among_of among.now) first (first +
            count)) }
        ensures small { result ≡ true → first + (count + 1) < 2 ^ 32 }
    {
        count < 8 && self.goes_on(among, zero, first + count)
    }

    // The run of at most eight pages that may be written back, from the first on, all zero pages where that
    // is one, or none of them.
    #[tactic(auto, using(crate::proofs::Looked::run_step))]
    pub(crate) fn run_from(&self, among: &Among, first: u32, zero: bool) -> PageRange
        requires small { first + 1 < 2 ^ 32 }
        requires free { is_free self.now.whole.birth self.now.whole.journal (among_of among.now) first ≡
            true }
        requires zero { zero ≡ plain self.now.whole.birth self.now.whole.journal first }
        ensures first { result.first ≡ first }
        ensures count { result.count ≡ run_of (goes_with self.now.whole.birth self.now.whole.journal
            (among_of among.now) first) first 8 }
        ensures all { (p : ℕ) → covers result p ≡ true →
            is_free self.now.whole.birth self.now.whole.journal (among_of among.now) p ≡ true }
    {
        let mut count = 1;
        while self.runs_on(among, first, zero, count) {
            count += 1;
        }
        PageRange { first, count }
    }

    // Whether no page is unclean, and none may be evicted.
    fn is_tight(&self) -> bool
        ensures { result ≡ is_tight self.now.whole.birth self.now.whole.journal
            (least self.now.whole.birth self.now.whole.journal
            (is_unclean_or_loose self.now.whole.birth self.now.whole.journal)) }
    {
        let unclean = self.object.unclean_pages();
        let loose = self.object.loose_pages();
        are_none(unclean, loose)
    }

    // Whether a page that asks is to be failed since no frame can be had.
    pub(crate) fn is_denied(&self, kind: AskKind, page: PageNo) -> bool
        ensures { result ≡ is_denied self.now.whole.birth self.now.whole.journal kind page.0 }
    {
        match kind {
            AskKind::Dirty => self.object.asked(AskKind::Dirty, page),
            AskKind::Read => self.is_wanted(page.0) && self.is_tight(),
        }
    }

    // The unclean pages.
    pub(crate) fn unclean_set(&self, alloc: Global) -> Result<Chosen, Memory>
        ensures { IfOk result (λ set. set ≡ runs (unclean self.now.whole.birth self.now.whole.journal) 0 0
            (sizes.size self.now.whole.birth self.now.whole.journal)) }
    {
        let mut pages = Spans::new(alloc);
        for page in 0..self.object.size() {
            pages.add(page, u32::from(self.object.is_unclean(PageNo(page))))?;
        }
        // Only the fact that runs lie apart is wanted.
        let _ = pages.first_run();
        Ok(Chosen::new(pages))
    }
}
