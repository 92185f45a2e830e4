//! The choice of what is due, and the steps that it leads to.
ghost use Rattle.std.specs.Prelude.{◌≡◌, ◌+◌, ◌≤◌, ◌<◌, ◌^◌, true, None};
ghost use Rattle.up_num.specs.Pages.{page_number};
ghost use Rattle.up_num.specs.declared.answers.Code.TheVariants.{NoSpace as NoSpaceCode};
ghost use Rattle.up_bank.specs.declared.kind.FrameKind.TheVariants.{Ordinary as OrdinaryKind};
ghost use Rattle.up_model.specs.declared.entry.Call.TheVariants as calls;
ghost use Rattle.up_object.specs.Parts.{bank_of};
ghost use Rattle.up_object.specs.Change.{AllAre};
ghost use Rattle.up_object.specs.OneCall.{brought_of, frames_of};
ghost use Rattle.up_claims.specs.Claimed.{one_page, claim_of};
ghost use Rattle.up_claims.specs.Sited.{Rests, Makes, Tells, Fetching, is_free, is_wanted, least};
ghost use Rattle.up_claims.specs.Sited.{begins_at, busy_at, granted, picked, picked_from, surveys, denies};
ghost use Rattle.up_site.specs.declared.looking.Among.TheVariants as among;
ghost use Rattle.up_site.specs.declared.looking.Sought.TheVariants as sought;
ghost use Rattle.up_site.specs.Sought.{among_of, test_of};
ghost use Rattle.up_site.specs.Nexts.{picked_pages, next_deed, MayNext};
ghost use Rattle.up_site.specs.Standing.{telling};
ghost use Rattle.up_site.specs.Due.{Answers, BareAnswers};

use crate::answering::{
    BareStep, SiteStepped, granted, nothing_back, spend, spend_told, with_frames, woken_in,
};
use crate::imaged::Imaged;
use crate::looking::{Among, Sought};
use crate::steps::one_page;
use std::alloc::Global;
use up_claims::{Chosen, SiteReply};
use up_disk::Disk;
use up_num::{AskKind, PageNo, Woken};
use up_object::{By, FramesIn, Stepped};

// What is done for a page.
#[derive(Clone, Copy, Debug)]
pub(crate) enum Next {
    /// Its writeback begins.
    Begin(u32),
    Fetch(u32),
    Nothing,
}

impl<D: Disk> Imaged<D> {
    fn next(&self, write_first: bool) -> Next
        ensures value { next_deed self.now.whole.birth self.now.whole.journal result
            ≡ picked_pages self.now.whole.birth self.now.whole.journal write_first }
        ensures may { MayNext self.now.whole.birth self.now.whole.journal result }
    {
        if write_first {
            if let Some(first) = self.first(&Among::All, Sought::Free) {
                return Next::Begin(first);
            }
        }
        if let Some(page) = self.first(&Among::All, Sought::Wanted) {
            return Next::Fetch(page);
        }
        if let Some(first) = self.first(&Among::All, Sought::Free) {
            return Next::Begin(first);
        }
        Next::Nothing
    }

    fn take_next(&mut self, alloc: Global, by: By) -> BareStep
        ensures bare { BareAnswers (telling D.tells D.count D.blocks D.faults D.lasts D.time D.leaves)
            self.old self.new result by.who by.epoch (Makes calls.Packet) }
        ensures once { D.calls self.new.disk ≤ D.calls self.old.disk + 1 }
    {
        match self.take_packet(alloc, by) {
            Ok(stepped) => Ok((SiteReply::Taken, spend(alloc, stepped))),
            Err(failed) => Err(nothing_back(failed)),
        }
    }

    fn fetch_at(&mut self, alloc: Global, by: By, page: u32) -> BareStep
        requires wanted { is_wanted self.old.whole.birth self.old.whole.journal page ≡ true }
        ensures bare { BareAnswers (telling D.tells D.count D.blocks D.faults D.lasts D.time D.leaves)
            self.old self.new result by.who by.epoch (Tells (Fetching
            (page_number page))) }
        ensures once { D.calls self.new.disk ≤ D.calls self.old.disk + 1 }
    {
        let page = PageNo(page);
        match self.fetch(alloc, by, page) {
            Ok((ok, stepped)) => Ok((SiteReply::Fetched { page, ok }, spend_told(alloc, stepped))),
            Err(failed) => Err(nothing_back(failed)),
        }
    }

    // Begins the writeback of the run from a page on.
    fn begin_at(&mut self, alloc: Global, by: By, among: &Among, first: u32) -> BareStep
        requires none { claim_of self.old.whole.journal by.who ≡ None }
        requires free { is_free self.old.whole.birth self.old.whole.journal (among_of among.now) first ≡
            true }
        requires small { first + 1 < 2 ^ 32 }
        ensures bare { BareAnswers (telling D.tells D.count D.blocks D.faults D.lasts D.time D.leaves)
            self.old self.new result by.who by.epoch
            (begins_at self.old.whole.birth self.old.whole.journal (among_of among.now) first) }
        ensures once { D.calls self.new.disk ≤ D.calls self.old.disk + 1 }
    {
        self.stands_free(by.who);
        let zero = self.is_plain(first);
        let range = self.run_from(among, first, zero);
        match self.begin_run(alloc, by, range, zero) {
            Ok(stepped) => Ok((SiteReply::Claimed(range), spend(alloc, stepped))),
            Err(failed) => Err(nothing_back(failed)),
        }
    }

    // Lets a page get dirty.
    fn grant_at(&mut self, alloc: Global, by: By, page: u32, frames: FramesIn) -> SiteStepped
        requires small { page + 1 < 2 ^ 32 }
        requires own { AllAre (bank_of self.old.whole.banks OrdinaryKind) (frames_of frames) }
        ensures answers { Answers (telling D.tells D.count D.blocks D.faults D.lasts D.time D.leaves)
            self.old self.new result by.who by.epoch
            (Makes (calls.Dirty (one_page page) (brought_of frames))) (frames_of frames) }
        ensures once { D.calls self.new.disk ≤ D.calls self.old.disk + 1 }
    {
        let stepped = self.grant(alloc, by, one_page(PageNo(page)), frames)?;
        let Stepped { reply, back } = stepped;
        let answer = granted(page, &reply);
        Ok((answer, woken_in(alloc, reply), back))
    }

    fn pick_pages(&mut self, alloc: Global, by: By, write_first: bool) -> BareStep
        requires none { claim_of self.old.whole.journal by.who ≡ None }
        ensures bare { BareAnswers (telling D.tells D.count D.blocks D.faults D.lasts D.time D.leaves)
            self.old self.new result by.who by.epoch
            (picked_pages self.old.whole.birth self.old.whole.journal write_first) }
        ensures once { D.calls self.new.disk ≤ D.calls self.old.disk + 1 }
    {
        match self.next(write_first) {
            Next::Begin(first) => self.begin_at(alloc, by, &Among::All, first),
            Next::Fetch(page) => self.fetch_at(alloc, by, page),
            Next::Nothing => {
                let detached = self.is_detached();
                Ok((SiteReply::Idle { detached }, Woken::new(alloc)))
            }
        }
    }

    // Does what is most urgent.
    pub(crate) fn pick(
        &mut self,
        alloc: Global,
        by: By,
        write_first: bool,
        frames: FramesIn,
    ) -> SiteStepped
        requires none { claim_of self.old.whole.journal by.who ≡ None }
        requires own { AllAre (bank_of self.old.whole.banks OrdinaryKind) (frames_of frames) }
        ensures answers { Answers (telling D.tells D.count D.blocks D.faults D.lasts D.time D.leaves)
            self.old self.new result by.who by.epoch
            (picked self.old.whole.birth self.old.whole.journal (brought_of frames) write_first) (frames_of
            frames) }
        ensures once { D.calls self.new.disk ≤ D.calls self.old.disk + 1 }
    {
        self.own_frames(&frames);
        if self.has_packet() {
            let bare = self.take_next(alloc, by);
            return with_frames(alloc, bare, frames);
        }
        if let Some(page) = self.first(&Among::All, Sought::Trapped) {
            return self.grant_at(alloc, by, page, frames);
        }
        let bare = self.pick_pages(alloc, by, write_first);
        with_frames(alloc, bare, frames)
    }

    // The claim over the least unclean page of a set, or that none is unclean.
    fn busy_or_clear(&self, among: &Among) -> SiteReply
        ensures { busy_at self.now.whole.journal (least self.now.whole.birth self.now.whole.journal
            (test_of self.now.whole.birth self.now.whole.journal among.now sought.Unclean)) ≡ Rests result }
    {
        let Some(page) = self.first(among, Sought::Unclean) else {
            return SiteReply::Clear;
        };
        match self.claim_over(page) {
            Some(range) => SiteReply::Busy(range),
            None => SiteReply::Clear,
        }
    }

    // Begins a writeback of some of these pages.
    pub(crate) fn pick_from(&mut self, alloc: Global, by: By, set: Chosen) -> BareStep
        requires none { claim_of self.old.whole.journal by.who ≡ None }
        ensures bare { BareAnswers (telling D.tells D.count D.blocks D.faults D.lasts D.time D.leaves)
            self.old self.new result by.who by.epoch
            (picked_from self.old.whole.birth self.old.whole.journal set) }
        ensures once { D.calls self.new.disk ≤ D.calls self.old.disk + 1 }
    {
        let among = Among::These(set);
        if let Some(first) = self.first(&among, Sought::Free) {
            return self.begin_at(alloc, by, &among, first);
        }
        let answer = self.busy_or_clear(&among);
        Ok((answer, Woken::new(alloc)))
    }

    // Says which pages are unclean.
    pub(crate) fn survey(&mut self, alloc: Global, by: By) -> BareStep
        ensures bare { BareAnswers (telling D.tells D.count D.blocks D.faults D.lasts D.time D.leaves)
            self.old self.new result by.who by.epoch
            (surveys self.old.whole.birth self.old.whole.journal) }
        ensures once { D.calls self.new.disk ≤ D.calls self.old.disk + 1 }
    {
        let found = self.unclean_set(alloc)?;
        Ok((SiteReply::Surveyed(found), Woken::new(alloc)))
    }

    // Fails a page for which no frame can be had.
    fn deny_at(&mut self, alloc: Global, by: By, page: PageNo) -> BareStep
        requires none { claim_of self.old.whole.journal by.who ≡ None }
        requires small { page.0 + 1 < 2 ^ 32 }
        ensures bare { BareAnswers (telling D.tells D.count D.blocks D.faults D.lasts D.time D.leaves)
            self.old self.new result by.who by.epoch (Makes (calls.Fail
            (one_page page.0) NoSpaceCode)) }
        ensures once { D.calls self.new.disk ≤ D.calls self.old.disk + 1 }
    {
        self.stands_free(by.who);
        match self.deny(alloc, by, page) {
            Ok(stepped) => Ok((SiteReply::Passed, spend(alloc, stepped))),
            Err(failed) => Err(nothing_back(failed)),
        }
    }

    // Fails such a page where it still asks.
    pub(crate) fn deny_page(
        &mut self,
        alloc: Global,
        by: By,
        kind: AskKind,
        page: PageNo,
    ) -> BareStep
        requires none { claim_of self.old.whole.journal by.who ≡ None }
        ensures bare { BareAnswers (telling D.tells D.count D.blocks D.faults D.lasts D.time D.leaves)
            self.old self.new result by.who by.epoch
            (denies self.old.whole.birth self.old.whole.journal kind page.0) }
        ensures once { D.calls self.new.disk ≤ D.calls self.old.disk + 1 }
    {
        if !self.is_denied(kind, page) {
            return Ok((SiteReply::Passed, Woken::new(alloc)));
        }
        self.stands_denied(kind, page);
        self.deny_at(alloc, by, page)
    }
}
