//! The steps of an actor that has a claim, and the one call that makes each step.
ghost use Rattle.std.specs.Prelude.{◌≡◌, ◌+◌, ◌≤◌, ◌<◌, true, Some, None};
ghost use Rattle.up_num.specs.declared.answers.Code.TheVariants.{Io as IoCode};
ghost use Rattle.up_bank.specs.declared.kind.FrameKind.TheVariants.{Ordinary as OrdinaryKind};
ghost use Rattle.up_model.specs.Reply.{brings};
ghost use Rattle.up_model.specs.declared.entry.Call.TheVariants as calls;
ghost use Rattle.up_model.specs.declared.entry.Brought.TheVariants as brought;
ghost use Rattle.up_object.specs.Parts.{bank_of};
ghost use Rattle.up_object.specs.Change.{AllAre};
ghost use Rattle.up_object.specs.OneCall.{brought_of, frames_of};
ghost use Rattle.up_claims.specs.Claimed.{one_page, claim_of, holds};
ghost use Rattle.up_claims.specs.Sited.{Makes, Tells, Storing, Flushing, delivers, copies, stores};
ghost use Rattle.up_claims.specs.Sited.{finishes, fits};
ghost use Rattle.up_claims.specs.declared.claim.Claim.TheVariants.{Back};
ghost use Rattle.up_num.specs.Pages.{page_number};
ghost use Rattle.up_claims.specs.declared.step.SiteStep.TheVariants as steps;
ghost use Rattle.up_site.specs.declared.stage.Stage.TheVariants.{Fetched as FetchedStage};
ghost use Rattle.up_site.specs.Stages.{stage_at};
ghost use Rattle.up_site.specs.Places.{IsRead, IsCopied, bytes_held};
ghost use Rattle.up_site.specs.Standing.{telling};
ghost use Rattle.up_site.specs.Due.{Answers, BareAnswers};

use crate::answering::{
    BareStep, SiteStepped, delivered, nothing_back, spend, spend_told, stored, with_frames,
    woken_in,
};
use crate::imaged::Imaged;
use crate::tours::Progress;
use std::alloc::Global;
use up_claims::SiteReply;
use up_disk::Disk;
use up_num::{PageNo, PageRange};
use up_object::{By, FramesIn, Stepped};

impl<D: Disk> Imaged<D> {
    // Supplies the page whose block was read.
    fn supply_read(&mut self, alloc: Global, by: By, page: PageNo, frames: FramesIn) -> SiteStepped
        requires read { IsRead self.old.tours by.who page }
        requires held { holds (claim_of self.old.whole.journal by.who) page.0 ≡ true }
        requires brings { brings 1 (brought_of frames) ≡ true }
        requires own { AllAre (bank_of self.old.whole.banks OrdinaryKind) (frames_of frames) }
        ensures answers { Answers (telling D.tells D.count D.blocks D.faults D.lasts D.time D.leaves)
            self.old self.new result by.who by.epoch
            (Makes (calls.Supply (one_page page.0) (bytes_held (stage_at self.old.tours by.who))
            (brought_of frames))) (frames_of frames) }
        ensures once { D.calls self.new.disk ≤ D.calls self.old.disk + 1 }
    {
        self.stands_within(by.who, page);
        let stepped = self.supply_page(alloc, by, page, frames)?;
        let Stepped { reply, back } = stepped;
        let answer = delivered(page, &reply);
        Ok((answer, woken_in(alloc, reply), back))
    }

    // Fails the page whose block could not be read.
    fn fail_unread(&mut self, alloc: Global, by: By, page: PageNo) -> BareStep
        requires stage { stage_at self.old.tours by.who ≡ Some (FetchedStage page None) }
        requires held { holds (claim_of self.old.whole.journal by.who) page.0 ≡ true }
        ensures bare { BareAnswers (telling D.tells D.count D.blocks D.faults D.lasts D.time D.leaves)
            self.old self.new result by.who by.epoch (Makes (calls.Fail
            (one_page page.0) IoCode)) }
        ensures once { D.calls self.new.disk ≤ D.calls self.old.disk + 1 }
    {
        self.stands_within(by.who, page);
        match self.fail_page(alloc, by, page) {
            Ok(stepped) => Ok((SiteReply::Delivered, spend(alloc, stepped))),
            Err(failed) => Err(nothing_back(failed)),
        }
    }

    // Supplies the page that was fetched, or fails it.
    pub(crate) fn deliver(&mut self, alloc: Global, by: By, frames: FramesIn) -> SiteStepped
        requires fits { fits steps.Deliver (claim_of self.old.whole.journal by.who) (brought_of frames) ≡
            true }
        requires own { AllAre (bank_of self.old.whole.banks OrdinaryKind) (frames_of frames) }
        ensures answers { Answers (telling D.tells D.count D.blocks D.faults D.lasts D.time D.leaves)
            self.old self.new result by.who by.epoch
            (delivers (brought_of frames) (bytes_held (stage_at self.old.tours by.who)) (claim_of
            self.old.whole.journal by.who))
            (frames_of frames) }
        ensures once { D.calls self.new.disk ≤ D.calls self.old.disk + 1 }
    {
        match self.progress(by.who) {
            Progress::Read(page) => self.supply_read(alloc, by, page, frames),
            Progress::Unread(page) => {
                self.own_frames(&frames);
                let bare = self.fail_unread(alloc, by, page);
                with_frames(alloc, bare, frames)
            }
            _ => unreachable!(),
        }
    }

    // Copies the bytes that are to be written back.
    pub(crate) fn copy(&mut self, alloc: Global, by: By) -> BareStep
        requires fits { fits steps.Copy (claim_of self.old.whole.journal by.who) brought.Nothing ≡ true }
        ensures bare { BareAnswers (telling D.tells D.count D.blocks D.faults D.lasts D.time D.leaves)
            self.old self.new result by.who by.epoch
            (copies (claim_of self.old.whole.journal by.who)) }
        ensures once { D.calls self.new.disk ≤ D.calls self.old.disk + 1 }
    {
        match self.progress(by.who) {
            Progress::Begun { range, number } => match self.copy_range(alloc, by, range, number) {
                Ok(stepped) => Ok((SiteReply::Copied, spend(alloc, stepped))),
                Err(failed) => Err(nothing_back(failed)),
            },
            _ => unreachable!(),
        }
    }

    // Writes the next page of a copy.
    fn store_next(
        &mut self,
        alloc: Global,
        by: By,
        range: PageRange,
        number: Option<u64>,
        done: u32,
    ) -> BareStep
        requires copied { IsCopied self.old.tours by.who range number done }
        requires claim { claim_of self.old.whole.journal by.who ≡ Some (Back range number true done) }
        requires less { done < range.count }
        ensures bare { BareAnswers (telling D.tells D.count D.blocks D.faults D.lasts D.time D.leaves)
            self.old self.new result by.who by.epoch (Tells (Storing
            (page_number (range.first + done)))) }
        ensures once { D.calls self.new.disk ≤ D.calls self.old.disk + 1 }
    {
        let detached = self.is_detached();
        match self.store_page(alloc, by, range, number, done) {
            Ok((ok, stepped)) => {
                let more = done + 1 < range.count;
                Ok((stored(ok, more, detached), spend_told(alloc, stepped)))
            }
            Err(failed) => Err(nothing_back(failed)),
        }
    }

    // Writes the next page back.
    pub(crate) fn store(&mut self, alloc: Global, by: By) -> BareStep
        requires fits { fits steps.Store (claim_of self.old.whole.journal by.who) brought.Nothing ≡ true }
        ensures bare { BareAnswers (telling D.tells D.count D.blocks D.faults D.lasts D.time D.leaves)
            self.old self.new result by.who by.epoch
            (stores (claim_of self.old.whole.journal by.who)) }
        ensures once { D.calls self.new.disk ≤ D.calls self.old.disk + 1 }
    {
        match self.progress(by.who) {
            Progress::Copied {
                range,
                number,
                stored: done,
            } => self.store_next(alloc, by, range, number, done),
            _ => unreachable!(),
        }
    }

    // Ends the writeback.
    pub(crate) fn finish(&mut self, alloc: Global, by: By) -> BareStep
        requires fits { fits steps.End (claim_of self.old.whole.journal by.who) brought.Nothing ≡ true }
        ensures bare { BareAnswers (telling D.tells D.count D.blocks D.faults D.lasts D.time D.leaves)
            self.old self.new result by.who by.epoch
            (finishes (claim_of self.old.whole.journal by.who)) }
        ensures once { D.calls self.new.disk ≤ D.calls self.old.disk + 1 }
    {
        match self.progress(by.who) {
            Progress::Copied {
                range,
                number,
                stored: _,
            } => match self.end_range(alloc, by, range, number) {
                Ok(stepped) => Ok((SiteReply::Ended, spend(alloc, stepped))),
                Err(failed) => Err(nothing_back(failed)),
            },
            _ => unreachable!(),
        }
    }

    // Syncs the disk.
    pub(crate) fn sync(&mut self, alloc: Global, by: By) -> BareStep
        ensures bare { BareAnswers (telling D.tells D.count D.blocks D.faults D.lasts D.time D.leaves)
            self.old self.new result by.who by.epoch (Tells Flushing) }
        ensures once { D.calls self.new.disk ≤ D.calls self.old.disk + 1 }
    {
        match self.flush(alloc, by) {
            Ok((ok, stepped)) => Ok((SiteReply::Flushed { ok }, spend_told(alloc, stepped))),
            Err(failed) => Err(nothing_back(failed)),
        }
    }
}
