//! The one call that makes each step of the sample pager.
ghost use Rattle.std.specs.Prelude.{◌≡◌, ◌+◌, ◌≤◌, true, is_some, IfOk, IfErr, OnErr};
ghost use Rattle.up_bank.specs.declared.kind.FrameKind.{FrameKind as FrameKindValue};
ghost use Rattle.up_bank.specs.declared.kind.FrameKind.TheVariants.{Ordinary as OrdinaryKind};
ghost use Rattle.up_pages.specs.Frames.{count_kind};
ghost use Rattle.up_object.specs.Parts.{bank_of};
ghost use Rattle.up_object.specs.Change.{AllAre, AllOwn};
ghost use Rattle.up_object.specs.Whole.{held};
ghost use Rattle.up_object.specs.OneCall.{brought_of, frames_of};
ghost use Rattle.up_claims.specs.Claimed.{claim_of};
ghost use Rattle.up_claims.specs.Sited.{deed_of, fits};
ghost use Rattle.up_site.specs.Stages.{stage_at};
ghost use Rattle.up_site.specs.Places.{bytes_held};
ghost use Rattle.up_site.specs.Hosted.{start_of};
ghost use Rattle.up_site.specs.Steps.{tours_of, bytes_with, TouchesDisk, StopsWithin, BlocksAfter, CallsOnce, is_bare};
ghost use Rattle.up_site.specs.Standing.{telling};
ghost use Rattle.up_site.specs.Due.{Did, Answers, BareAnswers};

use crate::answering::{BareStep, SiteStepped, with_frames};
use crate::hosting::Hosting;
use crate::imaged::Imaged;
use crate::site::Site;
use std::alloc::Global;
use up_claims::SiteStep;
use up_disk::Disk;
use up_model::Brought;
use up_object::{By, FramesIn};

impl<D: Disk> Imaged<D> {
    // Makes a step that takes no frames.
    fn bare_step(&mut self, alloc: Global, by: By, step: SiteStep, brought: Brought) -> BareStep
        requires bare { is_bare step ≡ true }
        requires fits { fits step (claim_of self.old.whole.journal by.who) brought ≡ true }
        ensures bare { BareAnswers (telling D.tells D.count D.blocks D.faults D.lasts D.time D.leaves)
            self.old self.new result by.who by.epoch
            (deed_of self.old.whole.birth self.old.whole.journal by.who brought (bytes_held (stage_at
            self.old.tours by.who)) step) }
        ensures once { D.calls self.new.disk ≤ D.calls self.old.disk + 1 }
    {
        match step {
            SiteStep::Survey => self.survey(alloc, by),
            SiteStep::PickFrom(set) => self.pick_from(alloc, by, set),
            SiteStep::Copy => self.copy(alloc, by),
            SiteStep::Store => self.store(alloc, by),
            SiteStep::End => self.finish(alloc, by),
            SiteStep::Deny { kind, page } => self.deny_page(alloc, by, kind, page),
            SiteStep::Flush => self.sync(alloc, by),
            _ => unreachable!(),
        }
    }

    fn make_step(&mut self, alloc: Global, by: By, step: SiteStep, frames: FramesIn) -> SiteStepped
        requires fits { fits step (claim_of self.old.whole.journal by.who) (brought_of frames) ≡ true }
        requires own { AllAre (bank_of self.old.whole.banks OrdinaryKind) (frames_of frames) }
        ensures answers { Answers (telling D.tells D.count D.blocks D.faults D.lasts D.time D.leaves)
            self.old self.new result by.who by.epoch
            (deed_of self.old.whole.birth self.old.whole.journal by.who (brought_of frames)
            (bytes_held (stage_at self.old.tours by.who)) step) (frames_of frames) }
        ensures once { D.calls self.new.disk ≤ D.calls self.old.disk + 1 }
    {
        self.own_frames(&frames);
        let brought = frames.brought();
        match step {
            SiteStep::Pick { write_first } => self.pick(alloc, by, write_first, frames),
            SiteStep::Deliver => self.deliver(alloc, by, frames),
            other => {
                let bare = self.bare_step(alloc, by, other, brought);
                with_frames(alloc, bare, frames)
            }
        }
    }
}

impl<D: Disk> Site<D> {
    /// Makes a step of the sample pager, or of a user's sync, on an object over its disk. An actor's claim,
    /// by the journal, says which steps it may make. The answer says whether a call on the disk went well.
    /// After want of memory the disk may have been read, or the next page of a copy may have been written:
    /// it counts as not stored, and the step may be made again.
    pub fn site_step(
        &mut self,
        alloc: Global,
        who: u32,
        epoch: u64,
        step: SiteStep,
        frames: FramesIn,
    ) -> SiteStepped
        requires image { is_some self.old.image ≡ true }
        requires fits { fits step (claim_of self.old.whole.journal who) (brought_of frames) ≡ true }
        requires own { AllAre (bank_of self.old.whole.banks OrdinaryKind) (frames_of frames) }
        ensures did { IfOk result (λ r. Did self.old.whole self.new.whole who epoch
            (deed_of self.old.whole.birth self.old.whole.journal who (brought_of frames) (bytes_with
            self.old.image who) step) r.0 r.1) }
        ensures disk { IfOk result (λ r. TouchesDisk D.faults
            (deed_of self.old.whole.birth self.old.whole.journal who (brought_of frames) (bytes_with
            self.old.image who) step)
            r.0 self.old.image self.new.image) }
        ensures within { StopsWithin (telling D.tells D.count D.blocks D.faults D.lasts D.time D.leaves)
            (deed_of self.old.whole.birth self.old.whole.journal who (brought_of frames) (bytes_with
            self.old.image who) step)
            self.old.image self.new.image }
        ensures frames { IfOk result (λ r. (kind : FrameKindValue) →
            count_kind kind r.2.items + held self.new.whole.birth self.new.whole.journal kind
            ≡ count_kind kind (frames_of frames) + held self.old.whole.birth self.old.whole.journal kind) }
        ensures own { IfOk result (λ r. AllOwn self.old.whole.banks r.2.items) }
        ensures once { CallsOnce D.calls self.old.image self.new.image }
        ensures start { start_of self.new.image ≡ start_of self.old.image }
        ensures same { OnErr result (self.new.whole ≡ self.old.whole) }
        ensures kept { OnErr result (tours_of self.new.image ≡ tours_of self.old.image) }
        ensures left { OnErr result (BlocksAfter (telling D.tells D.count D.blocks D.faults D.lasts D.time
            D.leaves)
            (deed_of self.old.whole.birth self.old.whole.journal who (brought_of frames) (bytes_with
            self.old.image who) step)
            who self.old.image self.new.image) }
        ensures back { IfErr result (λ failed. failed.1.items ≡ frames_of frames) }
    {
        let by = By { who, epoch };
        match &mut self.hosting {
            Hosting::Plain(_) => unreachable!(),
            Hosting::OverDisk(imaged) => imaged.make_step(alloc, by, step, frames),
        }
    }
}
