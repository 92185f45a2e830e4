//! The steps of the sample pager, one by one.
ghost use Rattle.std.specs.Prelude.{◌≡◌, ℕ, ◌+◌, ◌≤◌, ◌^◌, ◌<◌, Some, None, true, false, [], IfOk, OnErr};
ghost use Rattle.up_num.specs.Span.{covers};
ghost use Rattle.up_num.specs.declared.answers.AskKind.TheVariants.{Read as ReadAsk};
ghost use Rattle.up_num.specs.declared.answers.Code.TheVariants.{Io as IoCode, NoSpace as NoSpaceCode};
ghost use Rattle.up_bank.specs.declared.kind.FrameKind.TheVariants.{Ordinary as OrdinaryKind};
ghost use Rattle.up_model.specs.Asks.{asked};
ghost use Rattle.up_model.specs.States.{unclean};
ghost use Rattle.up_model.specs.Reply.{brings};
ghost use Rattle.up_model.specs.declared.entry.Call.TheVariants as calls;
ghost use Rattle.up_object.specs.Parts.{bank_of};
ghost use Rattle.up_object.specs.Change.{AllAre};
ghost use Rattle.up_object.specs.OneCall.{DoesCall, brought_of, frames_of};
ghost use Rattle.up_claims.specs.Claimed.{one_page, given_number};
ghost use Rattle.up_claims.specs.Listed.{claimed};
ghost use Rattle.up_num.specs.Pages.{page_number};
ghost use Rattle.up_model.specs.declared.entry.Told.TheVariants as told;
ghost use Rattle.up_claims.specs.Sited.{Fetching, Storing, Flushing};
ghost use Rattle.up_site.specs.declared.stage.Stage.TheVariants.{Fetched as FetchedStage};
ghost use Rattle.up_site.specs.declared.stage.Stage.TheVariants.{Begun as BegunStage};
ghost use Rattle.up_site.specs.Stages.{stage_at};
ghost use Rattle.up_site.specs.Places.{IsRead, IsCopied, bytes_held};
ghost use Rattle.up_site.specs.Made.{DoesTell};
ghost use Rattle.up_site.specs.Standing.{RoseIf, MayBeStored, telling, LeavesDated};

use crate::imaged::Imaged;
use crate::parts::{bytes_in, read_page, sync_disk, write_next};
use crate::stage::Stage;
use crate::tours::{bytes_of, move_on, set_stage, take_out};
use std::alloc::Global;
use up_clean::{begin, dirty, end};
use up_disk::Disk;
use up_model::{Reply, Told};
use up_num::{Code, Memory, PageNo, PageRange};
use up_object::{By, FramesIn, Step, Stepped};
use up_pages::Frames;
use up_supply::{fail, packet, supply, tell};

pub(crate) type ToldStep = Result<(bool, Stepped), (Memory, Frames)>;

// The number that a begin was given.
fn number_of(reply: &Reply) -> Option<u64>
    ensures { result ≡ given_number reply.now }
{
    match reply {
        Reply::Began(number) => Some(*number),
        _ => None,
    }
}

impl<D: Disk> Imaged<D> {
    // Reads the block of a page that is asked for and that nobody claims.
    pub(crate) fn fetch(&mut self, alloc: Global, by: By, page: PageNo) -> ToldStep
        requires asks { asked self.old.whole.birth self.old.whole.journal ReadAsk page.0 ≡ true }
        requires unclaimed { claimed self.old.whole.journal page.0 ≡ false }
        ensures tells { DoesTell self.old.whole self.new.whole result by.who by.epoch (Fetching page) }
        ensures kept { OnErr result (self.new.tours ≡ self.old.tours) }
        ensures start { self.new.start ≡ self.old.start }
        ensures rose { IfOk result (λ r. RoseIf r.0 (D.faults self.old.disk) (D.faults self.new.disk)) }
        ensures unread { OnErr result (D.tells ≡ true → D.blocks self.new.disk ≡ D.blocks self.old.disk) }
        ensures within { LeavesDated (telling D.tells D.count D.blocks D.faults D.lasts D.time D.leaves)
            self.old.whole.birth
            self.old.whole.journal self.old.start self.new.disk (D.time self.old.disk) }
        ensures once { D.calls self.new.disk ≤ D.calls self.old.disk + 1 }
    {
        if self.tours.reserve(1).is_err() {
            return Err((Memory {}, Frames::new(alloc)));
        }
        let Ok(block) = read_page(&mut self.disk, alloc, page) else {
            return Err((Memory {}, Frames::new(alloc)));
        };
        let ok = block.is_some();
        let stepped = tell(
            &mut self.object,
            alloc,
            by.who,
            by.epoch,
            Told::Fetched { page, ok },
        )?;
        set_stage(&mut self.tours, by.who, Stage::Fetched { page, block });
        Ok((ok, stepped))
    }

    // Fails the page whose block could not be read.
    pub(crate) fn fail_page(&mut self, alloc: Global, by: By, page: PageNo) -> Step
        requires stage { stage_at self.old.tours by.who ≡ Some (FetchedStage page None) }
        requires small { page.0 + 1 < 2 ^ 32 }
        ensures steps { DoesCall self.old.whole self.new.whole result by.who by.epoch (calls.Fail (one_page
            page.0) IoCode) [] }
        ensures kept { OnErr result (self.new.tours ≡ self.old.tours) }
        ensures start { self.new.start ≡ self.old.start }
        ensures disk { self.new.disk ≡ self.old.disk }
    {
        let stepped = fail(
            &mut self.object,
            alloc,
            by.who,
            by.epoch,
            one_page(page),
            Code::Io,
        )?;
        take_out(&mut self.tours, by.who);
        Ok(stepped)
    }

    // Supplies the page whose block was read. The bytes are copied first, so that after want of memory they
    // still are in hand.
    pub(crate) fn supply_page(
        &mut self,
        alloc: Global,
        by: By,
        page: PageNo,
        frames: FramesIn,
    ) -> Step
        requires read { IsRead self.old.tours by.who page }
        requires own { AllAre (bank_of self.old.whole.banks OrdinaryKind) (frames_of frames) }
        requires brings { brings 1 (brought_of frames) ≡ true }
        requires small { page.0 + 1 < 2 ^ 32 }
        ensures steps { DoesCall self.old.whole self.new.whole result by.who by.epoch
            (calls.Supply (one_page page.0) (bytes_held (stage_at self.old.tours by.who)) (brought_of
            frames)) (frames_of frames) }
        ensures kept { OnErr result (self.new.tours ≡ self.old.tours) }
        ensures start { self.new.start ≡ self.old.start }
        ensures disk { self.new.disk ≡ self.old.disk }
    {
        // Only the fact that frames which are given are some is wanted.
        let _ = frames.brought();
        let Ok(bytes) = bytes_of(alloc, &self.tours, by.who) else {
            return Err((Memory {}, frames.into_frames(alloc)));
        };
        let stepped = supply(
            &mut self.object,
            alloc,
            by.who,
            by.epoch,
            one_page(page),
            bytes,
            frames,
        )?;
        take_out(&mut self.tours, by.who);
        Ok(stepped)
    }

    // Begins the writeback of unclean pages that nobody claims.
    pub(crate) fn begin_run(&mut self, alloc: Global, by: By, range: PageRange, zero: bool) -> Step
        requires free { stage_at self.old.tours by.who ≡ None }
        requires unclean { (p : ℕ) → covers range p ≡ true
            → unclean self.old.whole.birth self.old.whole.journal p ≡ true }
        requires unclaimed { (p : ℕ) → covers range p ≡ true → claimed self.old.whole.journal p ≡ false }
        ensures steps { DoesCall self.old.whole self.new.whole result by.who by.epoch (calls.Begin range zero)
            [] }
        ensures kept { OnErr result (self.new.tours ≡ self.old.tours) }
        ensures start { self.new.start ≡ self.old.start }
        ensures disk { self.new.disk ≡ self.old.disk }
    {
        if self.tours.reserve(1).is_err() {
            return Err((Memory {}, Frames::new(alloc)));
        }
        let stepped = begin(&mut self.object, alloc, by.who, by.epoch, range, zero)?;
        let number = number_of(&stepped.reply);
        set_stage(&mut self.tours, by.who, Stage::Begun { range, number });
        Ok(stepped)
    }

    // Copies the bytes of the pages whose writeback has begun.
    pub(crate) fn copy_range(
        &mut self,
        alloc: Global,
        by: By,
        range: PageRange,
        number: Option<u64>,
    ) -> Step
        requires begun { stage_at self.old.tours by.who ≡ Some (BegunStage range number) }
        ensures steps { DoesCall self.old.whole self.new.whole result by.who by.epoch (calls.Tell (told.Copied
            range)) [] }
        ensures kept { OnErr result (self.new.tours ≡ self.old.tours) }
        ensures start { self.new.start ≡ self.old.start }
        ensures disk { self.new.disk ≡ self.old.disk }
    {
        if self.tours.reserve(1).is_err() {
            return Err((Memory {}, Frames::new(alloc)));
        }
        let Ok(bytes) = bytes_in(&self.object, alloc, range) else {
            return Err((Memory {}, Frames::new(alloc)));
        };
        let told = Told::Copied(range);
        let stepped = tell(&mut self.object, alloc, by.who, by.epoch, told)?;
        let stage = Stage::Copied {
            range,
            number,
            bytes,
            stored: 0,
        };
        set_stage(&mut self.tours, by.who, stage);
        Ok(stepped)
    }

    // Writes the block of the next page of a copy. After want of memory it may be written or not, and is
    // taken as not written.
    pub(crate) fn store_page(
        &mut self,
        alloc: Global,
        by: By,
        range: PageRange,
        number: Option<u64>,
        done: u32,
    ) -> ToldStep
        requires copied { IsCopied self.old.tours by.who range number done }
        requires less { done < range.count }
        ensures tells { DoesTell self.old.whole self.new.whole result by.who by.epoch (Storing (page_number
            (range.first + done))) }
        ensures kept { OnErr result (self.new.tours ≡ self.old.tours) }
        ensures start { self.new.start ≡ self.old.start }
        ensures rose { IfOk result (λ r. RoseIf r.0 (D.faults self.old.disk) (D.faults self.new.disk)) }
        ensures unstored { OnErr result (D.tells ≡ true
            → MayBeStored (D.blocks self.old.disk) (D.blocks self.new.disk)
            (range.first + done) done (stage_at self.old.tours by.who)) }
        ensures within { LeavesDated (telling D.tells D.count D.blocks D.faults D.lasts D.time D.leaves)
            self.old.whole.birth
            self.old.whole.journal self.old.start self.new.disk (D.time self.old.disk) }
        ensures once { D.calls self.new.disk ≤ D.calls self.old.disk + 1 }
    {
        let ok = write_next(&mut self.disk, &self.tours, by.who, range, number, done);
        let page = PageNo(range.first + done);
        let told = Told::Stored { page, ok };
        let stepped = tell(&mut self.object, alloc, by.who, by.epoch, told)?;
        if !ok {
            take_out(&mut self.tours, by.who);
            return Ok((false, stepped));
        }
        move_on(&mut self.tours, by.who, range, number, done);
        Ok((true, stepped))
    }

    // Ends the writeback of which all pages were stored.
    pub(crate) fn end_range(
        &mut self,
        alloc: Global,
        by: By,
        range: PageRange,
        number: Option<u64>,
    ) -> Step
        requires copied { IsCopied self.old.tours by.who range number range.count }
        ensures steps { DoesCall self.old.whole self.new.whole result by.who by.epoch (calls.End range number)
            [] }
        ensures kept { OnErr result (self.new.tours ≡ self.old.tours) }
        ensures start { self.new.start ≡ self.old.start }
        ensures disk { self.new.disk ≡ self.old.disk }
    {
        let stepped = end(&mut self.object, alloc, by.who, by.epoch, range, number)?;
        take_out(&mut self.tours, by.who);
        Ok(stepped)
    }

    // Syncs the disk.
    pub(crate) fn flush(&mut self, alloc: Global, by: By) -> ToldStep
        ensures tells { DoesTell self.old.whole self.new.whole result by.who by.epoch Flushing }
        ensures kept { self.new.tours ≡ self.old.tours }
        ensures start { self.new.start ≡ self.old.start }
        ensures rose { IfOk result (λ r. RoseIf r.0 (D.faults self.old.disk) (D.faults self.new.disk)) }
        ensures unread { OnErr result (D.tells ≡ true → D.blocks self.new.disk ≡ D.blocks self.old.disk) }
        ensures within { LeavesDated (telling D.tells D.count D.blocks D.faults D.lasts D.time D.leaves)
            self.old.whole.birth
            self.old.whole.journal self.old.start self.new.disk (D.time self.old.disk) }
        ensures once { D.calls self.new.disk ≤ D.calls self.old.disk + 1 }
    {
        let ok = sync_disk(&mut self.disk);
        let stepped = tell(
            &mut self.object,
            alloc,
            by.who,
            by.epoch,
            Told::Flushed { ok },
        )?;
        Ok((ok, stepped))
    }

    // Takes the next packet.
    pub(crate) fn take_packet(&mut self, alloc: Global, by: By) -> Step
        ensures steps { DoesCall self.old.whole self.new.whole result by.who by.epoch calls.Packet [] }
        ensures kept { self.new.tours ≡ self.old.tours }
        ensures start { self.new.start ≡ self.old.start }
        ensures disk { self.new.disk ≡ self.old.disk }
    {
        let stepped = packet(&mut self.object, alloc, by.who, by.epoch)?;
        Ok(stepped)
    }

    // Lets pages get dirty.
    pub(crate) fn grant(
        &mut self,
        alloc: Global,
        by: By,
        range: PageRange,
        frames: FramesIn,
    ) -> Step
        requires own { AllAre (bank_of self.old.whole.banks OrdinaryKind) (frames_of frames) }
        ensures steps { DoesCall self.old.whole self.new.whole result by.who by.epoch (calls.Dirty range
            (brought_of frames)) (frames_of frames) }
        ensures kept { self.new.tours ≡ self.old.tours }
        ensures start { self.new.start ≡ self.old.start }
        ensures disk { self.new.disk ≡ self.old.disk }
    {
        // Only the fact that frames which are given are some is wanted.
        let _ = frames.brought();
        let stepped = dirty(&mut self.object, alloc, by.who, by.epoch, range, frames)?;
        Ok(stepped)
    }

    // Fails a page for which no frame can be had.
    pub(crate) fn deny(&mut self, alloc: Global, by: By, page: PageNo) -> Step
        requires small { page.0 + 1 < 2 ^ 32 }
        requires free { stage_at self.old.tours by.who ≡ None }
        ensures steps { DoesCall self.old.whole self.new.whole result by.who by.epoch (calls.Fail (one_page
            page.0) NoSpaceCode) [] }
        ensures kept { self.new.tours ≡ self.old.tours }
        ensures start { self.new.start ≡ self.old.start }
        ensures disk { self.new.disk ≡ self.old.disk }
    {
        let stepped = fail(
            &mut self.object,
            alloc,
            by.who,
            by.epoch,
            one_page(page),
            Code::NoSpace,
        )?;
        Ok(stepped)
    }
}

// One page as a range.
pub(crate) fn one_page(page: PageNo) -> PageRange
    requires { page.0 + 1 < 2 ^ 32 }
    ensures { result ≡ one_page page.0 }
{
    PageRange {
        first: page.0,
        count: 1,
    }
}
