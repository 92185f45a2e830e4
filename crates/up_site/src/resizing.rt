//! A resize of an object, alone or over its disk, where a claim may be in the way.
ghost use Rattle.std.specs.Prelude.{◌≡◌, ◌+◌, ◌<◌, ◌^◌, [], None, true, IfOk, IfErr, OnOk, OnErr, IfSome};
ghost use Rattle.up_bank.specs.declared.kind.FrameKind.{FrameKind as FrameKindValue};
ghost use Rattle.up_pages.specs.Frames.{count_kind};
ghost use Rattle.up_model.specs.declared.entry.Call.TheVariants as calls;
ghost use Rattle.up_model.specs.declared.entry.Told.TheVariants as told;
ghost use Rattle.up_object.specs.Change.{AllOwn};
ghost use Rattle.up_object.specs.Whole.{after, held};
ghost use Rattle.up_claims.specs.Sited.{Makes, least, resizes};
ghost use Rattle.up_coherence.specs.StepPremises.{BelowAll};
ghost use Rattle.up_site.specs.Hosted.{with_whole};
ghost use Rattle.up_site.specs.Reaching.{reaches_at, claim_past, resize_due, Resizes};
ghost use Rattle.up_site.specs.Due.{Did};

use crate::answering::SiteStepped;
use crate::hosting::Hosting;
use crate::imaged::Imaged;
use crate::site::Site;
use std::alloc::Global;
use up_claims::SiteReply;
use up_disk::Disk;
use up_model::Told;
use up_num::{PageRange, Woken};
use up_object::{By, Object, Stepped};
use up_size::resize;
use up_supply::tell;

// The resize of an object.
fn resize_alone(object: &mut Object, alloc: Global, by: By, pages: u32) -> SiteStepped
    ensures resizes { Resizes object.old object.new result by.who by.epoch (Makes (calls.Resize pages)) }
    ensures object { OnOk result (object.new ≡ after object.old by.who by.epoch (calls.Resize pages)) }
{
    let stepped = resize(object, alloc, by.who, by.epoch, pages)?;
    let Stepped { reply, back } = stepped;
    Ok((SiteReply::Resized(reply), Woken::new(alloc), back))
}

// Notes that a claim is in the way.
fn note_busy(
    object: &mut Object,
    alloc: Global,
    by: By,
    pages: u32,
    range: PageRange,
) -> SiteStepped
    ensures resizes { Resizes object.old object.new result by.who by.epoch (Makes (calls.Tell (told.Busy
        pages range))) }
    ensures object { OnOk result (object.new ≡ after object.old by.who by.epoch (calls.Tell (told.Busy
        pages range))) }
{
    let told = Told::Busy {
        pages,
        claim: range,
    };
    let stepped = tell(object, alloc, by.who, by.epoch, told)?;
    let Stepped { reply: _, back } = stepped;
    Ok((SiteReply::Busy(range), Woken::new(alloc), back))
}

impl<D: Disk> Imaged<D> {
    // Whether the claim over a page reaches past so many pages.
    fn reaches(&self, pages: u32, page: u32) -> bool
        requires small { page + 1 < 2 ^ 32 }
        ensures { result ≡ reaches_at pages self.now.whole.journal page }
    {
        match self.claim_over(page) {
            Some(range) => pages < range.first + range.count,
            None => false,
        }
    }

    // The least page whose claim does.
    #[tactic(auto, using(crate::proofs::Looked::least_step))]
    fn first_reaching(&self, pages: u32) -> Option<u32>
        ensures value { result ≡ least self.now.whole.birth self.now.whole.journal
            (reaches_at pages self.now.whole.journal) }
        ensures passes { IfSome result (λ p. reaches_at pages self.now.whole.journal p ≡ true) }
        ensures small { IfSome result (λ p. p + 1 < 2 ^ 32) }
    {
        for page in 0..self.object.size() {
            if self.reaches(pages, page) {
                return Some(page);
            }
        }
        None
    }

    // The claim of least first page that does. Where there is none, each claimed page is below.
    fn in_way(&self, pages: u32) -> Option<PageRange>
        ensures value { result ≡ claim_past self.now.whole.birth self.now.whole.journal pages }
        ensures none { result ≡ None → BelowAll self.now.whole.journal pages }
    {
        let _ = self.object.size();
        let page = self.first_reaching(pages)?;
        self.claim_over(page)
    }

    fn busy(&mut self, alloc: Global, by: By, pages: u32, range: PageRange) -> SiteStepped
        ensures resizes { Resizes self.old.whole self.new.whole result by.who by.epoch (Makes (calls.Tell
            (told.Busy pages range))) }
        ensures rest { self.new ≡ record self.old { whole = self.new.whole } }
    {
        let busy = note_busy(&mut self.object, alloc, by, pages, range)?;
        Ok(busy)
    }

    fn resize_free(&mut self, alloc: Global, by: By, pages: u32) -> SiteStepped
        requires below { BelowAll self.old.whole.journal pages }
        ensures resizes { Resizes self.old.whole self.new.whole result by.who by.epoch (Makes (calls.Resize
            pages)) }
        ensures rest { self.new ≡ record self.old { whole = self.new.whole } }
    {
        let resized = resize_alone(&mut self.object, alloc, by, pages)?;
        Ok(resized)
    }

    // Gives the object this number of pages, where no claim is in the way.
    fn resize(&mut self, alloc: Global, by: By, pages: u32) -> SiteStepped
        ensures resizes { Resizes self.old.whole self.new.whole result by.who by.epoch
            (resizes self.old.whole.birth self.old.whole.journal pages) }
        ensures rest { self.new ≡ record self.old { whole = self.new.whole } }
    {
        match self.in_way(pages) {
            Some(range) => self.busy(alloc, by, pages, range),
            None => self.resize_free(alloc, by, pages),
        }
    }
}

impl<D: Disk> Site<D> {
    /// Gives the object this number of pages. Over a disk, where a claim reaches past them, it answers
    /// `Busy` with the one of least first
    /// page that does, and notes that; else it is the object's resize, with its reply.
    pub fn resize(&mut self, alloc: Global, who: u32, epoch: u64, pages: u32) -> SiteStepped
        ensures did { IfOk result (λ r. Did self.old.whole self.new.whole who epoch
            (resize_due self.old.image self.old.whole.birth self.old.whole.journal pages) r.0 r.1) }
        ensures rest { self.new ≡ with_whole self.old self.new.whole }
        ensures frames { IfOk result (λ r. (kind : FrameKindValue) →
            count_kind kind r.2.items + held self.new.whole.birth self.new.whole.journal kind
            ≡ held self.old.whole.birth self.old.whole.journal kind) }
        ensures own { IfOk result (λ r. AllOwn self.old.whole.banks r.2.items) }
        ensures same { OnErr result (self.new.whole ≡ self.old.whole) }
        ensures back { IfErr result (λ failed. failed.1.items ≡ []) }
    {
        let by = By { who, epoch };
        match &mut self.hosting {
            Hosting::Plain(object) => resize_alone(object, alloc, by, pages),
            Hosting::OverDisk(imaged) => imaged.resize(alloc, by, pages),
        }
    }
}
