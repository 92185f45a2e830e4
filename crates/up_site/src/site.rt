ghost use Rattle.std.specs.Prelude.{◌≡◌, ◌+◌, ◌<◌, ◌≤◌, true, [], is_some, IfOk, IfErr, OnOk, OnErr};
ghost use Rattle.std.specs.Prelude.{IfSome, IsTrue, IsOk};
ghost use Rattle.up_bank.specs.declared.kind.FrameKind.{FrameKind as FrameKindValue};
ghost use Rattle.up_pages.specs.Frames.{count_kind};
ghost use Rattle.up_model.specs.Reply as replies;
ghost use Rattle.up_model.specs.declared.entry.Call.TheVariants as calls;
ghost use Rattle.up_object.specs.Parts.{bank_of};
ghost use Rattle.up_object.specs.Stands.{leave_calls};
ghost use Rattle.up_object.specs.Change.{AllAre, AllOwn};
ghost use Rattle.up_object.specs.Whole.{after, held};
ghost use Rattle.up_object.specs.OneCall.{frames_of};
ghost use Rattle.up_core.specs.Requests.{Agrees, kind_taken};
ghost use Rattle.up_site.specs.Hosted.{disk_of, start_of, with_whole, may_act};
ghost use Rattle.up_site.specs.Standing.{SiteStands, telling, most_pages, AnswersNewest};

use crate::hosting::Hosting;
use crate::imaged::Imaged;
use std::alloc::Global;
use std::marker::Model;
use up_core::step;
use up_disk::Disk;
use up_model::{Call, Role};
use up_object::{FramesIn, Object, Step};
use up_supply::leave;

/// An object, or an object with an image over its disk. It holds frames, so it has to be closed.
pub struct Site<D: Disk> {
    pub(crate) hosting: Hosting<D>,
}

impl<D: Disk> Model for Site<D> {
    ghost use Rattle.up_site.specs.Hosted.{Hosted, seen_in};

    ghost Value = { Hosted D };

    ghost view = { λ site. seen_in site.hosting };
}

impl<D: Disk> Site<D> {
    /// A site of an object, with a disk exactly where it has an image. An object with an image has no entry
    /// yet, and the disk has a
    /// block for each page that it may ever have. It takes no memory.
    pub fn new(alloc: Global, object: Object, disk: Option<D>) -> Site<D>
        requires image { is_some disk ≡ object.birth.image }
        requires first { is_some disk ≡ true → object.journal ≡ [] }
        requires room { IfSome disk (λ disk. most_pages object.birth ≤ D.count disk) }
        ensures whole { result.whole ≡ object }
        ensures disk { disk_of result.image ≡ disk }
        ensures start { start_of result.image ≡ disk }
    {
        let hosting = match disk {
            None => Hosting::Plain(object),
            Some(disk) => Hosting::OverDisk(Imaged::new(alloc, object, disk)),
        };
        Site { hosting }
    }

    /// The object.
    pub fn object(&self) -> &Object
        ensures { result.now ≡ self.now.whole }
    {
        match &self.hosting {
            Hosting::Plain(object) => object,
            Hosting::OverDisk(imaged) => &imaged.object,
        }
    }

    /// Does a call on the object, and appends its one entry to the journal. A read of an object over a disk
    /// that tells its blocks gives
    /// the newest bytes over the disk's blocks as they were at first.
    pub fn act(&mut self, alloc: Global, who: u32, epoch: u64, call: Call, frames: FramesIn) -> Step
        requires may { may_act (is_some self.old.image) call ≡ true }
        requires own { AllAre (bank_of self.old.whole.banks (kind_taken call)) (frames_of frames) }
        requires agrees { Agrees call frames }
        requires proper { IsTrue (replies.proper self.old.whole.birth self.old.whole.journal who call) }
        ensures reply { IfOk result (λ s. s.reply
            ≡ replies.reply self.old.whole.birth self.old.whole.journal who epoch call) }
        ensures site { OnOk result (self.new ≡ with_whole self.old (after self.old.whole who epoch call)) }
        ensures frames { IfOk result (λ s. (kind : FrameKindValue)
            → count_kind kind s.back.items + held self.new.whole.birth self.new.whole.journal kind
            ≡ count_kind kind (frames_of frames) + held self.old.whole.birth self.old.whole.journal kind) }
        ensures own { IfOk result (λ s. AllOwn self.old.whole.banks s.back.items) }
        ensures same { OnErr result (self.new ≡ self.old) }
        ensures back { IfErr result (λ failed. failed.1.items ≡ frames_of frames) }
        ensures newest { IfOk result (λ s. IfSome self.old.image (λ image.
            AnswersNewest (telling D.tells D.count D.blocks D.faults D.lasts D.time D.leaves)
            image.whole.birth image.whole.journal image.start call s.reply)) }
    {
        match &mut self.hosting {
            Hosting::Plain(object) => step(object, alloc, who, epoch, call, frames),
            Hosting::OverDisk(imaged) => imaged.act(alloc, who, epoch, call, frames),
        }
    }

    /// Leaves a role. It takes no memory while a reserved entry is left.
    pub fn leave(&mut self, alloc: Global, who: u32, epoch: u64, role: Role) -> Step
        ensures reply { IfOk result (λ s. s.reply
            ≡ replies.reply self.old.whole.birth self.old.whole.journal who epoch (calls.Leave role)) }
        ensures site { OnOk result (self.new ≡ with_whole self.old (after self.old.whole who epoch
            (calls.Leave role))) }
        ensures frames { IfOk result (λ s. (kind : FrameKindValue)
            → count_kind kind s.back.items + held self.new.whole.birth self.new.whole.journal kind
            ≡ held self.old.whole.birth self.old.whole.journal kind) }
        ensures own { IfOk result (λ s. AllOwn self.old.whole.banks s.back.items) }
        ensures same { OnErr result (self.new ≡ self.old) }
        ensures back { IfErr result (λ failed. failed.1.items ≡ []) }
        ensures reserved { leave_calls self.old.whole.journal < self.old.whole.birth.users +
            self.old.whole.birth.pagers → IsOk result }
    {
        match &mut self.hosting {
            Hosting::Plain(object) => leave(object, alloc, who, epoch, role),
            Hosting::OverDisk(imaged) => imaged.leave(alloc, who, epoch, role),
        }
    }

    /// It does nothing: its clause tells what the site keeps over a disk between any two calls. Where the
    /// disk tells what a stop leaves,
    /// each content that a stop may leave in a block is the page's newest bytes at one moment, no earlier
    /// than what is durable.
    pub fn keeps(&self)
        ensures { IfSome self.now.image (λ image. SiteStands (telling D.tells D.count D.blocks D.faults
            D.lasts D.time D.leaves)
            self.now.whole.birth self.now.whole.journal image.start image.disk image.tours) }
    {
        match &self.hosting {
            Hosting::Plain(_) => {}
            Hosting::OverDisk(imaged) => imaged.keeps(),
        }
    }

    /// The object and the disk. Over a disk all stands that the site has kept: claims, coherence, newest
    /// reads, and no more faults told
    /// than there were. It takes no memory.
    pub fn close(self) -> (Object, Option<D>)
        ensures object { result.0 ≡ self.whole }
        ensures disk { result.1 ≡ disk_of self.image }
        ensures stands { IfSome self.image (λ image.
            SiteStands (telling D.tells D.count D.blocks D.faults D.lasts D.time D.leaves) self.whole.birth
            self.whole.journal image.start image.disk image.tours) }
    {
        let Site { hosting } = self;
        match hosting {
            Hosting::Plain(object) => (object, None),
            Hosting::OverDisk(imaged) => {
                let (object, disk) = imaged.close();
                (object, Some(disk))
            }
        }
    }
}
