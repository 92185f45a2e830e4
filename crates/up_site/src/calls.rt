//! Calls of users and others on an object over its disk.
ghost use Rattle.std.specs.Prelude.{◌≡◌, ◌+◌, ◌<◌, ◌≤◌, true, false, [], IfOk, OnOk, OnErr, IsTrue};
ghost use Rattle.std.specs.Prelude.{IsOk};
ghost use Rattle.up_model.specs.Reply as replies;
ghost use Rattle.up_model.specs.Size.{size};
ghost use Rattle.up_object.specs.Stands.{leave_calls};
ghost use Rattle.up_model.specs.declared.entry.Call.TheVariants as calls;
ghost use Rattle.up_object.specs.Parts.{bank_of};
ghost use Rattle.up_object.specs.Change.{AllAre};
ghost use Rattle.up_object.specs.Whole.{after};
ghost use Rattle.up_object.specs.OneCall.{DoesCall, frames_of};
ghost use Rattle.up_core.specs.Requests.{Agrees, kind_taken};
ghost use Rattle.up_coherence.specs.Coherent.{is_bad};
ghost use Rattle.up_coherence.specs.Durable.{flushes};
ghost use Rattle.up_coherence.specs.StepPremises.{is_quiet};
ghost use Rattle.up_site.specs.Standing.{SiteStands, telling, most_pages, AnswersNewest};

use crate::imaged::Imaged;
use std::alloc::Global;
use std::snapshot::Snapshot;
use up_core::step;
use up_disk::Disk;
use up_model::{Call, Role};
use up_object::{FramesIn, Object, Step};
use up_supply::leave;

impl<D: Disk> Imaged<D> {
    // An object without entries over a disk that has a block for each page that it may ever have. It takes no
    // memory.
    pub(crate) fn new(alloc: Global, object: Object, disk: D) -> Imaged<D>
        requires first { object.journal ≡ [] }
        requires room { most_pages object.birth ≤ D.count disk }
        ensures whole { result.whole ≡ object }
        ensures disk { result.disk ≡ disk }
        ensures start { result.start ≡ disk }
        ensures free { result.tours ≡ [] }
    {
        let start = Snapshot::of(&disk);
        Imaged {
            object,
            disk,
            start,
            tours: Vec::new(alloc),
        }
    }

    // A call that concerns no claim.
    pub(crate) fn act(
        &mut self,
        alloc: Global,
        who: u32,
        epoch: u64,
        call: Call,
        frames: FramesIn,
    ) -> Step
        requires quiet { is_quiet call ≡ true }
        requires fine { is_bad call ≡ false }
        requires calm { flushes call ≡ false }
        requires own { AllAre (bank_of self.old.whole.banks (kind_taken call)) (frames_of frames) }
        requires agrees { Agrees call frames }
        requires proper { IsTrue (replies.proper self.old.whole.birth self.old.whole.journal who call) }
        ensures steps { DoesCall self.old.whole self.new.whole result who epoch call (frames_of frames) }
        ensures ok { OnOk result (self.new ≡ record self.old {
          whole = after self.old.whole who epoch call;
        }) }
        ensures same { OnErr result (self.new ≡ self.old) }
        ensures newest { IfOk result (λ s. AnswersNewest (telling D.tells D.count D.blocks D.faults D.lasts
            D.time D.leaves) self.old.whole.birth self.old.whole.journal self.old.start call s.reply) }
    {
        let stepped = step(&mut self.object, alloc, who, epoch, call, frames)?;
        Ok(stepped)
    }

    // Leaves a role.
    pub(crate) fn leave(&mut self, alloc: Global, who: u32, epoch: u64, role: Role) -> Step
        ensures steps { DoesCall self.old.whole self.new.whole result who epoch (calls.Leave role) [] }
        ensures ok { OnOk result (self.new ≡ record self.old {
          whole = after self.old.whole who epoch
              (calls.Leave role);
        }) }
        ensures same { OnErr result (self.new ≡ self.old) }
        ensures reserved { leave_calls self.old.whole.journal < self.old.whole.birth.users +
            self.old.whole.birth.pagers → IsOk result }
    {
        let stepped = leave(&mut self.object, alloc, who, epoch, role)?;
        Ok(stepped)
    }

    // What the site keeps stands. It does nothing.
    pub(crate) fn keeps(&self)
        ensures { SiteStands (telling D.tells D.count D.blocks D.faults D.lasts D.time D.leaves)
            self.now.whole.birth self.now.whole.journal self.now.start self.now.disk self.now.tours }
    {
        let _ = self.object.size();
    }

    // The object and the disk, of which all stands that the site has kept. It takes no memory.
    pub(crate) fn close(self) -> (Object, D)
        ensures whole { result.0 ≡ self.whole }
        ensures disk { result.1 ≡ self.disk }
        ensures stands { SiteStands (telling D.tells D.count D.blocks D.faults D.lasts D.time D.leaves)
            result.0.birth result.0.journal self.start result.1 self.tours }
    {
        let Imaged {
            object,
            disk,
            start: _,
            tours: _,
        } = self;
        (object, disk)
    }
}
