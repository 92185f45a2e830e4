//! Calls on a site behind a turn.
ghost use Rattle.std.specs.Prelude.{◌≡◌, ◌+◌, ◌≤◌, true, [], is_some, IfOk, IfErr, OnOk, OnErr, IsTrue};
ghost use Rattle.up_bank.specs.declared.kind.FrameKind.TheVariants.{Ordinary as OrdinaryKind};
ghost use Rattle.up_model.specs.Reply as replies;
ghost use Rattle.up_model.specs.declared.entry.Call.TheVariants as calls;
ghost use Rattle.up_object.specs.Parts.{bank_of};
ghost use Rattle.up_object.specs.Stands.{leave_calls};
ghost use Rattle.up_object.specs.Change.{AllAre, AllOwn};
ghost use Rattle.up_object.specs.OneCall.{frames_of, brought_of};
ghost use Rattle.up_core.specs.Requests.{Agrees, kind_taken};
ghost use Rattle.up_claims.specs.Claimed.{claim_of};
ghost use Rattle.up_claims.specs.Sited.{fits};
ghost use Rattle.up_turn.specs.Placing.{Tally};
ghost use Rattle.up_turn.specs.Added.{Stays};
ghost use Rattle.up_site.specs.Hosted.{start_of, may_act};
ghost use Rattle.up_site.specs.Steps.{is_bare};
ghost use Rattle.up_site.specs.Standing.{telling};
ghost use Rattle.up_live.specs.Origins.{beginning_of};
ghost use Rattle.up_live.specs.Acts.{MayAct, journal_of, Acted, Looked, StepMade, Resized, SeenNewest};

use crate::live::Live;
use crate::origin::SharedSite;
use crate::wakes::Wakes;
use std::alloc::Global;
use std::sync::Wait;
use up_claims::SiteStep;
use up_disk::Disk;
use up_model::{Call, Role};
use up_object::{FramesIn, Step};
use up_site::SiteStepped;
use up_turn::Pass;

impl<D: Disk> Live<D> {
    /// Does a call of a user, a pager or an evictor, and appends its one entry. What the call needs of its actor is
    /// read off what the pass has seen; entries of others don't change it. Then those are woken whom it concerns.
    pub fn act<R: Wait>(
        &self,
        rt: &R,
        alloc: Global,
        pass: &mut Pass<SharedSite<D>>,
        who: u32,
        epoch: u64,
        call: Call,
        frames: FramesIn,
    ) -> Step
        requires may { MayAct self.now.table pass.old who }
        requires any { may_act (is_some (start_of self.now.opening.image)) call ≡ true }
        requires own { AllAre (bank_of self.now.opening.whole.banks (kind_taken call)) (frames_of frames) }
        requires agrees { Agrees call frames }
        requires proper { IsTrue (replies.proper self.now.opening.whole.birth (journal_of pass.old) who call) }
        ensures stays { Stays pass.old pass.new }
        ensures ok { IfOk result (λ s. Acted self.now.opening.whole.birth pass.old pass.new who epoch call
            (frames_of frames) s.back.items s.reply) }
        ensures own { IfOk result (λ s. AllOwn self.now.opening.whole.banks s.back.items) }
        ensures err { OnErr result (Looked self.now.opening.whole.birth who pass.old pass.new) }
        ensures back { IfErr result (λ failed. failed.1.items ≡ frames_of frames) }
        ensures newest { SeenNewest (telling D.tells D.count D.blocks D.faults D.lasts D.time D.leaves)
            (beginning_of self.now.opening) (journal_of pass.new) }
        ensures tally { Tally pass.new.numbers pass.new.own pass.new.seen }
    {
        let mut inside = self.go_in(rt, pass, who);
        let stepped = inside.state.site.act(alloc, who, epoch, call, frames);
        inside.state.site.object().is_legal();
        inside.state.site.keeps();
        let wakes = Wakes::after(inside.state.site.object(), &stepped);
        self.turn.leave(pass, inside);
        self.wake_up(wakes);
        stepped
    }

    /// Leaves a role. It takes no memory while a reserved entry is left.
    pub fn leave<R: Wait>(
        &self,
        rt: &R,
        alloc: Global,
        pass: &mut Pass<SharedSite<D>>,
        who: u32,
        epoch: u64,
        role: Role,
    ) -> Step
        requires may { MayAct self.now.table pass.old who }
        ensures stays { Stays pass.old pass.new }
        ensures ok { IfOk result (λ s. Acted self.now.opening.whole.birth pass.old pass.new who epoch
            (calls.Leave role) [] s.back.items s.reply) }
        ensures own { IfOk result (λ s. AllOwn self.now.opening.whole.banks s.back.items) }
        ensures err { OnErr result (Looked self.now.opening.whole.birth who pass.old pass.new) }
        ensures back { IfErr result (λ failed. failed.1.items ≡ []) }
        ensures late { OnErr result (self.now.opening.whole.birth.users + self.now.opening.whole.birth.pagers
            ≤ leave_calls (journal_of pass.new)) }
        ensures tally { Tally pass.new.numbers pass.new.own pass.new.seen }
    {
        let mut inside = self.go_in(rt, pass, who);
        let stepped = inside.state.site.leave(alloc, who, epoch, role);
        inside.state.site.object().is_legal();
        let wakes = Wakes::after(inside.state.site.object(), &stepped);
        self.turn.leave(pass, inside);
        self.wake_up(wakes);
        stepped
    }

    /// Makes a step of the sample pager, or of a user's sync. Which steps an actor may make is read off what the
    /// pass has seen; entries of others don't change it.
    pub fn worker_turn<R: Wait>(
        &self,
        rt: &R,
        alloc: Global,
        pass: &mut Pass<SharedSite<D>>,
        who: u32,
        epoch: u64,
        step: SiteStep,
        frames: FramesIn,
    ) -> SiteStepped
        requires may { MayAct self.now.table pass.old who }
        requires image { is_some (start_of self.now.opening.image) ≡ true }
        requires fits { fits step (claim_of (journal_of pass.old) who) (brought_of frames) ≡ true }
        requires own { AllAre (bank_of self.now.opening.whole.banks OrdinaryKind) (frames_of frames) }
        ensures stays { Stays pass.old pass.new }
        ensures ok { IfOk result (λ r. StepMade self.now.opening.whole.birth pass.old pass.new who epoch step
            (brought_of frames) (frames_of frames) r.2.items r.0 r.1) }
        ensures none { IfOk result (λ r. is_bare step ≡ true → frames_of frames ≡ [] → r.2.items ≡ []) }
        ensures own { IfOk result (λ r. AllOwn self.now.opening.whole.banks r.2.items) }
        ensures err { OnErr result (Looked self.now.opening.whole.birth who pass.old pass.new) }
        ensures back { IfErr result (λ failed. failed.1.items ≡ frames_of frames) }
        ensures tally { Tally pass.new.numbers pass.new.own pass.new.seen }
    {
        let mut inside = self.go_in(rt, pass, who);
        let stepped = inside.state.site.site_step(alloc, who, epoch, step, frames);
        inside.state.site.object().is_legal();
        let wakes = Wakes::after_site(inside.state.site.object(), &stepped);
        self.turn.leave(pass, inside);
        self.wake_up(wakes);
        stepped
    }

    /// Gives the object this number of pages. Over a disk, where a claim reaches past them, it answers `Busy` with
    /// the one of least first page that does, and notes that; else it is the object's resize, with its reply.
    pub fn resize<R: Wait>(
        &self,
        rt: &R,
        alloc: Global,
        pass: &mut Pass<SharedSite<D>>,
        who: u32,
        epoch: u64,
        pages: u32,
    ) -> SiteStepped
        requires may { MayAct self.now.table pass.old who }
        ensures stays { Stays pass.old pass.new }
        ensures ok { IfOk result (λ r. Resized (beginning_of self.now.opening) pass.old pass.new who epoch
            pages r.2.items r.0 r.1) }
        ensures own { IfOk result (λ r. AllOwn self.now.opening.whole.banks r.2.items) }
        ensures err { OnErr result (Looked self.now.opening.whole.birth who pass.old pass.new) }
        ensures back { IfErr result (λ failed. failed.1.items ≡ []) }
        ensures tally { Tally pass.new.numbers pass.new.own pass.new.seen }
    {
        let mut inside = self.go_in(rt, pass, who);
        let stepped = inside.state.site.resize(alloc, who, epoch, pages);
        inside.state.site.object().is_legal();
        let wakes = Wakes::after_site(inside.state.site.object(), &stepped);
        self.turn.leave(pass, inside);
        self.wake_up(wakes);
        stepped
    }
}
