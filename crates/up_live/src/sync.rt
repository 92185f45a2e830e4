//! A user's sync of a site behind a turn, by steps of its own.
ghost use Rattle.std.specs.Prelude.{◌≡◌, ℕ, ◌≤◌, true, None, length, is_some, IfOk, OnOk, OnErr};
ghost use Rattle.up_model.specs.declared.entry.Brought.TheVariants.{Nothing};
ghost use Rattle.up_claims.specs.Claimed.{claim_of};
ghost use Rattle.up_claims.specs.Sited.{fits};
ghost use Rattle.up_turn.specs.Placing.{Begins};
ghost use Rattle.up_turn.specs.Standing.{Standing};
ghost use Rattle.up_turn.specs.Added.{Stays};
ghost use Rattle.up_site.specs.Hosted.{start_of};
ghost use Rattle.up_site.specs.Steps.{is_bare};
ghost use Rattle.up_live.specs.Acts.{MayAct, journal_of, Looked};
ghost use Rattle.up_live.specs.Touring.{going, ended, Grown, Partly, Tip};
ghost use Rattle.up_live.specs.Syncs.{is_well, Promises};
ghost use Rattle.up_live.specs.Courses.{step_of, set_after, next_after, over_at, StepTold, OnItsWay, IsAtEnd};
ghost use Rattle.up_live.specs.declared.picked.SyncTask.TheVariants as tasks;
ghost use Rattle.up_live.specs.declared.picked.SyncNext.TheVariants as nexts;

use crate::live::Live;
use crate::origin::SharedSite;
use crate::picked::{SyncEnd, SyncNext, SyncTask, next_after, step_of};
use crate::wakes::bit_of;
use std::alloc::Global;
use std::sync::Wait;
use std::sync::atomic::Ordering;
use up_claims::{Chosen, SiteReply, SiteStep};
use up_clock::{Clock, ClockSeat};
use up_disk::Disk;
use up_num::Memory;
use up_object::FramesIn;
use up_turn::Pass;

// Takes the pages of a writeback that has begun out of a set.
fn take_begun(set: &mut Chosen, answer: &SiteReply) -> Result<(), Memory>
    ensures ok { OnOk result (set.new ≡ set_after set.old answer.now) }
    ensures err { OnErr result (over_at (next_after answer.now) ≡ None) }
{
    if let SiteReply::Claimed(range) = answer {
        set.remove(*range)?;
    }
    Ok(())
}

impl<D: Disk> Live<D> {
    // Waits until a claim is released, or goes on at once where one was since the actor looked.
    fn rest<R: Wait>(&self, rt: &R, who: u32) {
        if let Some(parker) = self.parkers.as_slice().get(who as usize) {
            parker.park(rt);
        }
    }

    // A step without frames, in the epoch that the clock shows.
    fn still<R: Wait>(
        &self,
        rt: &R,
        alloc: Global,
        pass: &mut Pass<SharedSite<D>>,
        who: u32,
        clock: &Clock,
        seat: &mut ClockSeat,
        step: SiteStep,
    ) -> Result<SiteReply, Memory>
        requires may { MayAct self.now.table pass.old who }
        requires image { is_some (start_of self.now.opening.image) ≡ true }
        requires fits { fits step (claim_of (journal_of pass.old) who) Nothing ≡ true }
        requires bare { is_bare step ≡ true }
        requires clock { seat.old.clock ≡ clock.now }
        ensures stays { Stays pass.old pass.new }
        ensures ok { IfOk result (λ answer. StepTold self.now.opening.whole.birth pass.old pass.new who
            seat.old.told seat.new.told step answer) }
        ensures err { OnErr result (Looked self.now.opening.whole.birth who pass.old pass.new) }
        ensures clock { seat.new.clock ≡ clock.now }
        ensures told { seat.old.told ≤ seat.new.told }
    {
        let epoch = clock.now(seat);
        match self.worker_turn(rt, alloc, pass, who, epoch, step, FramesIn::NoneYet) {
            Ok((answer, _woke, back)) => {
                back.end();
                Ok(answer)
            }
            Err((memory, back)) => {
                back.end();
                Err(memory)
            }
        }
    }

    // Asks which pages are unclean.
    fn survey<R: Wait>(
        &self,
        rt: &R,
        alloc: Global,
        pass: &mut Pass<SharedSite<D>>,
        who: u32,
        clock: &Clock,
        seat: &mut ClockSeat,
    ) -> Result<Chosen, Memory>
        requires may { MayAct self.now.table pass.old who }
        requires image { is_some (start_of self.now.opening.image) ≡ true }
        requires free { claim_of (journal_of pass.old) who ≡ None }
        requires clock { seat.old.clock ≡ clock.now }
        ensures stays { Stays pass.old pass.new }
        ensures ok { IfOk result (λ set. OnItsWay self.now.opening.whole.birth who seat.old.told seat.new.told
            pass.old pass.new set (nexts.GoesOn tasks.Pick)) }
        ensures err { OnErr result (Looked self.now.opening.whole.birth who pass.old pass.new) }
        ensures clock { seat.new.clock ≡ clock.now }
        ensures told { seat.old.told ≤ seat.new.told }
    {
        match self.still(rt, alloc, pass, who, clock, seat, SiteStep::Survey)? {
            SiteReply::Surveyed(set) => Ok(set),
            _ => unreachable!(),
        }
    }

    // Makes the step of a task. Where a claim is in the way it waits until one is released.
    fn go_on<R: Wait>(
        &self,
        rt: &R,
        alloc: Global,
        pass: &mut Pass<SharedSite<D>>,
        who: u32,
        clock: &Clock,
        seat: &mut ClockSeat,
        task: SyncTask,
        set: &mut Chosen,
    ) -> Result<SyncNext, Memory>
        requires may { MayAct self.now.table pass.old who }
        requires image { is_some (start_of self.now.opening.image) ≡ true }
        requires fits { fits (step_of task set.old) (claim_of (journal_of pass.old) who) Nothing ≡ true }
        requires clock { seat.old.clock ≡ clock.now }
        ensures stays { Stays pass.old pass.new }
        ensures ok { IfOk result (λ next. (low : ℕ) (start : Standing)
            → OnItsWay self.now.opening.whole.birth who low seat.old.told start pass.old set.old (nexts.GoesOn task)
            → OnItsWay self.now.opening.whole.birth who low seat.new.told start pass.new set.new next) }
        ensures err { OnErr result ((low : ℕ) (start : Standing)
            → OnItsWay self.now.opening.whole.birth who low seat.old.told start pass.old set.old (nexts.GoesOn task)
            → Partly who low seat.new.told start pass.new (going None)) }
        ensures later { Begins pass.old.seen pass.new.seen }
        ensures clock { seat.new.clock ≡ clock.now }
        ensures told { seat.old.told ≤ seat.new.told }
    {
        let step = step_of(alloc, task, set)?;
        let answer = self.still(rt, alloc, pass, who, clock, seat, step)?;
        take_begun(set, &answer)?;
        if let SiteReply::Busy(_) = answer {
            self.rest(rt, who);
        }
        Ok(next_after(&answer))
    }

    // The steps of a sync, one after the other.
    fn go_through<R: Wait>(
        &self,
        rt: &R,
        alloc: Global,
        pass: &mut Pass<SharedSite<D>>,
        who: u32,
        clock: &Clock,
        seat: &mut ClockSeat,
    ) -> Result<SyncEnd, Memory>
        requires may { MayAct self.now.table pass.old who }
        requires image { is_some (start_of self.now.opening.image) ≡ true }
        requires free { claim_of (journal_of pass.old) who ≡ None }
        requires clock { seat.old.clock ≡ clock.now }
        ensures stays { Stays pass.old pass.new }
        ensures ok { IfOk result (λ end. IsAtEnd self.now.opening.whole.birth who seat.old.told seat.new.told
            pass.old pass.new end) }
        ensures partly { OnErr result (Partly who seat.old.told seat.new.told pass.old pass.new (going None)) }
        ensures later { Begins pass.old.seen pass.new.seen }
        ensures clock { seat.new.clock ≡ clock.now }
        ensures told { seat.old.told ≤ seat.new.told }
    {
        let mut set = self.survey(rt, alloc, pass, who, clock, seat)?;
        let mut task = SyncTask::Pick;
        for _ in rt.forever() {
            match self.go_on(rt, alloc, pass, who, clock, seat, task, &mut set)? {
                SyncNext::IsOver(end) => return Ok(end),
                SyncNext::GoesOn(next) => task = next,
            }
        }
        unreachable!()
    }

    /// Writes back each page that is unclean, and then syncs the disk, by steps of its own. Where another's claim is in
    /// the way it waits until one is released. After want of memory its actor may have a claim, as its entries show.
    pub fn sync<R: Wait>(
        &self,
        rt: &R,
        alloc: Global,
        pass: &mut Pass<SharedSite<D>>,
        who: u32,
        clock: &Clock,
        seat: &mut ClockSeat,
    ) -> Result<SyncEnd, Memory>
        requires may { MayAct self.now.table pass.old who }
        requires image { is_some (start_of self.now.opening.image) ≡ true }
        requires free { claim_of (journal_of pass.old) who ≡ None }
        requires clock { seat.old.clock ≡ clock.now }
        ensures stays { Stays pass.old pass.new }
        ensures grown { IfOk result (λ end. Grown who seat.old.told seat.new.told pass.old pass.new (going None)
            (ended (is_well end))) }
        ensures partly { OnErr result (Partly who seat.old.told seat.new.told pass.old pass.new (going None)) }
        ensures tip { IfOk result (λ end. Tip self.now.opening.whole.birth pass.old pass.new (is_well end)) }
        ensures later { Begins pass.old.seen pass.new.seen }
        ensures ok { IfOk result (λ end. Promises end self.now.opening.whole.birth (journal_of pass.new)
            (length pass.old.seen)) }
        ensures seat { (seat.new.clock ≡ seat.old.clock) × (seat.old.told ≤ seat.new.told) }
    {
        self.syncing.fetch_or(bit_of(who), Ordering::SeqCst);
        let end = self.go_through(rt, alloc, pass, who, clock, seat);
        self.syncing.fetch_and(!bit_of(who), Ordering::SeqCst);
        end
    }
}
