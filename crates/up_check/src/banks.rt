//! The banks of a journal whose calls are made again.
ghost use Rattle.std.specs.Prelude.{◌≡◌, ◌<◌, ◌≤◌, [], true, IfOk, IfSome};
ghost use Rattle.up_bank.specs.Standing.{most_frames};
ghost use Rattle.up_model.specs.Reply.{counts_frames};
ghost use Rattle.up_model.specs.declared.entry.Brought.TheVariants.{Frames as FramesBrought};
ghost use Rattle.up_object.specs.Change.{AllOwn};
ghost use Rattle.up_check.specs.Handed.{HandedIn, given_only};

use crate::sizes::Sizes;
use std::alloc::Global;
use std::marker::Model;
use up_bank::FrameKind;
use up_banks::{Pool, SoleBank};
use up_model::{Birth, Brought};
use up_num::Memory;
use up_object::{FramesIn, Object};
use up_pages::Frames;

/// A bank of each kind, and one without any frame, which every scan finds empty.
pub struct ReplayBanks {
    pool: Pool,
    empty: SoleBank,
}

impl Model for ReplayBanks {
    ghost use Rattle.up_object.specs.Parts.{BankPair};
    ghost use Rattle.up_banks.specs.Pools.{banks_of};
    ghost use Rattle.up_check.specs.Banks.{ReplayBanksStand};

    ghost Value = { BankPair };

    ghost view = { λ o. banks_of o.pool };

    ghost invariant = { ReplayBanksStand };
}

impl ReplayBanks {
    /// So many frames of each kind, all at home.
    pub fn new(alloc: Global, sizes: Sizes) -> Result<ReplayBanks, Memory>
        requires ordinary { (0 < sizes.ordinary) × (sizes.ordinary ≤ most_frames) }
        requires loaned { (0 < sizes.loaned) × (sizes.loaned ≤ most_frames) }
    {
        let pool = Pool::new(alloc, sizes.ordinary, sizes.loaned)?;
        match SoleBank::new(alloc, FrameKind::Ordinary, 0) {
            Ok(empty) => Ok(ReplayBanks { pool, empty }),
            Err(memory) => {
                pool.end();
                Err(memory)
            }
        }
    }

    /// Ends them; all frames that are at home go.
    pub fn end(self) {
        let ReplayBanks { pool, empty } = self;
        pool.end();
        empty.end();
    }

    /// A new object, whose frames will be of these banks.
    pub fn birth(&self, alloc: Global, birth: Birth) -> Result<Object, Memory>
        requires users { (0 < birth.users) × (birth.users ≤ 64) }
        requires pagers { (0 < birth.pagers) × (birth.pagers ≤ 64) }
        ensures { IfOk result (λ object. object ≡ record { birth = birth; journal = []; banks = self.now }) }
    {
        self.pool.birth(alloc, birth)
    }

    /// What a call is handed that brings this; nothing where the bank lacks frames.
    #[tactic(auto, using(crate::proofs::CallsHanded::handed_none, crate::proofs::CallsHanded::handed_scan))]
    pub fn hand(
        &mut self,
        alloc: Global,
        kind: FrameKind,
        brought: Brought,
    ) -> Result<Option<FramesIn>, Memory>
        requires { counts_frames brought ≡ true }
        ensures same { self.new ≡ self.old }
        ensures handed { IfOk result (λ given. IfSome given (λ frames. HandedIn self.old kind brought frames)) }
    {
        match brought {
            Brought::Nothing => Ok(Some(FramesIn::NoneYet)),
            Brought::Frames(count) => self.gather(alloc, kind, count),
            Brought::Scanned => Ok(Some(self.empty.gather(alloc, 1)?)),
        }
    }

    /// So many frames of a kind; nothing where there are fewer at home.
    #[tactic(auto, using(crate::proofs::CallsHanded::handed_frames))]
    fn gather(
        &mut self,
        alloc: Global,
        kind: FrameKind,
        count: u32,
    ) -> Result<Option<FramesIn>, Memory>
        requires { 0 < count }
        ensures same { self.new ≡ self.old }
        ensures handed { IfOk result (λ given. IfSome given (HandedIn self.old kind (FramesBrought count))) }
    {
        let found = self.pool.gather(alloc, kind, count)?;
        Ok(given_only(alloc, found))
    }

    /// Brings frames home, each to the bank of its kind.
    pub fn bring_home(&mut self, frames: Frames)
        requires { AllOwn self.old frames.items }
        ensures { self.new ≡ self.old }
    {
        self.pool.bring_home(frames);
    }
}

/// What was gathered, where it is frames.
fn given_only(alloc: Global, found: FramesIn) -> Option<FramesIn>
    ensures { result ≡ given_only found }
{
    match found {
        FramesIn::Given(frames) => Some(FramesIn::Given(frames)),
        other => {
            other.into_frames(alloc).end();
            None
        }
    }
}
