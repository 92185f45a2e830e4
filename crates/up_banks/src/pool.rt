ghost use Rattle.std.specs.Prelude.{◌≡◌, ◌+◌, ◌-◌, ◌<◌, ◌≤◌, [], ◌∷◌, cond, length, nat_le, IfOk, OnOk, OnErr};
ghost use Rattle.up_bank.specs.Standing.{most_frames};
ghost use Rattle.up_bank.specs.declared.kind.FrameKind.TheVariants.{Ordinary as OrdinaryKind, Loaned as LoanedKind};
ghost use Rattle.up_model.specs.declared.entry.Brought.TheVariants.{Frames as FramesBrought, Scanned as ScanBrought};
ghost use Rattle.up_object.specs.Parts.{bank_of};
ghost use Rattle.up_object.specs.Change.{AllAre, AllOwn};
ghost use Rattle.up_object.specs.OneCall.{brought_of, frames_of};
ghost use Rattle.up_banks.specs.Pools.{banks_of, stored, without, pool_without, pool_with};

use crate::sole::SoleBank;
use std::alloc::Global;
use std::marker::Model;
use up_bank::{Frame, FrameKind};
use up_model::Birth;
use up_num::Memory;
use up_object::{FramesIn, Object};
use up_pages::Frames;

/// A bank of ordinary frames and one of loaned frames, with the only seat of each.
pub struct Pool {
    ordinary: SoleBank,
    loaned: SoleBank,
}

impl Model for Pool {
    ghost use Rattle.up_banks.specs.Pools.{Pooled};
    ghost use Rattle.up_banks.specs.Paired.{PoolStands};

    ghost Value = { Pooled };

    ghost view = { λ o. record { ordinary = o.ordinary; loaned = o.loaned } };

    ghost invariant = { PoolStands };
}

impl Pool {
    /// So many frames of each kind, all at home.
    pub fn new(alloc: Global, ordinary: u32, loaned: u32) -> Result<Pool, Memory>
        requires ordinary { ordinary ≤ most_frames }
        requires loaned { loaned ≤ most_frames }
        ensures home { IfOk result (λ pool. (pool.ordinary.home ≡ ordinary) × (pool.loaned.home ≡ loaned)) }
        ensures kinds { IfOk result (λ pool. (pool.ordinary.bank.kind ≡ OrdinaryKind) × (pool.loaned.bank.kind ≡ LoanedKind)) }
    {
        let ordinary = SoleBank::new(alloc, FrameKind::Ordinary, ordinary)?;
        match SoleBank::new(alloc, FrameKind::Loaned, loaned) {
            Ok(loaned) => Ok(Pool { ordinary, loaned }),
            Err(memory) => {
                ordinary.end();
                Err(memory)
            }
        }
    }

    pub fn end(self) {
        let Pool { ordinary, loaned } = self;
        ordinary.end();
        loaned.end();
    }

    /// A new object, whose frames will be of these banks.
    pub fn birth(&self, alloc: Global, birth: Birth) -> Result<Object, Memory>
        requires users { (0 < birth.users) × (birth.users ≤ 64) }
        requires pagers { (0 < birth.pagers) × (birth.pagers ≤ 64) }
        ensures { IfOk result (λ object. object ≡ record { birth = birth; journal = []; banks = banks_of self.now }) }
    {
        Object::birth(alloc, birth, self.ordinary.bank(), self.loaned.bank())
    }

    /// How many ordinary frames are at home.
    pub fn free(&mut self) -> u32
        ensures value { result ≡ self.old.ordinary.home }
        ensures same { self.new ≡ self.old }
    {
        self.ordinary.free()
    }

    /// Claims so many frames of a kind. Where fewer are at home all of them stay, and a scan is brought.
    pub fn gather(&mut self, alloc: Global, kind: FrameKind, count: u32) -> Result<FramesIn, Memory>
        requires { 0 < count }
        ensures brought { IfOk result (λ frames. brought_of frames ≡ cond (nat_le count (stored kind self.old).home) (FramesBrought count) ScanBrought) }
        ensures own { IfOk result (λ frames. AllAre (bank_of (banks_of self.old) kind) (frames_of frames)) }
        ensures within { IfOk result (λ frames. length (frames_of frames) ≤ (stored kind self.old).home) }
        ensures ok { IfOk result (λ frames. self.new ≡ pool_without kind (length (frames_of frames)) self.old) }
        ensures err { OnErr result (self.new ≡ self.old) }
    {
        match kind {
            FrameKind::Ordinary => self.ordinary.gather(alloc, count),
            FrameKind::Loaned => self.loaned.gather(alloc, count),
        }
    }

    /// Claims all loaned frames that are at home, into a list.
    pub fn gather_all(&mut self, into: &mut Frames) -> Result<(), Memory>
        ensures own { AllAre self.old.loaned.bank into.old.items → AllAre self.old.loaned.bank into.new.items }
        ensures count { OnOk result (length into.new.items ≡ length into.old.items + self.old.loaned.home) }
        ensures ok { OnOk result (self.new ≡ record self.old { loaned = without self.old.loaned.home self.old.loaned }) }
        ensures none { OnErr result (into.new ≡ into.old) }
        ensures err { OnErr result (self.new ≡ self.old) }
    {
        self.loaned.gather_all(into)
    }

    /// Brings frames home, each to the bank of its kind.
    pub fn bring_home(&mut self, frames: Frames)
        requires { AllOwn (banks_of self.old) frames.items }
        ensures { self.new ≡ pool_with frames.items self.old }
    {
        let mut rest = frames;
        while let Some(frame) = rest.pop() {
            self.give(frame);
        }
        rest.end();
    }

    fn give(&mut self, frame: Frame)
        requires { frame.bank ≡ bank_of (banks_of self.old) frame.bank.kind }
        ensures { self.new ≡ pool_with (frame ∷ []) self.old }
    {
        match frame.kind() {
            FrameKind::Ordinary => self.ordinary.give(frame),
            FrameKind::Loaned => self.loaned.give(frame),
        }
    }
}
