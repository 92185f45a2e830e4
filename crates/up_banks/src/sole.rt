ghost use Rattle.std.specs.Prelude.{◌≡◌, ◌+◌, ◌<◌, ◌≤◌, cond, true, length, max, nat_le, sum, IfOk, IfSome, OnOk, OnErr};
ghost use Rattle.up_bank.specs.Standing.{first_seat, frames_of as frames_in_bank, most_frames};
ghost use Rattle.up_model.specs.declared.entry.Brought.TheVariants.{Frames as FramesBrought, Scanned as ScanBrought};
ghost use Rattle.up_object.specs.Change.{AllAre};
ghost use Rattle.up_object.specs.OneCall.{brought_of, frames_of};
ghost use Rattle.up_banks.specs.Pools.{without, with_more};

use std::alloc::Global;
use std::marker::Model;
use up_bank::{Bank, BankSeat, Frame, FrameKind, Scan};
use up_num::Memory;
use up_object::FramesIn;
use up_pages::Frames;

/// A bank of frames with its only seat. One that is to have no frame has one that is put aside.
pub struct SoleBank {
    bank: Bank,
    seat: BankSeat,
    aside: Option<Frame>,
}

impl Model for SoleBank {
    ghost use Rattle.std.specs.Prelude.{sum};
    ghost use Rattle.up_banks.specs.Pools.{Stored};
    ghost use Rattle.up_banks.specs.Soles.{SoleStands};

    ghost Value = { Stored };

    ghost view = { λ o. record { bank = o.bank; home = sum o.seat.home } };

    ghost invariant = { SoleStands };
}

impl SoleBank {
    /// So many frames, all at home.
    pub fn new(alloc: Global, kind: FrameKind, frames: u32) -> Result<SoleBank, Memory>
        requires { frames ≤ most_frames }
        ensures kind { IfOk result (λ made. made.bank.kind ≡ kind) }
        ensures home { IfOk result (λ made. made.home ≡ frames) }
    {
        let (bank, mut seat) = Bank::new(alloc, kind, frames.max(1))?;
        let aside = put_aside(&bank, &mut seat, frames);
        Ok(SoleBank { bank, seat, aside })
    }

    /// Ends it, with all frames at home that aren't out.
    pub fn end(self) {
        let SoleBank {
            bank,
            mut seat,
            aside,
        } = self;
        if let Some(frame) = aside {
            bank.give(&mut seat, frame);
        }
    }

    /// The bank itself.
    pub fn bank(&self) -> &Bank
        ensures { result.now ≡ self.now.bank }
    {
        &self.bank
    }

    /// How many frames are at home.
    pub fn free(&mut self) -> u32
        ensures value { result ≡ self.old.home }
        ensures same { self.new ≡ self.old }
    {
        self.bank.free(&mut self.seat)
    }

    /// Claims a frame. A scan comes only where none is at home.
    fn claim(&mut self) -> Result<Frame, Scan>
        ensures frame { IfOk result (λ frame. frame.bank ≡ self.old.bank) }
        ensures some { OnOk result (0 < self.old.home) }
        ensures ok { OnOk result (self.new ≡ without 1 self.old) }
        ensures none { OnErr result (self.old.home ≡ 0) }
        ensures err { OnErr result (self.new ≡ self.old) }
    {
        self.bank.claim(&mut self.seat)
    }

    /// Brings a frame home.
    pub fn give(&mut self, frame: Frame)
        requires { frame.bank ≡ self.old.bank }
        ensures { self.new ≡ with_more 1 self.old }
    {
        self.bank.give(&mut self.seat, frame);
    }

    /// Brings all frames of a list home.
    fn give_all(&mut self, frames: Frames)
        requires { AllAre self.old.bank frames.items }
        ensures { self.new ≡ with_more (length frames.items) self.old }
    {
        let mut rest = frames;
        while let Some(frame) = rest.pop() {
            self.give(frame);
        }
        rest.end();
    }

    /// Claims so many frames. Where fewer are at home all of them stay, and a scan is brought.
    pub fn gather(&mut self, alloc: Global, count: u32) -> Result<FramesIn, Memory>
        requires { 0 < count }
        ensures brought { IfOk result (λ frames. brought_of frames ≡ cond (nat_le count self.old.home) (FramesBrought count) ScanBrought) }
        ensures own { IfOk result (λ frames. AllAre self.old.bank (frames_of frames)) }
        ensures within { IfOk result (λ frames. length (frames_of frames) ≤ self.old.home) }
        ensures ok { IfOk result (λ frames. self.new ≡ without (length (frames_of frames)) self.old) }
        ensures err { OnErr result (self.new ≡ self.old) }
    {
        let room = self.free().min(count);
        let mut frames = Frames::with_room(alloc, room)?;
        for _place in 0..count {
            match self.claim() {
                Ok(frame) => frames.put(frame),
                Err(scan) => {
                    self.give_all(frames);
                    return Ok(FramesIn::Scanned(scan));
                }
            }
        }
        Ok(FramesIn::Given(frames))
    }

    /// Claims all frames that are at home, into a list.
    pub fn gather_all(&mut self, into: &mut Frames) -> Result<(), Memory>
        ensures own { AllAre self.old.bank into.old.items → AllAre self.old.bank into.new.items }
        ensures count { OnOk result (length into.new.items ≡ length into.old.items + self.old.home) }
        ensures ok { OnOk result (self.new ≡ without self.old.home self.old) }
        ensures none { OnErr result (into.new ≡ into.old) }
        ensures err { OnErr result (self.new ≡ self.old) }
    {
        let free = self.free();
        into.make_room(free)?;
        for _place in 0..free {
            match self.claim() {
                Ok(frame) => into.put(frame),
                Err(_) => unreachable!(),
            }
        }
        Ok(())
    }
}

/// The only frame of a bank that is to have none.
fn put_aside(bank: &Bank, seat: &mut BankSeat, frames: u32) -> Option<Frame>
    requires new { seat.old ≡ first_seat bank.now }
    requires count { frames_in_bank bank.now ≡ max frames 1 }
    ensures frame { IfSome result (λ frame. frame.bank ≡ bank.now) }
    ensures seat { (seat.new.bank ≡ bank.now) × (seat.new.sole ≡ true) }
    ensures home { sum seat.new.home ≡ frames }
{
    if frames > 0 {
        return None;
    }
    match bank.claim(seat) {
        Ok(frame) => Some(frame),
        Err(_) => unreachable!(),
    }
}
