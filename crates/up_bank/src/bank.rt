ghost use Rattle.std.specs.Prelude.{◌≡◌, ◌≢◌, ◌+◌, ◌<◌, ◌≤◌, [], ◌∷◌, true, false, length, slice_index, slice_set, sum, IsTrue, IfOk, IfErr, Some};
ghost use Rattle.up_bank.specs.Bytes.{Extends, Brings, bytes_of, longer};
ghost use Rattle.up_bank.specs.Find.{FoundHome, FoundOut, NoneTwice, Scanned, Counted, words_of};
ghost use Rattle.up_bank.specs.Standing.{first_seat, second_seat, frames_of, most_frames};

use crate::Memory;
use crate::frame::Frame;
use crate::kind::FrameKind;
use crate::rule::{Board, Part, Place, Shape};
use std::alloc::Global;
use std::marker::Model;
use std::snapshot::Snapshot;

/// A bank of page frames of one kind, which threads share. Each frame is at home, or out as one `Frame`.
#[derive(Drop)]
pub struct Bank {
    pub(crate) table: Board,
    pub(crate) shape: Shape,
}

impl Model for Bank {
    ghost use Rattle.std.specs.Prelude.{◌≡◌, ◌*◌, ◌<◌, ◌≤◌};
    ghost use Rattle.up_bank.specs.Find.{words_of};
    ghost use Rattle.up_bank.specs.Standing.{BankId, most_frames};

    ghost Value = { BankId };

    ghost view = { λ bank. record { table = bank.table.shared.table_id; kind = bank.shape.kind } };

    ghost invariant = { λ bank. (bank.table.shared.key ≡ bank.shape) × (bank.table.shared.table_id.slots ≡ bank.shape.frames)
        × (bank.table.shared.table_id.words ≡ words_of bank.shape.frames * 2) × (0 < bank.shape.frames) × (bank.shape.frames ≤ most_frames) };
}

/// What a thread calls a bank with. It takes no bytes.
#[derive(Drop)]
pub struct BankSeat {
    place: Place,
}

impl Model for BankSeat {
    ghost use Rattle.std.specs.Prelude.{◌≡◌, true, length};
    ghost use Rattle.up_bank.specs.Scan.{Idle};
    ghost use Rattle.up_bank.specs.Standing.{Standing};

    ghost Value = { Standing };

    ghost view = { λ seat. record {
      bank = record { table = seat.place.table_id; kind = seat.place.me.0.kind };
      sole = seat.place.me.0.sole;
      home = seat.place.me.0.home;
      finds = seat.place.me.0.finds;
      gives = seat.place.me.0.gives;
    } };

    ghost invariant = { λ seat. Idle seat.place.me × (seat.place.me.0.sole ≡ true → length seat.place.me.0.home ≡ seat.place.table_id.slots) };
}

/// A claim found every frame of the bank not at home.
#[derive(Drop)]
pub struct Scan {
    bank: Snapshot<Bank>,
}

impl Model for Scan {
    ghost use Rattle.up_bank.specs.Standing.{BankId};

    ghost Value = { BankId };

    ghost view = { λ scan. scan.bank.value };
}

impl Bank {
    /// A bank of 1 to 131,072 frames of one kind, all zeros and at home, and its first seat.
    pub fn new(alloc: Global, kind: FrameKind, frames: u32) -> Result<(Bank, BankSeat), Memory>
        requires some { 0 < frames }
        requires few { frames ≤ most_frames }
        ensures bank { IfOk result (λ made. (made.0.kind ≡ kind) × (frames_of made.0 ≡ frames)) }
        ensures seat { IfOk result (λ made. made.1 ≡ first_seat made.0) }
    {
        let shape = Shape { frames, kind };
        let (table, place) = Bank::board(alloc, shape)?;
        Ok((Bank { table, shape }, BankSeat { place }))
    }

    /// Takes a frame that is at home. It looks at each word of the bank's bitmap once, and then tries each frame
    /// at most once.
    pub fn claim(&self, seat: &mut BankSeat) -> Result<Frame, Scan>
        requires { seat.old.bank ≡ self.now }
        ensures seat { (seat.new.bank ≡ seat.old.bank) × (seat.new.sole ≡ seat.old.sole) }
        ensures once { NoneTwice seat.old.finds seat.new.finds (frames_of self.now) }
        ensures few { length seat.new.finds ≤ length seat.old.finds + (frames_of self.now + words_of (frames_of self.now)) }
        ensures gives { Extends seat.old.gives seat.new.gives }
        ensures frame { IfOk result (λ frame. (frame.bank ≡ self.now) × (frame.number < frames_of self.now)) }
        ensures kind { IfOk result (λ frame. frame.bank.kind ≡ self.now.kind) }
        ensures found { IfOk result (λ frame. FoundHome seat.old.finds seat.new.finds frame.number) }
        ensures bytes { IfOk result (λ frame. frame.bytes ≡ bytes_of seat.new.gives frame.number) }
        ensures home { IfOk result (λ frame. seat.new.home ≡ slice_set seat.old.home frame.number 0) }
        ensures scan { IfErr result (λ scan. scan ≡ self.now) }
        ensures scanned { IfErr result (λ _. Scanned seat.old.finds seat.new.finds (frames_of self.now)) }
        ensures same { IfErr result (λ _. (seat.new.home ≡ seat.old.home) × (seat.new.gives ≡ seat.old.gives)) }

        // A sole seat takes a frame that it knew to be at home, and gets a scan only where it knew of none.
        ensures alone_gives { IsTrue seat.old.sole → seat.new.gives ≡ seat.old.gives }
        ensures alone_home { IfOk result (λ frame. IsTrue seat.old.sole → slice_index seat.old.home frame.number ≡ 1) }
        ensures alone_sum { IfOk result (λ frame. IsTrue seat.old.sole → sum seat.new.home + 1 ≡ sum seat.old.home) }
        ensures alone_scan { IfErr result (λ _. IsTrue seat.old.sole → sum seat.old.home ≡ 0) }
    {
        if let Some(frame) = self.claim_at(&mut seat.place) {
            return Ok(frame);
        }
        Err(Scan {
            bank: Snapshot::of(self),
        })
    }

    /// Brings a frame home, which any seat of its bank may do.
    pub fn give(&self, seat: &mut BankSeat, frame: Frame)
        requires seat { seat.old.bank ≡ self.now }
        requires frame { frame.bank ≡ self.now }
        ensures seat { (seat.new.bank ≡ seat.old.bank) × (seat.new.sole ≡ seat.old.sole) }
        ensures found { FoundOut seat.old.finds seat.new.finds frame.number }
        ensures home { seat.new.home ≡ slice_set seat.old.home frame.number 1 }
        ensures gives { Brings seat.old.gives seat.new.gives frame.number frame.bytes }

        // A sole seat brings a frame home that it knew to be out, and knows of all returns.
        ensures alone_gives { IsTrue seat.old.sole → seat.new.gives ≡ record { number = frame.number; bytes = frame.bytes } ∷ seat.old.gives }
        ensures alone_home { IsTrue seat.old.sole → slice_index seat.old.home frame.number ≡ 0 }
        ensures alone_sum { IsTrue seat.old.sole → sum seat.new.home ≡ sum seat.old.home + 1 }
    {
        let Frame {
            place,
            number,
            kind: _,
            block,
        } = frame;
        self.give_at(&mut seat.place, place, number, block);
    }

    /// How many frames it found at home. A frame that comes or goes meanwhile may be counted or not.
    pub fn free(&self, seat: &mut BankSeat) -> u32
        requires { seat.old.bank ≡ self.now }
        ensures seat { seat.new ≡ record seat.old { finds = seat.new.finds } }
        ensures count { Counted seat.old.finds seat.new.finds (frames_of self.now) result }
        ensures alone { IsTrue seat.old.sole → result ≡ sum seat.old.home }
    {
        self.free_at(&mut seat.place)
    }

    /// A second seat, for another thread. It has no finds, and knows the returns that this one knows.
    pub fn split(&self, seat: &mut BankSeat) -> BankSeat
        requires { seat.old.bank ≡ self.now }
        ensures seat { seat.new ≡ record seat.old { sole = false; home = [] } }
        ensures second { result ≡ second_seat self.now seat.old.gives }
    {
        let second = self.table.shared.split_seat::<Part>(&mut seat.place);
        BankSeat { place: second }
    }

    /// Gives up a seat. The one that stays keeps its own finds, and knows the returns that either knew.
    pub fn join(&self, seat: &mut BankSeat, other: BankSeat)
        requires seat { seat.old.bank ≡ self.now }
        requires other { other.bank ≡ self.now }
        ensures seat { seat.new ≡ record seat.old { gives = longer seat.old.gives other.gives } }
        ensures seen { Extends seat.old.gives seat.new.gives × Extends other.gives seat.new.gives }
    {
        let BankSeat { place } = other;
        self.unite(&mut seat.place, place);
    }

    /// Two frames that are out at once have different numbers. This tells it of two that are at hand, by a few loads, and
    /// leaves both as they were.
    pub fn apart(&self, one: &mut Frame, other: &mut Frame)
        requires { (one.old.bank ≡ self.now) × (other.old.bank ≡ self.now) }
        ensures same { (one.new ≡ one.old) × (other.new ≡ other.old) }
        ensures numbers { one.old.number ≢ other.old.number }
    {
        self.tell_apart(&mut one.place, one.number, &mut other.place);
        let _ = other.number;
    }
}
