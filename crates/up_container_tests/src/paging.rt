ghost use Rattle.std.specs.Prelude.{◌≡◌, ℕ, ◌+◌, ◌<◌, ◌≤◌, ◌^◌, Some, IfOk, OnSome, length};
ghost use Rattle.up_bank.specs.Standing.{Held};
ghost use Rattle.up_pages.specs.Frames.{Each};

use PageState::{AwaitingClean, Clean, Dirty};
use std::alloc::Global;
use std::marker::Model;
use std::process::Abort;
use std::test::Fail;
use up_bank::{Bank, BankSeat, Frame, FrameKind};
use up_num::{DirtyRange, PageNo, PageRange, PageState};
use up_pages::{Frames, Look, PageList};

// A page list whose frames are all of one bank.
struct TestedPages {
    bank: Bank,
    seat: BankSeat,
    pages: PageList,
}

impl Model for TestedPages {
    ghost use Rattle.std.specs.Prelude.{◌≡◌, ℕ, Some};
    ghost use Rattle.up_bank.specs.Standing.{Held};
    ghost use Rattle.up_pages.specs.Pages.{size_of, page_at, frame_of};

    ghost Value = { ℕ };

    ghost view = { λ tested. size_of tested.pages };

    ghost invariant = { λ tested. (tested.seat.bank ≡ tested.bank) × ((p : ℕ) (frame : Held) → frame_of (page_at tested.pages p) ≡ Some frame → frame.bank ≡ tested.bank) };
}

fn give_some(bank: &Bank, seat: &mut BankSeat, frame: Option<Frame>) -> bool
    requires seat { seat.old.bank ≡ bank.now }
    requires frame { (out : Held) → frame ≡ Some out → out.bank ≡ bank.now }
    ensures { seat.new.bank ≡ bank.now }
{
    match frame {
        Some(frame) => {
            bank.give(seat, frame);
            true
        }
        None => false,
    }
}

fn give_all(bank: &Bank, seat: &mut BankSeat, frames: Frames)
    requires seat { seat.old.bank ≡ bank.now }
    requires frames { Each (λ out. out.bank ≡ bank.now) frames.items }
    ensures { seat.new.bank ≡ bank.now }
{
    let mut frames = frames;
    while let Some(frame) = frames.pop() {
        bank.give(seat, frame);
    }
    frames.end();
}

#[tactic(auto, using(up_pages::proofs::FramesOfPages::each_join))]
fn claim_into(bank: &Bank, seat: &mut BankSeat, frames: &mut Frames)
    requires seat { seat.old.bank ≡ bank.now }
    requires frames { Each (λ out. out.bank ≡ bank.now) frames.old.items }
    ensures seat { seat.new.bank ≡ bank.now }
    ensures frames { Each (λ out. out.bank ≡ bank.now) frames.new.items }
{
    if let Ok(frame) = bank.claim(seat) {
        match frames.push(frame) {
            Ok(()) => {}
            Err((_, frame)) => bank.give(seat, frame),
        }
    }
}

impl TestedPages {
    // So many absent pages, and a bank of four frames.
    fn new(alloc: Global, kind: FrameKind, pages: u32) -> Result<TestedPages, Fail>
        ensures { IfOk result (λ tested. tested ≡ pages) }
    {
        let (bank, seat) = Bank::new(alloc, kind, 4)?;
        let pages = PageList::new(alloc, pages)?;
        Ok(TestedPages { bank, seat, pages })
    }

    // Puts a frame under a page. Was one displaced?
    fn put(&mut self, rt: &impl Abort, page: u32, state: PageState) -> bool
        requires { page < self.old }
        ensures { self.new ≡ self.old }
    {
        self.pages.reserve(1).expect(rt, "memory");
        let frame = self.bank.claim(&mut self.seat).ok().expect(rt, "a frame");
        let displaced = self.pages.put(PageNo(page), frame, state);
        give_some(&self.bank, &mut self.seat, displaced)
    }
}

impl TestedPages {
    fn take(&mut self, rt: &impl Abort, page: u32) -> bool
        requires { page < self.old }
        ensures { self.new ≡ self.old }
    {
        self.pages.reserve(1).expect(rt, "memory");
        let displaced = self.pages.take(PageNo(page));
        give_some(&self.bank, &mut self.seat, displaced)
    }

    fn set_zero(&mut self, rt: &impl Abort, page: u32, state: PageState) -> bool
        requires { page < self.old }
        ensures { self.new ≡ self.old }
    {
        self.pages.reserve(1).expect(rt, "memory");
        let displaced = self.pages.set_zero(PageNo(page), state);
        give_some(&self.bank, &mut self.seat, displaced)
    }

    // Brings a page to where a look finds this. Was a frame displaced?
    fn bring(&mut self, rt: &impl Abort, page: u32, look: Look) -> bool
        requires { page < self.old }
        ensures { self.new ≡ self.old }
    {
        match look {
            Look::Absent => self.take(rt, page),
            Look::Zero(state) => self.set_zero(rt, page, state),
            Look::Held(state, _) => self.put(rt, page, state),
        }
    }

    fn write(&mut self, rt: &impl Abort, page: u32, at: u32, bytes: &[u8])
        requires { at + length bytes.now ≤ 4096 }
        ensures { self.new ≡ self.old }
    {
        let held = self.pages.bytes(PageNo(page)).is_some();
        assert!(rt; held);
        self.pages.write_at(PageNo(page), at, bytes);
    }

    fn set_state(&mut self, rt: &impl Abort, page: u32, state: PageState)
        requires { page < self.old }
        ensures { self.new ≡ self.old }
    {
        self.pages.reserve(1).expect(rt, "memory");
        self.pages.set_state(PageNo(page), state);
    }

    fn mark(&mut self, rt: &impl Abort, range: PageRange, to: PageState, zero_only: bool)
        requires { range.first + range.count ≤ self.old }
        ensures { self.new ≡ self.old }
    {
        self.pages.reserve(range.count).expect(rt, "memory");
        self.pages.mark_range(range, Dirty, to, zero_only);
    }

    // Cuts the list. How many frames came back?
    fn cut(&mut self, alloc: Global, pages: u32) -> Option<u32>
        requires { pages ≤ self.old }
        ensures { OnSome result (self.new ≡ pages) }
    {
        match self.pages.cut(alloc, pages) {
            Ok(frames) => {
                let count = frames.len();
                give_all(&self.bank, &mut self.seat, frames);
                Some(count)
            }
            Err(_) => None,
        }
    }

    fn grow(&mut self, rt: &impl Abort, pages: u32)
        requires { self.old ≤ pages }
        ensures { self.new ≡ pages }
    {
        self.pages.grow(pages).expect(rt, "memory");
    }

    // Spends the tested. How many frames were not at home?
    fn end(self) -> u32 {
        let TestedPages {
            bank,
            mut seat,
            pages,
        } = self;
        let frames = pages.end();
        let count = frames.len();
        give_all(&bank, &mut seat, frames);
        count
    }
}

const LOOKS: [Look; 4] = [
    Look::Absent,
    Look::Zero(Dirty),
    Look::Zero(AwaitingClean),
    Look::Held(Clean, FrameKind::Loaned),
];

#[test]
fn frames_come_back_from_every_page(rt: HostRuntime) -> Result<(), Fail> {
    for was in LOOKS {
        for to in LOOKS {
            let mut tested = TestedPages::new(rt.alloc(), FrameKind::Loaned, 3)?;
            let first = tested.bring(&rt, 1, was);
            let displaced = tested.bring(&rt, 1, to);
            let looks = [0, 1, 2].map(|page| tested.pages.look(PageNo(page)));
            let held = tested.end();
            let was_held = matches!(was, Look::Held(_, _));
            let is_held = matches!(to, Look::Held(_, _));
            assert!(rt; !first && displaced == was_held, "{was:?} to {to:?}");
            assert!(rt;
                looks == [Look::Absent, to, Look::Absent],
                "{was:?} to {to:?}"
            );
            assert_eq!(rt; held, u32::from(is_held), "{was:?} to {to:?}");
        }
    }
    Ok(())
}

#[test]
fn bytes_are_written_in_place(rt: HostRuntime) -> Result<(), Fail> {
    let mut tested = TestedPages::new(rt.alloc(), FrameKind::Ordinary, 2)?;
    tested.put(&rt, 0, Clean);
    tested.put(&rt, 1, Clean);
    tested.write(&rt, 1, 4092, b"page");
    tested.set_state(&rt, 1, Dirty);
    let written =
        matches!(tested.pages.bytes(PageNo(1)), Some(bytes) if bytes.ends_with(b"\0page"));
    let other = matches!(tested.pages.bytes(PageNo(0)), Some(bytes) if bytes.ends_with(b"\0\0"));
    let looks = [0, 1, 2].map(|page| tested.pages.look(PageNo(page)));
    tested.end();
    assert!(rt; written && other);
    assert!(rt;
        looks
            == [
                Look::Held(Clean, FrameKind::Ordinary),
                Look::Held(Dirty, FrameKind::Ordinary),
                Look::Absent
            ]
    );
    Ok(())
}

fn run(first: u32, count: u32, zero: bool) -> DirtyRange
    requires some { 0 < count }
    requires below { first + count < 2 ^ 32 }
{
    DirtyRange {
        range: PageRange { first, count },
        zero,
    }
}

#[test]
fn unclean_pages_make_runs(rt: HostRuntime) -> Result<(), Fail> {
    let mut tested = TestedPages::new(rt.alloc(), FrameKind::Ordinary, 8)?;
    tested.set_zero(&rt, 0, Dirty);
    tested.set_zero(&rt, 1, Dirty);
    tested.set_zero(&rt, 6, Dirty);
    tested.put(&rt, 2, Dirty);
    tested.put(&rt, 3, Dirty);
    tested.put(&rt, 5, Clean);
    let all = PageRange { first: 0, count: 8 };
    let (found, total) = tested.pages.runs(rt.alloc(), all, 9).expect(&rt, "memory");
    let (first, _) = tested.pages.runs(rt.alloc(), all, 1).expect(&rt, "memory");
    let part = PageRange { first: 1, count: 2 };
    let (within, _) = tested.pages.runs(rt.alloc(), part, 9).expect(&rt, "memory");
    tested.mark(&rt, part, AwaitingClean, true);
    let marked = [0, 1, 2].map(|page| tested.pages.look(PageNo(page)));
    tested.mark(&rt, all, AwaitingClean, false);
    let later = [1, 3, 4, 5].map(|page| tested.pages.look(PageNo(page)));
    tested.end();
    assert!(rt;
        found.as_slice() == [run(0, 2, true), run(2, 2, false), run(6, 1, true)].as_slice()
    );
    assert_eq!(rt; total, 3);
    assert!(rt; first.as_slice() == [run(0, 2, true)].as_slice());
    assert!(rt; within.as_slice() == [run(1, 1, true), run(2, 1, false)].as_slice());
    let (ordinary, waits) = (FrameKind::Ordinary, AwaitingClean);
    assert!(rt;
        marked
            == [
                Look::Zero(Dirty),
                Look::Zero(waits),
                Look::Held(Dirty, ordinary)
            ]
    );
    assert!(rt;
        later
            == [
                Look::Zero(waits),
                Look::Held(waits, ordinary),
                Look::Absent,
                Look::Held(Clean, ordinary)
            ]
    );
    Ok(())
}

#[test]
fn a_list_grows_and_is_cut(rt: HostRuntime) -> Result<(), Fail> {
    let mut tested = TestedPages::new(rt.alloc(), FrameKind::Ordinary, 2)?;
    tested.put(&rt, 0, Clean);
    tested.grow(&rt, 5);
    tested.put(&rt, 1, Clean);
    tested.put(&rt, 4, Dirty);
    let grown = tested.pages.size();
    let back = tested.cut(rt.alloc(), 1).expect(&rt, "memory");
    let looks = [0, 1, 4].map(|page| tested.pages.look(PageNo(page)));
    let none = tested.cut(rt.alloc(), 1).expect(&rt, "memory");
    let held = tested.end();
    assert_eq!(rt; [grown, back, none, held], [5, 2, 0, 1]);
    assert!(rt;
        looks
            == [
                Look::Held(Clean, FrameKind::Ordinary),
                Look::Absent,
                Look::Absent
            ]
    );
    Ok(())
}

#[test]
fn frames_are_taken_off_in_turn(rt: HostRuntime) -> Result<(), Fail> {
    let (bank, mut seat) = Bank::new(rt.alloc(), FrameKind::Ordinary, 2)?;
    let mut frames = Frames::new(rt.alloc());
    claim_into(&bank, &mut seat, &mut frames);
    claim_into(&bank, &mut seat, &mut frames);
    let count = frames.len();
    let last = frames.pop().expect(&rt, "a frame");
    let number = last.number();
    frames.put(last);
    give_all(&bank, &mut seat, frames);
    assert_eq!(rt; [count, number, bank.free(&mut seat)], [2, 1, 2]);
    Ok(())
}
