ghost use Rattle.std.specs.Prelude.{◌≡◌, ◌≢◌, ◌<◌, ◌≤◌, [], All};
ghost use Rattle.up_bank.specs.Standing.{most_frames};

use std::alloc::Global;
use std::snapshot::Snapshot;
use std::test::Fail;
use std::thread;
use std::thread::Threads;
use up_bank::{Bank, BankSeat, Frame, FrameKind, Memory};

#[test]
fn a_bank_of_three_frames(rt: HostRuntime) -> Result<(), Fail> {
    let (bank, mut seat) = Bank::new(rt.alloc(), FrameKind::Ordinary, 3)?;
    // The contracts tell which of these give a frame: the other arms are proved unreachable.
    let Ok(first) = bank.claim(&mut seat) else {
        unreachable!()
    };
    let Ok(second) = bank.claim(&mut seat) else {
        unreachable!()
    };
    let Ok(third) = bank.claim(&mut seat) else {
        unreachable!()
    };
    if let Ok(fourth) = bank.claim(&mut seat) {
        bank.give(&mut seat, fourth);
        unreachable!()
    }
    bank.give(&mut seat, second);
    let free = bank.free(&mut seat);
    let Ok(second) = bank.claim(&mut seat) else {
        unreachable!()
    };
    if let Ok(fourth) = bank.claim(&mut seat) {
        bank.give(&mut seat, fourth);
        unreachable!()
    }
    let numbers = [first.number(), second.number(), third.number()];
    bank.give(&mut seat, first);
    bank.give(&mut seat, second);
    bank.give(&mut seat, third);
    assert_eq!(rt; free, 1);
    assert!(rt; numbers[0] != numbers[1] && numbers[1] != numbers[2] && numbers[0] != numbers[2]);
    assert_eq!(rt; bank.free(&mut seat), 3);
    Ok(())
}

#[test]
fn bytes_are_written_and_read(rt: HostRuntime) -> Result<(), Fail> {
    let (bank, mut seat) = Bank::new(rt.alloc(), FrameKind::Loaned, 1)?;
    let Ok(mut frame) = bank.claim(&mut seat) else {
        unreachable!()
    };
    let blank = frame.bytes().iter().all(|byte| *byte == 0);
    frame.set(0, b"first");
    frame.set(4091, b"final");
    let bytes = frame.bytes();
    let written = bytes[0] == b'f'
        && bytes[4] == b't'
        && bytes[5] == 0
        && bytes[4090] == 0
        && bytes[4091] == b'f'
        && bytes[4095] == b'l';
    let kind = frame.kind();
    bank.give(&mut seat, frame);
    assert!(rt; blank && written && kind == FrameKind::Loaned);
    Ok(())
}

// A lone seat's frame comes back with the bytes that were set: the contracts tell it.
#[test]
fn a_frame_comes_back_with_its_bytes(rt: HostRuntime) -> Result<(), Fail> {
    let (bank, mut seat) = Bank::new(rt.alloc(), FrameKind::Ordinary, 1)?;
    let Ok(mut frame) = bank.claim(&mut seat) else {
        unreachable!()
    };
    frame.set(7, b"mark");
    let set = Snapshot::of(&frame);
    bank.give(&mut seat, frame);
    let Ok(frame) = bank.claim(&mut seat) else {
        unreachable!()
    };
    let again = same_bytes(&frame, set);
    bank.give(&mut seat, frame);
    assert!(rt; again);
    Ok(())
}

// Asks for what its caller proves: that the frame has the bytes that it had then. Looks at the mark too.
fn same_bytes(frame: &Frame, set: Snapshot<Frame>) -> bool
    requires { frame.now.bytes ≡ set.value.bytes }
{
    let _ = set;
    &frame.bytes()[7..11] == b"mark".as_slice() && frame.bytes()[11] == 0
}

// Two frames at hand, which two seats claimed, have different numbers: the contracts tell it.
#[test]
fn frames_at_hand_are_told_apart(rt: HostRuntime) -> Result<(), Fail> {
    let (bank, mut first) = Bank::new(rt.alloc(), FrameKind::Ordinary, 2)?;
    let mut second = bank.split(&mut first);
    let mut apart = false;
    if let Ok(mut one) = bank.claim(&mut first) {
        if let Ok(mut other) = bank.claim(&mut second) {
            bank.apart(&mut one, &mut other);
            apart = are_different(&one, &other);
            bank.give(&mut first, other);
        }
        bank.give(&mut second, one);
    }
    bank.join(&mut first, second);
    assert!(rt; apart);
    assert_eq!(rt; bank.free(&mut first), 2);
    Ok(())
}

// Asks for what its caller proves, and looks too.
fn are_different(one: &Frame, other: &Frame) -> bool
    requires { one.now.number ≢ other.now.number }
{
    one.number() != other.number()
}

// Claims until there is no frame or no room.
fn claim_all(bank: &Bank, seat: &mut BankSeat, frames: &mut Vec<Frame>)
    requires seat { seat.old.bank ≡ bank.now }
    requires frames { All (λ frame. frame.bank ≡ bank.now) frames.old.items }
    ensures seat { seat.new.bank ≡ bank.now }
    ensures frames { All (λ frame. frame.bank ≡ bank.now) frames.new.items }
{
    for _ in 0..u32::MAX {
        let Ok(frame) = bank.claim(seat) else {
            return;
        };
        if let Err(failed) = frames.push(frame) {
            bank.give(seat, failed.value);
            return;
        }
    }
}

fn give_all(bank: &Bank, seat: &mut BankSeat, frames: &mut Vec<Frame>)
    requires seat { seat.old.bank ≡ bank.now }
    requires frames { All (λ frame. frame.bank ≡ bank.now) frames.old.items }
    ensures seat { seat.new.bank ≡ bank.now }
    ensures frames { frames.new.items ≡ [] }
{
    while let Some(frame) = frames.pop() {
        bank.give(seat, frame);
    }
}

// Whether the frames have numbers below the count, each at most once.
fn are_apart(
    alloc: Global,
    frames: &[Frame],
    others: &[Frame],
    count: usize,
) -> Result<bool, Memory> {
    let mut seen = vec![in alloc; false; count]?;
    for frame in frames.iter().chain(others.iter()) {
        let number = frame.number() as usize;
        if number >= seen.len() || seen[number] {
            return Ok(false);
        }
        seen[number] = true;
    }
    Ok(true)
}

// Whether a bank of so many frames has each of them at home, hands each out once, and then none.
fn hands_out_each_frame_once(alloc: Global, kind: FrameKind, frames: u32) -> Result<bool, Memory>
    requires some { 0 < frames }
    requires few { frames ≤ most_frames }
{
    let (bank, mut seat) = Bank::new(alloc, kind, frames)?;
    let at_first = bank.free(&mut seat);
    let mut claimed = Vec::new(alloc);
    claim_all(&bank, &mut seat, &mut claimed);
    let count = claimed.len();
    let left = bank.free(&mut seat);
    let apart = are_apart(alloc, claimed.as_slice(), &[], frames as usize);
    give_all(&bank, &mut seat, &mut claimed);
    claimed.destroy_empty();
    let at_last = bank.free(&mut seat);
    let whole = count == frames as usize && apart?;
    Ok(whole && at_first == frames && left == 0 && at_last == frames)
}

#[test]
fn banks_of_all_sizes_hand_out_each_frame_once(rt: HostRuntime) -> Result<(), Fail> {
    let alloc = rt.alloc();
    assert!(rt; hands_out_each_frame_once(alloc, FrameKind::Ordinary, 1)?);
    assert!(rt; hands_out_each_frame_once(alloc, FrameKind::Loaned, 63)?);
    assert!(rt; hands_out_each_frame_once(alloc, FrameKind::Ordinary, 64)?);
    assert!(rt; hands_out_each_frame_once(alloc, FrameKind::Loaned, 65)?);
    assert!(rt; hands_out_each_frame_once(alloc, FrameKind::Loaned, 4_096)?);
    assert!(rt; hands_out_each_frame_once(alloc, FrameKind::Ordinary, 16_384)?);
    Ok(())
}

// Two threads claim all frames at once, and then each gives back what the other claimed. Whether all frames were
// claimed, each once, and are at home again.
fn round<R: Threads + Sync>(
    rt: &R,
    alloc: Global,
    bank: &Bank,
    first: &mut BankSeat,
    second: &mut BankSeat,
) -> bool
    requires first { first.old.bank ≡ bank.now }
    requires second { second.old.bank ≡ bank.now }
    ensures first { first.new.bank ≡ bank.now }
    ensures second { second.new.bank ≡ bank.now }
{
    let mut mine = Vec::new(alloc);
    let mut others = Vec::new(alloc);
    thread::join_mut(
        rt,
        &mut || claim_all(bank, first, &mut mine),
        &mut || claim_all(bank, second, &mut others),
    );
    let claimed = mine.len() + others.len();
    let apart = are_apart(alloc, mine.as_slice(), others.as_slice(), 64);
    thread::join_mut(
        rt,
        &mut || give_all(bank, first, &mut others),
        &mut || give_all(bank, second, &mut mine),
    );
    mine.destroy_empty();
    others.destroy_empty();
    claimed == 64 && matches!(apart, Ok(true)) && bank.free(first) == 64
}

const ROUNDS: u32 = 500;

// How many rounds went as they should.
fn good_rounds<R: Threads + Sync>(
    rt: &R,
    alloc: Global,
    bank: &Bank,
    first: &mut BankSeat,
    second: &mut BankSeat,
) -> u32
    requires first { first.old.bank ≡ bank.now }
    requires second { second.old.bank ≡ bank.now }
    ensures first { first.new.bank ≡ bank.now }
    ensures second { second.new.bank ≡ bank.now }
{
    let mut good = 0;
    for _ in 0..ROUNDS {
        if round(rt, alloc, bank, first, second) {
            good += 1;
        }
    }
    good
}

#[test]
fn two_threads_claim_frames_of_different_numbers(rt: HostRuntime) -> Result<(), Fail> {
    let (bank, mut first) = Bank::new(rt.alloc(), FrameKind::Ordinary, 64)?;
    let mut second = bank.split(&mut first);
    let good = good_rounds(&rt, rt.alloc(), &bank, &mut first, &mut second);
    bank.join(&mut first, second);
    assert_eq!(rt; good, ROUNDS);
    assert_eq!(rt; bank.free(&mut first), 64);
    Ok(())
}
