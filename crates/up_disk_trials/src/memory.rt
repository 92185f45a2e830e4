ghost use Rattle.std.specs.Prelude.{◌≡◌, ◌<◌, length, IfOk};

use std::alloc::Global;
use std::test::Fail;
use up_disk::{Blocks, Disk, MemDisk, PlainDisk};
use up_num::Memory;

// Block 0 has bytes 1, block 1 bytes 2.
fn two_blocks(alloc: Global, fail: &[u32], room: u32) -> Result<MemDisk, Memory>
    ensures { IfOk result (λ made. length made.start ≡ 2) }
{
    let mut bytes = [1; 8192];
    bytes[4096..].fill(2);
    MemDisk::new(alloc, &bytes, fail, room)
}

// Fills a block with one byte, and says whether that was answered with Ok.
fn fill<D: Disk>(disk: &mut D, number: u32, byte: u8) -> bool
    requires { number < D.count disk.old }
    ensures { D.count disk.new ≡ D.count disk.old }
{
    disk.write_block(number, &[byte; 4096]).is_ok()
}

// A read and a write of block 0, a write of block 1 and a sync: whether each was answered with Ok.
fn four_calls<D: Disk>(disk: &mut D) -> [bool; 4]
    requires { 1 < D.count disk.old }
    ensures { D.count disk.new ≡ D.count disk.old }
{
    let mut out = [0; 4096];
    let read = disk.read_block(0, &mut out).is_ok();
    let first = fill(disk, 0, 3);
    let second = fill(disk, 1, 4);
    let synced = disk.sync().is_ok();
    [read, first, second, synced]
}

// Whether each block has one byte alone, these in order.
fn are(blocks: &Blocks, bytes: &[u8]) -> bool {
    if blocks.len() != bytes.len() {
        return false;
    }
    for (block, byte) in blocks.as_slice().iter().zip(bytes.iter()) {
        if block.as_slice() != [*byte; 4096].as_slice() {
            return false;
        }
    }
    true
}

// The calls that fail, what the four calls answer, and what a stop may leave then in each block.
type Row = (&'static [u32], [bool; 4], &'static [u8], &'static [u8]);

const ROWS: [Row; 7] = [
    (&[], [true, true, true, true], &[3], &[4]),
    (&[1], [false, true, true, true], &[3], &[4]),
    (&[2], [true, false, true, true], &[1], &[4]),
    (&[3], [true, true, false, true], &[3], &[2]),
    (&[4], [true, true, true, false], &[1, 3], &[2, 4]),
    (&[2, 4], [true, false, true, false], &[1, 3], &[2, 4]),
    (
        &[1, 2, 3, 4],
        [false, false, false, false],
        &[1, 3],
        &[2, 4],
    ),
];

#[test]
fn each_call_fails_in_turn(rt: HostRuntime) -> Result<(), Fail> {
    for (fail, answers, first, second) in &ROWS {
        let mut disk = two_blocks(rt.alloc(), fail, 4)?;
        assert_eq!(rt; four_calls(&mut disk), *answers);
        assert!(rt; are(&disk.leaves(rt.alloc(), 0)?, first));
        assert!(rt; are(&disk.leaves(rt.alloc(), 1)?, second));
    }
    Ok(())
}

#[test]
fn a_failed_write_leaves_the_old_block(rt: HostRuntime) -> Result<(), Fail> {
    let mut disk = two_blocks(rt.alloc(), &[1], 2)?;
    assert!(rt; !fill(&mut disk, 1, 5));
    assert_eq!(rt; disk.block(1)[4095], 2);
    let mut out = [0; 4096];
    assert!(rt; disk.read_block(1, &mut out).is_ok());
    assert!(rt; out == [2; 4096]);
    // there was room for two calls
    assert!(rt; disk.read_block(1, &mut out).is_err());
    Ok(())
}

#[test]
fn all_calls_fail_after_the_stop(rt: HostRuntime) -> Result<(), Fail> {
    let mut disk = two_blocks(rt.alloc(), &[2], 9)?;
    disk.stop_after(3);
    assert!(rt; fill(&mut disk, 0, 3));
    // a write that fails counts too, and reads and syncs don't
    assert!(rt; !fill(&mut disk, 0, 4));
    assert!(rt; disk.sync().is_ok());
    let mut out = [0; 4096];
    assert!(rt; disk.read_block(0, &mut out).is_ok());
    assert!(rt; fill(&mut disk, 0, 5));
    assert!(rt; disk.read_block(0, &mut out).is_err());
    assert!(rt; disk.sync().is_err());
    assert!(rt; !fill(&mut disk, 0, 6));
    assert!(rt; are(&disk.leaves(rt.alloc(), 0)?, &[3, 5]));
    Ok(())
}

#[test]
fn a_content_is_told_once(rt: HostRuntime) -> Result<(), Fail> {
    let mut disk = two_blocks(rt.alloc(), &[], 9)?;
    assert!(rt; fill(&mut disk, 0, 1));
    assert!(rt; fill(&mut disk, 0, 7));
    assert!(rt; fill(&mut disk, 0, 8));
    assert!(rt; fill(&mut disk, 0, 7));
    assert!(rt; are(&disk.leaves(rt.alloc(), 0)?, &[1, 7, 8]));
    assert!(rt; are(&disk.leaves(rt.alloc(), 1)?, &[2]));
    assert!(rt; disk.sync().is_ok());
    assert!(rt; are(&disk.leaves(rt.alloc(), 0)?, &[7]));
    Ok(())
}

#[test]
fn a_plain_disk_never_fails(rt: HostRuntime) -> Result<(), Fail> {
    let mut bytes = [1; 8192];
    bytes[4096..].fill(2);
    let mut disk = PlainDisk::new(rt.alloc(), &bytes)?;
    assert_eq!(rt; four_calls(&mut disk), [true, true, true, true]);
    assert_eq!(rt; disk.block(0)[0], 3);
    assert_eq!(rt; disk.block(1)[0], 4);
    Ok(())
}
