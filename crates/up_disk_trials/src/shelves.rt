ghost use Rattle.std.specs.Prelude.{◌≡◌, ◌<◌, length, IfOk};

use std::alloc::Global;
use std::fs;
use std::test::Fail;
use up_disk::{Disk, FolderShelf, MemShelf, PlainDisk, Shelf};
use up_num::Memory;

// A disk of one block with this byte.
fn one_block(alloc: Global, byte: u8) -> Result<PlainDisk, Memory>
    ensures { IfOk result (λ made. length made ≡ 1) }
{
    PlainDisk::new(alloc, &[byte; 4096])
}

// A shelf with the disk `one` of one block.
fn shelf_with_one(alloc: Global, fail: &[u32], room: u32) -> Result<MemShelf<PlainDisk>, Memory> {
    let mut shelf = MemShelf::new(alloc, fail, room)?;
    let disk = one_block(alloc, 7)?;
    match shelf.hold(alloc, b"one", 1, disk) {
        Ok(()) => Ok(shelf),
        Err((memory, _disk)) => Err(memory),
    }
}

// The first byte of the only block, where the disk has one and it is read.
fn first_byte<D: Disk>(disk: &mut D) -> Option<u8>
    requires { 0 < D.count disk.old }
    ensures { D.count disk.new ≡ D.count disk.old }
{
    let mut out = [0; 4096];
    match disk.read_block(0, &mut out) {
        Ok(()) => Some(out[0]),
        Err(_) => None,
    }
}

#[test]
fn a_disk_is_brought_and_put_back(rt: HostRuntime) -> Result<(), Fail> {
    let alloc = rt.alloc();
    let mut shelf = shelf_with_one(alloc, &[], 9)?;
    // another name, another number of blocks
    assert!(rt; shelf.bring(alloc, b"two", 1)?.is_err());
    assert!(rt; shelf.bring(alloc, b"one", 2)?.is_err());
    let mut disk = shelf.bring(alloc, b"one", 1)??;
    assert_eq!(rt; first_byte(&mut disk), Some(7));
    // it was given away
    assert!(rt; shelf.bring(alloc, b"one", 1)?.is_err());
    assert!(rt; shelf.back(0).is_none());
    shelf.put_back(0, disk);
    assert!(rt; shelf.back(0).is_some());
    assert!(rt; shelf.back(1).is_none());
    Ok(())
}

// The calls that fail, the room, and which of two calls for the same disk gives it.
const ROWS: [(&[u32], u32, [bool; 2]); 4] = [
    (&[], 2, [true, false]),
    (&[1], 2, [false, true]),
    (&[1, 2], 2, [false, false]),
    (&[1], 1, [false, false]),
];

#[test]
fn calls_for_a_disk_fail_in_turn(rt: HostRuntime) -> Result<(), Fail> {
    let alloc = rt.alloc();
    for (fail, room, gives) in &ROWS {
        let mut shelf = shelf_with_one(alloc, fail, *room)?;
        assert_eq!(rt; shelf.bring(alloc, b"one", 1)?.is_ok(), gives[0]);
        assert_eq!(rt; shelf.bring(alloc, b"one", 1)?.is_ok(), gives[1]);
    }
    Ok(())
}

#[test]
fn a_folder_gives_its_files(rt: HostRuntime) -> Result<(), Fail> {
    let alloc = rt.alloc();
    let _ = fs::remove_file(&rt, "upfoldertrials");
    let mut shelf = FolderShelf::new(alloc, &rt);
    let mut disk = shelf.bring(alloc, b"upfoldertrials", 1)??;
    assert_eq!(rt; first_byte(&mut disk), Some(0));
    assert!(rt; disk.write_block(0, &[6; 4096]).is_ok());
    shelf.put_back(0, disk);
    let mut again = shelf.bring(alloc, b"upfoldertrials", 1)??;
    assert_eq!(rt; first_byte(&mut again), Some(6));
    fs::remove_file(&rt, "upfoldertrials")?;
    // a name that is no text
    assert!(rt; shelf.bring(alloc, b"\xff", 1)?.is_err());
    Ok(())
}
