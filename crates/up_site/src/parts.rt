//! Steps on the disk, the object's bytes and a stage's bytes, each by itself.
ghost use Rattle.std.specs.Prelude.{◌≡◌, ℕ, ◌+◌, ◌*◌, ◌<◌, ◌≤◌, true, is_some, is_ok, length, ◌++◌};
ghost use Rattle.std.specs.Prelude.{slice_set, IfOk, OnOk, OnErr};
ghost use Rattle.up_num.specs.Span.{covers};
ghost use Rattle.up_disk.specs.Left.{IsOldOrWritten};
ghost use Rattle.up_model.specs.Value.{there, bytes_from};
ghost use Rattle.up_site.specs.Stages.{IsWhole, stage_at};
ghost use Rattle.up_site.specs.Places.{IsCopied, bytes_held};
ghost use Rattle.up_site.specs.Standing.{ReadFrom, RoseIf, part_of, telling, LeavesNoMore, LeavesWritten};
ghost use Rattle.up_site.specs.Standing.{LeavesBlocks};

use crate::stage::{Stage, Tour};
use crate::tours::place_of;
use std::alloc::Global;
use up_disk::Disk;
use up_num::{Bytes, Memory, PageNo, PageRange, Piece};
use up_object::Object;

// Appends the bytes of a page that is there.
fn add_page(object: &Object, alloc: Global, bytes: &mut Vec<u8>, page: u32) -> Result<(), Memory>
    requires present { there object.now.birth object.now.journal page ≡ true }
    ensures { OnOk result (bytes.new.items
        ≡ bytes.old.items ++ bytes_from object.now.birth object.now.journal (4096 * page) 4096) }
{
    let off = u64::from(page) * 4096;
    let more = object.bytes(alloc, &Piece { off, len: 4096 })?;
    bytes.extend_from_slice(more.as_slice())?;
    Ok(())
}

// The bytes of pages that are there.
pub(crate) fn bytes_in(object: &Object, alloc: Global, range: PageRange) -> Result<Bytes, Memory>
    requires present { (p : ℕ) → covers range p ≡ true → there object.now.birth object.now.journal p ≡ true }
    ensures value { IfOk result (λ bytes. bytes
        ≡ bytes_from object.now.birth object.now.journal (4096 * range.first) (4096 * range.count)) }
    ensures whole { IfOk result (λ bytes. length bytes ≡ 4096 * range.count) }
{
    let mut bytes = Vec::new(alloc);
    let mut done = 0;
    while done < range.count {
        add_page(object, alloc, &mut bytes, range.first + done)?;
        done += 1;
    }
    Ok(Bytes::from_vec(bytes))
}

// Reads the block of a page, well or not. Memory is taken before the disk is touched.
pub(crate) fn read_page<D: Disk>(
    disk: &mut D,
    alloc: Global,
    page: PageNo,
) -> Result<Option<Bytes>, Memory>
    requires number { page.0 < D.count disk.old }
    ensures count { D.count disk.new ≡ D.count disk.old }
    ensures same { D.tells ≡ true → D.blocks disk.new ≡ D.blocks disk.old }
    ensures whole { IfOk result (λ block. IsWhole block) }
    ensures gives { IfOk result (λ block. D.tells ≡ true → ReadFrom (D.blocks disk.old) page.0 block) }
    ensures rose { IfOk result (λ block. RoseIf (is_some block) (D.faults disk.old) (D.faults disk.new)) }
    ensures later { D.faults disk.old ≤ D.faults disk.new }
    ensures untouched { OnErr result (disk.new ≡ disk.old) }
    ensures left { LeavesNoMore (telling D.tells D.count D.blocks D.faults D.lasts D.time D.leaves) disk.old
        disk.new }
    ensures once { D.calls disk.new ≤ D.calls disk.old + 1 }
{
    let mut block = vec![in alloc; 0; 4096]?;
    match disk.read_block(page.0, block.as_mut_slice()) {
        Ok(()) => Ok(Some(Bytes::from_vec(block))),
        Err(_) => Ok(None),
    }
}

// The bytes of one page of a copy.
pub(crate) fn part_of(bytes: &Bytes, done: u32) -> &[u8]
    requires { 4096 * (done + 1) ≤ length bytes.now }
    ensures value { result.now ≡ part_of bytes.now done }
    ensures whole { length result.now ≡ 4096 }
{
    let from = done as usize * 4096;
    &bytes.as_slice()[from..from + 4096]
}

// Writes a block, well or not.
pub(crate) fn write_page<D: Disk>(disk: &mut D, number: u32, bytes: &[u8]) -> bool
    requires number { number < D.count disk.old }
    requires whole { length bytes.now ≡ 4096 }
    ensures count { D.count disk.new ≡ D.count disk.old }
    ensures puts { D.tells ≡ true → result ≡ true → D.blocks disk.new
        ≡ slice_set (D.blocks disk.old) number bytes.now }
    ensures failed { D.tells ≡ true → IsOldOrWritten (D.blocks disk.old) (D.blocks disk.new) number
        bytes.now }
    ensures rose { RoseIf result (D.faults disk.old) (D.faults disk.new) }
    ensures later { D.faults disk.old ≤ D.faults disk.new }
    ensures left { LeavesWritten (telling D.tells D.count D.blocks D.faults D.lasts D.time D.leaves) disk.old
        disk.new number bytes.now }
    ensures once { D.calls disk.new ≤ D.calls disk.old + 1 }
{
    disk.write_block(number, bytes).is_ok()
}

// The bytes of an actor's copy.
fn copy_of(tours: &Vec<Tour>, who: u32, range: PageRange, number: Option<u64>, done: u32) -> &Bytes
    requires copied { IsCopied tours.now.items who range number done }
    ensures { result.now ≡ bytes_held (stage_at tours.now.items who) }
{
    let place = place_of(tours, who);
    match &tours[place].stage {
        Stage::Copied {
            range: _,
            number: _,
            bytes,
            stored: _,
        } => bytes,
        _ => unreachable!(),
    }
}

// Writes the block of the next page of an actor's copy, well or not.
pub(crate) fn write_next<D: Disk>(
    disk: &mut D,
    tours: &Vec<Tour>,
    who: u32,
    range: PageRange,
    number: Option<u64>,
    done: u32,
) -> bool
    requires copied { IsCopied tours.now.items who range number done }
    requires less { done < range.count }
    requires long { 4096 * (done + 1) ≤ length (bytes_held (stage_at tours.now.items who)) }
    requires block { range.first + done < D.count disk.old }
    ensures count { D.count disk.new ≡ D.count disk.old }
    ensures puts { D.tells ≡ true → result ≡ true → D.blocks disk.new
        ≡ slice_set (D.blocks disk.old) (range.first + done)
        (part_of (bytes_held (stage_at tours.now.items who)) done) }
    ensures failed { D.tells ≡ true → IsOldOrWritten (D.blocks disk.old) (D.blocks disk.new) (range.first +
        done)
        (part_of (bytes_held (stage_at tours.now.items who)) done) }
    ensures rose { RoseIf result (D.faults disk.old) (D.faults disk.new) }
    ensures later { D.faults disk.old ≤ D.faults disk.new }
    ensures left { LeavesWritten (telling D.tells D.count D.blocks D.faults D.lasts D.time D.leaves) disk.old
        disk.new
        (range.first + done) (part_of (bytes_held (stage_at tours.now.items who)) done) }
    ensures once { D.calls disk.new ≤ D.calls disk.old + 1 }
{
    let bytes = copy_of(tours, who, range, number, done);
    write_page(disk, range.first + done, part_of(bytes, done))
}

// Syncs the disk, well or not.
pub(crate) fn sync_disk<D: Disk>(disk: &mut D) -> bool
    ensures count { D.count disk.new ≡ D.count disk.old }
    ensures same { D.tells ≡ true → D.blocks disk.new ≡ D.blocks disk.old }
    ensures rose { RoseIf result (D.faults disk.old) (D.faults disk.new) }
    ensures later { D.faults disk.old ≤ D.faults disk.new }
    ensures left { LeavesNoMore (telling D.tells D.count D.blocks D.faults D.lasts D.time D.leaves) disk.old
        disk.new }
    ensures kept { result ≡ true → LeavesBlocks (telling D.tells D.count D.blocks D.faults D.lasts D.time
        D.leaves) disk.new }
    ensures once { D.calls disk.new ≤ D.calls disk.old + 1 }
{
    disk.sync().is_ok()
}
