ghost use Rattle.std.specs.Prelude.{◌≡◌, ◌+◌, ◌<◌, ◌%◌, Some, None, ◌∷◌, reverse, length, slice_get, vec_len, vec_capacity, IfOk, OnOk, is_err};
ghost use Rattle.up_disk.specs.Splits.{blocks_of};
ghost use Rattle.up_disk.specs.Platter.{platter, blocks_on, contents_since, oldest_first, fails, has_stopped, one_less, is_over, after_call, after_write, after_sync, left_on};
ghost use Rattle.up_disk.specs.Left.{OnlyLeaves, AddsNone, AddsWritten};
ghost use Rattle.up_outside.specs.Cause.{HasCause};

use crate::left::contents_left;
use crate::splitting::split;
use crate::{Block, Blocks, Disk, Failed};
use std::alloc::Global;
use std::marker::Model;
use up_num::Memory;
use up_outside::Plan;

/// What was done to a disk in memory: a block was written, well or not, or all was synced.
#[derive(Debug, Drop)]
pub enum DiskCall {
    Put {
        number: u32,
        block: Block,
        good: bool,
    },
    Synced,
}

/// A disk in memory, some calls of which fail. It keeps a record of what was done to it, and tells its blocks and
/// what a stop leaves.
#[derive(Debug, Drop)]
pub struct MemDisk {
    start: Vec<Block>,
    blocks: Vec<Block>,
    spare: Vec<Block>,
    done: Vec<DiskCall>,
    plan: Plan,
    room: u32,
    until: Option<u32>,
}

impl Model for MemDisk {
    ghost use Rattle.std.specs.Prelude.{◌≡◌, ◌+◌, ◌≤◌, reverse, length, vec_len, vec_capacity};
    ghost use Rattle.up_disk.specs.Platter.{Platter, blocks_after};

    ghost Value = { Platter };

    ghost view = { λ disk. record {
      start = disk.start.items;
      done = reverse disk.done.items;
      fail = disk.plan.fail;
      room = disk.room;
      calls = disk.plan.calls;
      faults = disk.plan.faults;
      until = disk.until;
    } };

    ghost invariant = { λ disk. (disk.blocks.items ≡ blocks_after disk.start.items (reverse disk.done.items))
        × ((length disk.blocks.items ≡ length disk.start.items)
        × ((disk.room ≤ disk.plan.calls + vec_len disk.spare)
        × ((vec_len disk.done ≤ disk.plan.calls) × (disk.room ≤ vec_capacity disk.done)))) };
}

impl MemDisk {
    /// A disk with these blocks. `fail` has the numbers of the calls that fail, counted from 1 over reads, writes and
    /// syncs together, and each call after `room` of them fails too.
    pub fn new(alloc: Global, blocks: &[u8], fail: &[u32], room: u32) -> Result<MemDisk, Memory>
        requires { length blocks.now % 4096 ≡ 0 }
        ensures { IfOk result (λ made. made ≡ platter (blocks_of blocks.now) fail.now room) }
    {
        let start = split(alloc, blocks)?;
        let blocks = split(alloc, blocks)?;
        let spare = empty_blocks(alloc, room)?;
        let done = Vec::with_capacity(alloc, room as usize)?;
        let plan = Plan::new(alloc, fail)?;
        Ok(MemDisk {
            start,
            blocks,
            spare,
            done,
            plan,
            room,
            until: None,
        })
    }

    /// Every call after that many more writes fails, failed writes counted too.
    pub fn stop_after(&mut self, writes: u32)
        ensures { self.new ≡ record self.old { until = Some writes } }
    {
        self.until = Some(writes);
    }

    /// What a read of the block would give.
    pub fn block(&self, number: u32) -> &[u8]
        requires { number < length self.now.start }
        ensures value { slice_get (blocks_on self.now) number ≡ Some result.now }
        ensures whole { length result.now ≡ 4096 }
    {
        self.blocks[number as usize].as_slice()
    }

    /// The contents of the block that a stop now may leave, the oldest first and each once.
    pub fn leaves(&self, alloc: Global, number: u32) -> Result<Blocks, Memory>
        requires { number < length self.now.start }
        ensures { IfOk result (λ left. left ≡ oldest_first (contents_since self.now.start self.now.done number)) }
    {
        contents_left(alloc, &self.start, &self.done, number)
    }

    // Whether the next call comes after the stop, or finds no room.
    fn is_over(&self) -> bool
        ensures { result ≡ is_over self.now }
    {
        self.plan.calls >= u64::from(self.room) || stops(self.until)
    }
}

impl Disk for MemDisk {
    ghost use Rattle.std.specs.Prelude.{true, length, refl};
    ghost use Rattle.up_disk.specs.Platter.{blocks_on, left_on};
    ghost use Rattle.up_disk.specs.LeftLaws.{blocks_whole, blocks_left, left_since, left_earlier, left_whole};

    ghost tells = { true };

    ghost lasts = { true };

    ghost count = { λ disk. length disk.start };

    ghost blocks = { λ disk. blocks_on disk };

    ghost faults = { λ disk. disk.faults };

    ghost calls = { λ disk. disk.calls };

    ghost time = { λ disk. length disk.done };

    ghost leaves = { λ disk. left_on disk };

    ghost whole = { λ disk _. blocks_whole disk.start disk.done };

    ghost told = { λ _. refl };

    ghost earlier = { λ disk early late image _ low left. left_earlier disk.start disk.done early late image low left };

    ghost now = { λ disk _. left_since disk.start disk.done (blocks_on disk) (blocks_left disk.start disk.done) };

    ghost sized = { λ disk since image _ left. left_whole disk.start disk.done since image left };

    fn read_block(&mut self, number: u32, out: &mut [u8]) -> Result<(), Failed>
        requires number { number < length self.old.start }
        requires whole { length out.old ≡ 4096 }
        ensures planned { is_err result ≡ fails self.old }
        ensures gives { OnOk result (slice_get (blocks_on self.old) number ≡ Some out.new) }
        ensures after { self.new ≡ after_call self.old }
        ensures cause { HasCause self.old.faults self.new.faults result }
    {
        let over = self.is_over();
        self.plan.begin(over)?;
        out.copy_from_slice(self.blocks[number as usize].as_slice());
        Ok(())
    }

    fn write_block(&mut self, number: u32, bytes: &[u8]) -> Result<(), Failed>
        requires number { number < length self.old.start }
        requires whole { length bytes.now ≡ 4096 }
        ensures planned { is_err result ≡ fails self.old }
        ensures after { self.new ≡ after_write self.old number bytes.now }
        ensures cause { HasCause self.old.faults self.new.faults result }
        ensures left { AddsWritten (left_on self.old) (left_on self.new) (length self.old.done) number bytes.now }
    {
        let over = self.is_over();
        let begun = self.plan.begin(over);
        self.until = less(self.until);
        if over {
            return begun;
        }
        let good = begun.is_ok();
        note_write(&mut self.spare, &mut self.done, number, bytes, good);
        if good {
            self.blocks[number as usize].fill(bytes);
        }
        begun
    }

    fn sync(&mut self) -> Result<(), Failed>
        ensures planned { is_err result ≡ fails self.old }
        ensures after { self.new ≡ after_sync self.old }
        ensures cause { HasCause self.old.faults self.new.faults result }
        ensures kept { OnOk result (OnlyLeaves (left_on self.new (length self.new.done)) (blocks_on self.new)) }
        ensures left { AddsNone (left_on self.old) (left_on self.new) (length self.old.done) }
    {
        let over = self.is_over();
        self.plan.begin(over)?;
        note_sync(&mut self.done);
        Ok(())
    }
}

// So many blocks of zeros.
fn empty_blocks(alloc: Global, count: u32) -> Result<Vec<Block>, Memory>
    ensures { IfOk result (λ blocks. vec_len blocks ≡ count) }
{
    let mut blocks = Vec::with_capacity(alloc, count as usize)?;
    for _place in 0..count {
        let block = Block::new(alloc, &[0; 4096])?;
        blocks.push(block)?;
    }
    Ok(blocks)
}

// Whether no write is left until the stop.
fn stops(until: Option<u32>) -> bool
    ensures { result ≡ has_stopped until }
{
    match until {
        Some(writes) => writes == 0,
        None => false,
    }
}

// One write less until the stop.
fn less(until: Option<u32>) -> Option<u32>
    ensures { result ≡ one_less until }
{
    match until {
        Some(writes) => Some(writes.saturating_sub(1)),
        None => None,
    }
}

// Notes a write of a block, which takes no memory.
fn note_write(
    spare: &mut Vec<Block>,
    done: &mut Vec<DiskCall>,
    number: u32,
    bytes: &[u8],
    good: bool,
)
    requires spare { 0 < vec_len spare.old }
    requires reserved { vec_len done.old < vec_capacity done.old }
    requires whole { length bytes.now ≡ 4096 }
    ensures done { reverse done.new.items ≡ DiskCall.Put number bytes.now good ∷ reverse done.old.items }
    ensures len { vec_len done.new ≡ vec_len done.old + 1 }
    ensures capacity { vec_capacity done.new ≡ vec_capacity done.old }
    ensures spare { vec_len spare.new + 1 ≡ vec_len spare.old }
{
    let Some(mut block) = spare.pop() else {
        unreachable!()
    };
    block.fill(bytes);
    done.push_reserved(DiskCall::Put {
        number,
        block,
        good,
    });
}

// Notes a sync, which takes no memory.
fn note_sync(done: &mut Vec<DiskCall>)
    requires { vec_len done.old < vec_capacity done.old }
    ensures done { reverse done.new.items ≡ DiskCall.Synced ∷ reverse done.old.items }
    ensures len { vec_len done.new ≡ vec_len done.old + 1 }
    ensures capacity { vec_capacity done.new ≡ vec_capacity done.old }
{
    done.push_reserved(DiskCall::Synced);
}
