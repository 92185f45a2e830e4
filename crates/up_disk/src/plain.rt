ghost use Rattle.std.specs.Prelude.{◌≡◌, ◌%◌, ◌<◌, Some, length, slice_get, slice_set, IfOk, IsOk};
ghost use Rattle.up_disk.specs.Splits.{blocks_of};

use crate::splitting::split;
use crate::{Block, Disk, Failed};
use std::alloc::Global;
use std::marker::Model;
use up_num::Memory;

/// A disk in memory that never fails. It tells its blocks, and not what a stop leaves.
#[derive(Debug, Drop)]
pub struct PlainDisk {
    blocks: Vec<Block>,
}

impl Model for PlainDisk {
    ghost use Rattle.std.specs.Prelude.{ℕ, List};

    ghost Value = { List (List ℕ) };

    ghost view = { λ disk. disk.blocks.items };
}

impl PlainDisk {
    /// A disk with these blocks.
    pub fn new(alloc: Global, blocks: &[u8]) -> Result<PlainDisk, Memory>
        requires { length blocks.now % 4096 ≡ 0 }
        ensures { IfOk result (λ made. made ≡ blocks_of blocks.now) }
    {
        let blocks = split(alloc, blocks)?;
        Ok(PlainDisk { blocks })
    }

    /// What a read of the block would give.
    pub fn block(&self, number: u32) -> &[u8]
        requires { number < length self.now }
        ensures value { slice_get self.now number ≡ Some result.now }
        ensures whole { length result.now ≡ 4096 }
    {
        self.blocks[number as usize].as_slice()
    }
}

impl Disk for PlainDisk {
    ghost use Rattle.std.specs.Prelude.{◌≡◌, true, false, length, refl};
    ghost use Rattle.std.proofs.Common.{ap};

    ghost tells = { true };

    ghost lasts = { false };

    ghost count = { λ disk. length disk };

    ghost blocks = { λ disk. disk };

    ghost faults = { λ _. 0 };

    ghost calls = { λ _. 0 };

    ghost time = { λ _. 0 };

    ghost leaves = { λ disk _ image. image ≡ disk };

    ghost whole = { λ _ _. refl };

    ghost told = { λ _. refl };

    ghost earlier = { λ _ _ _ _ _ _ left. left };

    ghost now = { λ _ _. refl };

    ghost sized = { λ disk since image _ left. ap length left };

    fn read_block(&mut self, number: u32, out: &mut [u8]) -> Result<(), Failed>
        requires number { number < length self.old }
        requires whole { length out.old ≡ 4096 }
        ensures gives { slice_get self.old number ≡ Some out.new }
        ensures same { self.new ≡ self.old }
        ensures never { IsOk result }
    {
        out.copy_from_slice(self.blocks[number as usize].as_slice());
        Ok(())
    }

    fn write_block(&mut self, number: u32, bytes: &[u8]) -> Result<(), Failed>
        requires number { number < length self.old }
        requires whole { length bytes.now ≡ 4096 }
        ensures puts { self.new ≡ slice_set self.old number bytes.now }
        ensures never { IsOk result }
    {
        self.blocks[number as usize].fill(bytes);
        Ok(())
    }

    fn sync(&mut self) -> Result<(), Failed>
        ensures same { self.new ≡ self.old }
        ensures never { IsOk result }
    {
        Ok(())
    }
}
