ghost use Rattle.std.specs.Prelude.{◌≡◌, length, IfOk};

use std::alloc::Global;
use std::marker::Model;
use up_num::{Items, Memory};

/// The bytes of a block, 4,096 of them.
#[derive(Debug, Drop)]
pub struct Block {
    bytes: Vec<u8>,
}

/// A list of blocks.
pub type Blocks = Items<Block>;

impl Model for Block {
    ghost use Rattle.std.specs.Prelude.{ℕ, List, ◌≡◌, length};

    ghost Value = { List ℕ };

    ghost view = { λ block. block.bytes.items };

    ghost invariant = { λ block. length block.bytes.items ≡ 4096 };
}

impl Block {
    /// A block with these bytes.
    pub fn new(alloc: Global, bytes: &[u8]) -> Result<Block, Memory>
        requires { length bytes.now ≡ 4096 }
        ensures { IfOk result (λ block. block ≡ bytes.now) }
    {
        let bytes = Vec::from_slice(alloc, bytes)?;
        Ok(Block { bytes })
    }

    /// The bytes of the block.
    pub fn as_slice(&self) -> &[u8]
        ensures same { result.now ≡ self.now }
        ensures whole { length result.now ≡ 4096 }
    {
        self.bytes.as_slice()
    }

    /// Puts other bytes in the place of the block's.
    pub fn fill(&mut self, bytes: &[u8])
        requires { length bytes.now ≡ 4096 }
        ensures { self.new ≡ bytes.now }
    {
        self.bytes.copy_from_slice(bytes);
    }
}
