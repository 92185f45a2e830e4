ghost use Rattle.std.specs.Prelude.{◌≡◌, ◌%◌, ◌*◌, length, IfOk};
ghost use Rattle.up_disk.specs.Splits.{blocks_of};

use crate::Block;
use std::alloc::Global;
use up_num::Memory;

// The bytes as blocks.
pub(crate) fn split(alloc: Global, bytes: &[u8]) -> Result<Vec<Block>, Memory>
    requires { length bytes.now % 4096 ≡ 0 }
    ensures { IfOk result (λ blocks. blocks.items ≡ blocks_of bytes.now) }
{
    let count = bytes.len() / 4096;
    let mut blocks = Vec::with_capacity(alloc, count)?;
    for place in 0..count {
        let block = Block::new(alloc, &bytes[4096 * place..4096 * place + 4096])?;
        blocks.push(block)?;
    }
    Ok(blocks)
}
