ghost use Rattle.std.specs.Prelude.{◌≡◌, ◌<◌, length, reverse, IfOk, OnOk};
ghost use Rattle.std.specs.List.{list_any};
ghost use Rattle.std.specs.Str.{bytes_eq};
ghost use Rattle.up_disk.specs.Follows.{FollowsContent, FollowsLeft};
ghost use Rattle.up_disk.specs.Platter.{contents_since, oldest_first, with_content};

use crate::{Block, Blocks, DiskCall};
use std::alloc::Global;
use up_num::Memory;

// The contents of the block that a stop may leave, the oldest first and each once. It follows from the start on what
// was done: what reads give of the block, and what a stop may leave in it.
pub(crate) fn contents_left(
    alloc: Global,
    start: &Vec<Block>,
    done: &Vec<DiskCall>,
    number: u32,
) -> Result<Blocks, Memory>
    requires { number < length start.now.items }
    ensures { IfOk result (λ left. left ≡ oldest_first (contents_since start.now.items (reverse done.now.items) number)) }
{
    let mut content = Block::new(alloc, start[number as usize].as_slice())?;
    let mut left = Blocks::new(alloc);
    add(alloc, &mut left, content.as_slice())?;
    for did in done.iter() {
        follow(alloc, did, number, &mut content, &mut left)?;
    }
    Ok(left)
}

// What one more thing that was done makes of a block's content and of what may be left in it.
fn follow(
    alloc: Global,
    did: &DiskCall,
    number: u32,
    content: &mut Block,
    left: &mut Blocks,
) -> Result<(), Memory>
    ensures content { OnOk result (FollowsContent did.now number content.old content.new) }
    ensures left { OnOk result (FollowsLeft did.now number content.old left.old left.new) }
{
    match did {
        DiskCall::Put {
            number: put,
            block,
            good,
        } => {
            if *put == number {
                add(alloc, left, block.as_slice())?;
                if *good {
                    content.fill(block.as_slice());
                }
            }
        }
        DiskCall::Synced => {
            *left = Blocks::new(alloc);
            add(alloc, left, content.as_slice())?;
        }
    }
    Ok(())
}

// Appends a content that isn't there yet.
fn add(alloc: Global, left: &mut Blocks, content: &[u8]) -> Result<(), Memory>
    requires { length content.now ≡ 4096 }
    ensures { OnOk result (left.new ≡ with_content content.now left.old) }
{
    if has(left.as_slice(), content) {
        return Ok(());
    }
    let block = Block::new(alloc, content)?;
    match left.push(block) {
        Ok(()) => Ok(()),
        Err((memory, _block)) => Err(memory),
    }
}

// Whether the content is among these.
fn has(known: &[Block], content: &[u8]) -> bool
    ensures { result ≡ list_any (λ block. bytes_eq block content.now) known.now }
{
    known.iter().any(|block| block.as_slice() == content)
}
