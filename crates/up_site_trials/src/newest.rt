//! The newest bytes of a page: those written last over what its block had at first, whatever was supplied or
//! evicted since.
use std::alloc::Global;
use up_facts::{accepts, attempt, size};
use up_model::{Birth, Call, Entry, Reply};
use up_num::Memory;

/// The bytes of a page after these entries, over those of its block at first.
pub(crate) fn newest(
    alloc: Global,
    birth: &Birth,
    entries: &[Entry],
    first: &[u8],
    page: u32,
) -> Result<Vec<u8>, Memory> {
    let mut block = Vec::from_slice(alloc, first)?;
    for place in 0..entries.len() {
        let entry = &entries[place];
        let before = &entries[..place];
        if blanks(birth, before, entry, page) {
            block.fill(0);
        } else if matches!(entry.reply, Reply::Done)
            && let Some(Call::Write { off, bytes, .. }) = attempt(before, &entry.call)
        {
            write(&mut block, *off, bytes.as_slice(), page);
        }
    }
    Ok(block)
}

/// Whether the page is made zeros: it came by a resize, or was zeroed.
fn blanks(birth: &Birth, before: &[Entry], entry: &Entry, page: u32) -> bool {
    if !accepts(&entry.reply) {
        return false;
    }
    match &entry.call {
        Call::Resize { pages } => size(birth, before) <= page && page < *pages,
        Call::Zero { range } => range.first <= page && page - range.first < range.count,
        _ => false,
    }
}

/// Writes those bytes that lie in the page.
fn write(block: &mut Vec<u8>, off: u64, bytes: &[u8], page: u32) {
    for place in 0..bytes.len() {
        let at = off.saturating_add(place as u64);
        if at / 4096 == u64::from(page)
            && let Some(byte) = block.get_mut((at % 4096) as usize)
        {
            *byte = bytes[place];
        }
    }
}
