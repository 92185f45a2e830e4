//! Lines of entries with another reply than the one that is due, and of ends with another number.
use std::alloc::Global;
use up_model::Reply;
use up_num::{Bytes, Memory, PageSeq, RangeSeq, Refusal, Woken};
use up_replies::put_reply;

/// The line of an entry with another reply.
pub(crate) fn line_with(alloc: Global, line: &str, reply: &Reply) -> Result<Vec<u8>, Memory> {
    let mut changed = Vec::new(alloc);
    if let Some((call, _)) = line.split_once(" -> ") {
        changed.extend_from_slice(call.as_bytes())?;
    }
    changed.extend_from_slice(b" ->")?;
    put_reply(&mut changed, reply)?;
    Ok(changed)
}

/// The line of an end with another number of a begin.
pub(crate) fn end_with(alloc: Global, line: &str, number: u64) -> Result<Vec<u8>, Memory> {
    let (call, reply) = line.split_once(" -> ").unwrap_or((line, ""));
    let (end, _) = call.rsplit_once(' ').unwrap_or((call, ""));
    let changed = format!(in alloc; "{end} {number} -> {reply}")?;
    Vec::from_slice(alloc, changed.as_bytes())
}

/// Another reply: of the same kind where its kind has several.
pub(crate) fn other_than(alloc: Global, reply: &Reply) -> Result<Reply, Memory> {
    Ok(match reply {
        Reply::Bytes(bytes) => Reply::Bytes(other_bytes(alloc, bytes)?),
        Reply::Began(number) => Reply::Began(*number ^ 1),
        Reply::Blocked(ticket) => Reply::Blocked(*ticket ^ 1),
        Reply::Needs(count) => Reply::Needs(*count ^ 1),
        Reply::Took { pages, woke: _ } => Reply::Took {
            pages: *pages ^ 1,
            woke: Woken::new(alloc),
        },
        Reply::Woke(list) if !list.is_empty() => Reply::Woke(Woken::new(alloc)),
        Reply::Ranges { total, list: _ } => Reply::Ranges {
            total: *total ^ 1,
            list: RangeSeq::new(alloc),
        },
        Reply::Modified(changed) => Reply::Modified(!*changed),
        Reply::Pages(list) if !list.is_empty() => Reply::Pages(PageSeq::new(alloc)),
        Reply::Borrowed(borrowed) => Reply::Borrowed(!*borrowed),
        Reply::Left(count) => Reply::Left(*count ^ 1),
        Reply::Refused(Refusal::Range) => Reply::Refused(Refusal::NoFrames),
        Reply::Refused(_) => Reply::Refused(Refusal::Range),
        Reply::Noted => Reply::Done,
        _ => Reply::Noted,
    })
}

/// As many bytes, of which the first is another.
fn other_bytes(alloc: Global, bytes: &Bytes) -> Result<Bytes, Memory> {
    let mut other = Vec::from_slice(alloc, bytes.as_slice())?;
    if let Some(first) = other.first_mut() {
        *first ^= 1;
    }
    Ok(Bytes::from_vec(other))
}
