ghost use Rattle.std.specs.Prelude.{◌≡◌, ◌==◌, ◌*◌, ◌&&◌, not, reverse};
ghost use Rattle.up_model.specs.Reply as replies;
ghost use Rattle.up_model.specs.Tickets as tickets;

use up_model::{Birth, Brought, Call, Entry, Reply};
use up_num::{PageNo, PageRange};

const PAGE: u64 = 4096;

/// Who waited, or waits, under the ticket.
pub(crate) fn owner(before: &[Entry], ticket: u64) -> Option<u32>
    ensures { result ≡ tickets.owner (reverse before.now) ticket }
{
    let mut holder = None;
    for place in 0..before.len() {
        let entry = &before[place];
        if matches!(entry.reply, Reply::Blocked(given) if given == ticket) {
            holder = Some(entry.who);
        }
    }
    holder
}

fn spends(entry: &Entry, ticket: u64) -> bool
    ensures { result ≡ (tickets.retries entry.now.call ticket && not (tickets.keeps_ticket entry.now.reply)) }
{
    match &entry.call {
        Call::Retry { ticket: tried, .. } if *tried == ticket => {
            !matches!(entry.reply, Reply::Waiting | Reply::Needs(_))
        }
        _ => false,
    }
}

/// The access under the ticket was answered for good.
pub(crate) fn spent(before: &[Entry], ticket: u64) -> bool
    ensures { result ≡ tickets.spent (reverse before.now) ticket }
{
    let mut answered = false;
    for place in 0..before.len() {
        if spends(&before[place], ticket) {
            answered = true;
        }
    }
    answered
}

fn counts_frames(brought: Brought) -> bool
    ensures { result ≡ replies.counts_frames brought }
{
    match brought {
        Brought::Frames(count) => count > 0,
        Brought::Nothing | Brought::Scanned => true,
    }
}

fn brings(count: u32, brought: Brought) -> bool
    ensures { result ≡ replies.brings count brought }
{
    match brought {
        Brought::Nothing => false,
        Brought::Frames(given) => given == count,
        Brought::Scanned => true,
    }
}

fn is_piece(off: u64, len: u64, last: PageNo) -> bool
    ensures { result ≡ replies.is_piece off len last.0 }
{
    len > 0 && len <= PAGE && off % PAGE + len <= PAGE && off / PAGE <= u64::from(last.0)
}

fn is_supply(range: PageRange, len: u64, brought: Brought) -> bool
    ensures { result ≡ ((len == 4096 * range.count) && (replies.brings range.count brought && replies.counts_frames brought)) }
{
    len == PAGE * u64::from(range.count) && brings(range.count, brought) && counts_frames(brought)
}

fn may_retry(before: &[Entry], who: u32, ticket: u64) -> bool
    ensures { result ≡ (replies.is_by (tickets.owner (reverse before.now) ticket) who && not (tickets.spent (reverse before.now) ticket)) }
{
    owner(before, ticket) == Some(who) && !spent(before, ticket)
}

/// The call keeps the conditions that its caller owes, after the entries before it.
pub fn is_proper(birth: &Birth, before: &[Entry], who: u32, call: &Call) -> bool
    ensures { result ≡ replies.proper birth.now (reverse before.now) who call.now }
{
    match call {
        Call::Read {
            piece,
            last,
            brought,
        } => { is_piece(piece.off, u64::from(piece.len), *last) && counts_frames(*brought) }
        Call::Write {
            off,
            bytes,
            last,
            brought,
        } => { is_piece(*off, bytes.len() as u64, *last) && counts_frames(*brought) }
        Call::Retry { ticket, brought } => {
            may_retry(before, who, *ticket) && counts_frames(*brought)
        }
        Call::Supply {
            range,
            bytes,
            brought,
        } => { is_supply(*range, bytes.len() as u64, *brought) }
        Call::End { of, .. } => of.is_some() == birth.numbered,
        Call::Dirty { brought, .. } | Call::Pin { brought, .. } => counts_frames(*brought),
        Call::Borrow { brought, .. } | Call::Vacate { brought } => counts_frames(*brought),
        _ => true,
    }
}
