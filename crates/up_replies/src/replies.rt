ghost use Rattle.std.specs.Prelude.{◌≡◌, IfOk};
ghost use Rattle.up_words.specs.ReadSteps.{Gives, or_why};
ghost use Rattle.up_words.specs.declared.fault.Why.TheVariants.{Word};
ghost use Rattle.up_replies.specs.Kinds.{numbered_kinds, reply_kinds};
ghost use Rattle.up_replies.specs.Replies.{first_reply, fixed_fit, list_fits, page_refusal, plain_refusal, plain_reply, reply_fits, reply_in, reply_kind, reply_of};
ghost use Rattle.up_replies.specs.declared.kinds.ReplyKind.TheVariants as kinds;

use crate::kinds::{NUMBERED, REPLIES, ReplyKind};
use std::alloc::Global;
use up_fields::{
    COUNTS, PAGES, TICKETS, Tail, flag, read_count, read_flag, read_page, read_pages, read_range,
    read_runs_of_pages, read_tickets, shows_runs,
};
use up_model::Reply;
use up_num::{Items, Memory, Packet, PageNo, Refusal};
use up_words::{ByteRuns, Stop, Why, read_between, read_runs, spelled_code, spread_runs};

/// A reply whose bytes, where it has any, are still runs. The reply itself has no bytes then.
#[derive(Drop)]
pub struct SpelledReply {
    pub reply: Reply,
    pub bytes: Option<ByteRuns>,
}

fn refusal(word: &[u8]) -> Option<Refusal>
    ensures { result ≡ plain_refusal word.now }
{
    if word == b"range".as_slice() {
        Some(Refusal::Range)
    } else if word == b"detached".as_slice() {
        Some(Refusal::Detached)
    } else if word == b"not-trap".as_slice() {
        Some(Refusal::NotTrap)
    } else if word == b"fixed".as_slice() {
        Some(Refusal::Fixed)
    } else if word == b"no-frames".as_slice() {
        Some(Refusal::NoFrames)
    } else {
        match spelled_code(word) {
            None => None,
            Some(code) => Some(Refusal::Pager(code)),
        }
    }
}

fn refusal_of_page(word: &[u8], page: PageNo) -> Option<Refusal>
    ensures { result ≡ page_refusal word.now page }
{
    if word == b"not-found".as_slice() {
        Some(Refusal::NotFound(page))
    } else if word == b"pinned".as_slice() {
        Some(Refusal::Pinned(page))
    } else if word == b"unpinned".as_slice() {
        Some(Refusal::Unpinned(page))
    } else if word == b"pin-limit".as_slice() {
        Some(Refusal::PinLimit(page))
    } else if word == b"unclean".as_slice() {
        Some(Refusal::Unclean(page))
    } else {
        None
    }
}

fn fits_fixed(kind: ReplyKind, words: &Tail<'_, '_>) -> bool
    ensures { result ≡ fixed_fit kind words.now }
{
    match kind {
        ReplyKind::Took => words.reads(2, b"woke"),
        ReplyKind::Modified | ReplyKind::Borrowed => flag(b"1", b"0", words.at(1)).is_some(),
        ReplyKind::PacketRead => words.reads(1, b"read"),
        ReplyKind::PacketDirty => words.reads(1, b"dirty"),
        ReplyKind::PacketComplete => words.reads(1, b"complete"),
        ReplyKind::RefusedPlain => refusal(words.at(1)).is_some(),
        ReplyKind::RefusedPage => refusal_of_page(words.at(1), PageNo(0)).is_some(),
        ReplyKind::RefusedNumber => words.reads(1, b"not-begun"),
        _ => true,
    }
}

fn fits(kind: ReplyKind, words: &Tail<'_, '_>) -> bool
    ensures { result ≡ reply_fits kind words.now }
{
    words.has(0, kind.verb(), kind.size()) && fits_fixed(kind, words)
}

#[tactic(auto, unfolding(crate::specs::Replies::first_reply))]
fn find(kinds: &[ReplyKind], words: &Tail<'_, '_>) -> Option<ReplyKind>
    ensures { result ≡ first_reply kinds.now words.now }
{
    let mut rest = kinds;
    while let [kind, after @ ..] = rest {
        if fits(*kind, words) {
            return Some(*kind);
        }
        rest = after;
    }
    None
}

fn find_first(words: &Tail<'_, '_>) -> Option<ReplyKind>
    ensures { result ≡ first_reply reply_kinds words.now }
{
    find(REPLIES.as_slice(), words)
}

fn find_numbered(words: &Tail<'_, '_>) -> Option<ReplyKind>
    ensures { result ≡ first_reply numbered_kinds words.now }
{
    find(NUMBERED.as_slice(), words)
}

/// The kind of reply that the words are, in a text with or without numbers of begins.
pub fn find_reply(numbers: bool, words: &Tail<'_, '_>) -> Option<ReplyKind>
    ensures { result ≡ reply_kind numbers words.now }
{
    match find_first(words) {
        Some(kind) => Some(kind),
        None => { if numbers { find_numbered(words) } else { None } }
    }
}

/// The list of a reply of this kind is of its form.
pub fn fits_list(alloc: Global, kind: ReplyKind, words: &Tail<'_, '_>) -> Result<bool, Memory>
    ensures { IfOk result (λ fits. fits ≡ list_fits kind words.now) }
{
    match kind {
        ReplyKind::Ranges => shows_runs(alloc, words.at(2)),
        _ => Ok(true),
    }
}

fn plain(reply: Reply) -> SpelledReply
    ensures { result ≡ plain_reply reply }
{
    SpelledReply { reply, bytes: None }
}

fn bytes(alloc: Global, words: &Tail<'_, '_>) -> Result<SpelledReply, Stop>
    ensures { Gives (λ spelled. spelled) result (reply_in kinds.Bytes words.now) }
{
    let runs = read_runs(alloc, words.at(1))?;
    let bytes = Items::new(alloc);
    Ok(SpelledReply {
        reply: Reply::Bytes(bytes),
        bytes: Some(runs),
    })
}

fn blocked(words: &Tail<'_, '_>) -> Result<SpelledReply, Stop>
    ensures { Gives (λ spelled. spelled) result (reply_in kinds.Blocked words.now) }
{
    let ticket = read_between(0, TICKETS, words.at(1))?;
    Ok(plain(Reply::Blocked(ticket)))
}

fn needs(words: &Tail<'_, '_>) -> Result<SpelledReply, Stop>
    ensures { Gives (λ spelled. spelled) result (reply_in kinds.Needs words.now) }
{
    let count = read_count(COUNTS, words.at(1))?;
    Ok(plain(Reply::Needs(count)))
}

fn took(alloc: Global, words: &Tail<'_, '_>) -> Result<SpelledReply, Stop>
    ensures { Gives (λ spelled. spelled) result (reply_in kinds.Took words.now) }
{
    let pages = read_count(COUNTS, words.at(1))?;
    let woke = read_tickets(alloc, words.at(3))?;
    Ok(plain(Reply::Took { pages, woke }))
}

fn woke(alloc: Global, words: &Tail<'_, '_>) -> Result<SpelledReply, Stop>
    ensures { Gives (λ spelled. spelled) result (reply_in kinds.Woke words.now) }
{
    let woke = read_tickets(alloc, words.at(1))?;
    Ok(plain(Reply::Woke(woke)))
}

fn ranges(alloc: Global, words: &Tail<'_, '_>) -> Result<SpelledReply, Stop>
    ensures { Gives (λ spelled. spelled) result (reply_in kinds.Ranges words.now) }
{
    let total = read_count(COUNTS, words.at(1))?;
    let list = read_runs_of_pages(alloc, words.at(2))?;
    Ok(plain(Reply::Ranges { total, list }))
}

fn modified(words: &Tail<'_, '_>) -> Result<SpelledReply, Stop>
    ensures { Gives (λ spelled. spelled) result (reply_in kinds.Modified words.now) }
{
    let modified = read_flag(b"1", b"0", words.at(1))?;
    Ok(plain(Reply::Modified(modified)))
}

fn borrowed(words: &Tail<'_, '_>) -> Result<SpelledReply, Stop>
    ensures { Gives (λ spelled. spelled) result (reply_in kinds.Borrowed words.now) }
{
    let borrowed = read_flag(b"1", b"0", words.at(1))?;
    Ok(plain(Reply::Borrowed(borrowed)))
}

fn pages(alloc: Global, words: &Tail<'_, '_>) -> Result<SpelledReply, Stop>
    ensures { Gives (λ spelled. spelled) result (reply_in kinds.Pages words.now) }
{
    let pages = read_pages(alloc, words.at(1))?;
    Ok(plain(Reply::Pages(pages)))
}

fn vacated(alloc: Global, words: &Tail<'_, '_>) -> Result<SpelledReply, Stop>
    ensures { Gives (λ spelled. spelled) result (reply_in kinds.Vacated words.now) }
{
    let moved = read_pages(alloc, words.at(1))?;
    let evicted = read_pages(alloc, words.at(2))?;
    Ok(plain(Reply::Vacated { moved, evicted }))
}

fn packet_read(words: &Tail<'_, '_>) -> Result<SpelledReply, Stop>
    ensures { Gives (λ spelled. spelled) result (reply_in kinds.PacketRead words.now) }
{
    let range = read_range(words.at(2), words.at(3))?;
    Ok(plain(Reply::Packet(Packet::Read(range))))
}

fn packet_dirty(words: &Tail<'_, '_>) -> Result<SpelledReply, Stop>
    ensures { Gives (λ spelled. spelled) result (reply_in kinds.PacketDirty words.now) }
{
    let range = read_range(words.at(2), words.at(3))?;
    Ok(plain(Reply::Packet(Packet::Dirty(range))))
}

fn left(words: &Tail<'_, '_>) -> Result<SpelledReply, Stop>
    ensures { Gives (λ spelled. spelled) result (reply_in kinds.Left words.now) }
{
    let woken = read_count(COUNTS, words.at(1))?;
    Ok(plain(Reply::Left(u64::from(woken))))
}

fn read_refusal(found: Option<Refusal>) -> Result<Refusal, Stop>
    ensures { Gives (λ why. why) result (or_why Word found) }
{
    match found {
        None => Err(Stop::Found(Why::Word)),
        Some(why) => Ok(why),
    }
}

fn refused_plain(words: &Tail<'_, '_>) -> Result<SpelledReply, Stop>
    ensures { Gives (λ spelled. spelled) result (reply_in kinds.RefusedPlain words.now) }
{
    let why = read_refusal(refusal(words.at(1)))?;
    Ok(plain(Reply::Refused(why)))
}

fn refused_page(words: &Tail<'_, '_>) -> Result<SpelledReply, Stop>
    ensures { Gives (λ spelled. spelled) result (reply_in kinds.RefusedPage words.now) }
{
    let page = read_page(PAGES, words.at(2))?;
    let why = read_refusal(refusal_of_page(words.at(1), page))?;
    Ok(plain(Reply::Refused(why)))
}

fn began(words: &Tail<'_, '_>) -> Result<SpelledReply, Stop>
    ensures { Gives (λ spelled. spelled) result (reply_in kinds.Began words.now) }
{
    let number = read_between(0, TICKETS, words.at(1))?;
    Ok(plain(Reply::Began(number)))
}

fn refused_number(words: &Tail<'_, '_>) -> Result<SpelledReply, Stop>
    ensures { Gives (λ spelled. spelled) result (reply_in kinds.RefusedNumber words.now) }
{
    let number = read_between(0, TICKETS, words.at(2))?;
    Ok(plain(Reply::Refused(Refusal::NotBegun(number))))
}

/// A reply of this kind. It takes memory by the length of its words.
pub fn read_reply(
    alloc: Global,
    kind: ReplyKind,
    words: &Tail<'_, '_>,
) -> Result<SpelledReply, Stop>
    ensures { Gives (λ spelled. spelled) result (reply_in kind words.now) }
{
    match kind {
        ReplyKind::Bytes => bytes(alloc, words),
        ReplyKind::Done => Ok(plain(Reply::Done)),
        ReplyKind::Waiting => Ok(plain(Reply::Waiting)),
        ReplyKind::Noted => Ok(plain(Reply::Noted)),
        ReplyKind::Empty => Ok(plain(Reply::Empty)),
        ReplyKind::Finished => Ok(plain(Reply::Finished)),
        ReplyKind::Blocked => blocked(words),
        ReplyKind::Needs => needs(words),
        ReplyKind::Took => took(alloc, words),
        ReplyKind::Woke => woke(alloc, words),
        ReplyKind::Ranges => ranges(alloc, words),
        ReplyKind::Modified => modified(words),
        ReplyKind::Borrowed => borrowed(words),
        ReplyKind::Pages => pages(alloc, words),
        ReplyKind::Vacated => vacated(alloc, words),
        ReplyKind::PacketRead => packet_read(words),
        ReplyKind::PacketDirty => packet_dirty(words),
        ReplyKind::PacketComplete => Ok(plain(Reply::Packet(Packet::Complete))),
        ReplyKind::Left => left(words),
        ReplyKind::RefusedPlain => refused_plain(words),
        ReplyKind::RefusedPage => refused_page(words),
        ReplyKind::Began => began(words),
        ReplyKind::RefusedNumber => refused_number(words),
    }
}

/// The reply, with the bytes of these runs where it has any.
pub fn fill_reply(alloc: Global, spelled: SpelledReply) -> Result<Reply, Memory>
    ensures { IfOk result (λ reply. reply ≡ reply_of spelled) }
{
    let SpelledReply { reply, bytes } = spelled;
    let Some(runs) = bytes else {
        return Ok(reply);
    };
    let bytes = spread_runs(alloc, &runs)?;
    match reply {
        Reply::Bytes(_) => Ok(Reply::Bytes(bytes)),
        other => Ok(other),
    }
}
