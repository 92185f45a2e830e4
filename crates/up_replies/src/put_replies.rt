ghost use Rattle.std.specs.Prelude.{◌≡◌, ◌++◌, ◌∷◌, [], OnOk};
ghost use Rattle.up_model.specs.declared.entry.Reply.TheVariants as replies;
ghost use Rattle.up_fields.specs.Text.{page_text, spaced};
ghost use Rattle.up_replies.specs.Text.{refusal_words, reply_words};

use up_fields::{
    put_bytes, put_code, put_numbers, put_page, put_pages, put_ranges, put_with_flag,
    put_with_number, put_with_range, put_word,
};
use up_model::Reply;
use up_num::{Bytes, Memory, Packet, PageNo, PageSeq, RangeSeq, Refusal, Woken};

/// A space and the words of a reply, with a space between each two.
pub fn put_reply(out: &mut Vec<u8>, reply: &Reply) -> Result<(), Memory>
    ensures { OnOk result (out.new.items ≡ out.old.items ++ spaced (reply_words reply.now)) }
{
    match reply {
        Reply::Bytes(bytes) => put_with_bytes(out, bytes),
        Reply::Done => put_word(out, b"done"),
        Reply::Began(number) => put_with_number(out, b"began", *number),
        Reply::Blocked(ticket) => put_with_number(out, b"blocked", *ticket),
        Reply::Waiting => put_word(out, b"waiting"),
        Reply::Needs(count) => put_with_number(out, b"needs", u64::from(*count)),
        Reply::Took { pages, woke } => put_took(out, *pages, woke),
        Reply::Woke(woke) => put_woke(out, woke),
        Reply::Ranges { total, list } => put_total(out, *total, list),
        Reply::Modified(modified) => put_with_flag(out, b"modified", b"1", b"0", *modified),
        Reply::Pages(pages) => put_numbered(out, pages),
        Reply::Borrowed(borrowed) => put_with_flag(out, b"borrowed", b"1", b"0", *borrowed),
        Reply::Vacated { moved, evicted } => put_vacated(out, moved, evicted),
        Reply::Packet(packet) => put_packet(out, packet),
        Reply::Empty => put_word(out, b"empty"),
        Reply::Finished => put_word(out, b"finished"),
        Reply::Left(woken) => put_with_number(out, b"left", *woken),
        Reply::Noted => put_word(out, b"noted"),
        Reply::Refused(why) => put_refused(out, *why),
    }
}

fn put_with_bytes(out: &mut Vec<u8>, bytes: &Bytes) -> Result<(), Memory>
    ensures { OnOk result (out.new.items ≡ out.old.items ++ spaced (reply_words (replies.Bytes bytes.now))) }
{
    put_word(out, b"bytes")?;
    put_bytes(out, bytes.as_slice())
}

fn put_took(out: &mut Vec<u8>, pages: u32, woke: &Woken) -> Result<(), Memory>
    ensures { OnOk result (out.new.items ≡ out.old.items ++ spaced (reply_words (replies.Took pages woke.now))) }
{
    put_with_number(out, b"took", u64::from(pages))?;
    put_woke(out, woke)
}

fn put_woke(out: &mut Vec<u8>, woke: &Woken) -> Result<(), Memory>
    ensures { OnOk result (out.new.items ≡ out.old.items ++ spaced (reply_words (replies.Woke woke.now))) }
{
    put_word(out, b"woke")?;
    put_numbers(out, woke.as_slice())
}

fn put_total(out: &mut Vec<u8>, total: u32, list: &RangeSeq) -> Result<(), Memory>
    ensures { OnOk result (out.new.items ≡ out.old.items ++ spaced (reply_words (replies.Ranges total list.now))) }
{
    put_with_number(out, b"ranges", u64::from(total))?;
    put_ranges(out, list.as_slice())
}

fn put_numbered(out: &mut Vec<u8>, pages: &PageSeq) -> Result<(), Memory>
    ensures { OnOk result (out.new.items ≡ out.old.items ++ spaced (reply_words (replies.Pages pages.now))) }
{
    put_word(out, b"pages")?;
    put_pages(out, pages.as_slice())
}

fn put_vacated(out: &mut Vec<u8>, moved: &PageSeq, evicted: &PageSeq) -> Result<(), Memory>
    ensures { OnOk result (out.new.items ≡ out.old.items ++ spaced (reply_words (replies.Vacated moved.now evicted.now))) }
{
    put_word(out, b"vacated")?;
    put_pages(out, moved.as_slice())?;
    put_pages(out, evicted.as_slice())
}

fn put_packet(out: &mut Vec<u8>, packet: &Packet) -> Result<(), Memory>
    ensures { OnOk result (out.new.items ≡ out.old.items ++ spaced (reply_words (replies.Packet packet.now))) }
{
    put_word(out, b"packet")?;
    match packet {
        Packet::Read(range) => put_with_range(out, b"read", *range),
        Packet::Dirty(range) => put_with_range(out, b"dirty", *range),
        Packet::Complete => put_word(out, b"complete"),
    }
}

fn put_refused(out: &mut Vec<u8>, why: Refusal) -> Result<(), Memory>
    ensures { OnOk result (out.new.items ≡ out.old.items ++ spaced (reply_words (replies.Refused why))) }
{
    put_word(out, b"refused")?;
    put_refusal(out, why)
}

fn put_refusal(out: &mut Vec<u8>, why: Refusal) -> Result<(), Memory>
    ensures { OnOk result (out.new.items ≡ out.old.items ++ spaced (refusal_words why)) }
{
    match why {
        Refusal::Range => put_word(out, b"range"),
        Refusal::Detached => put_word(out, b"detached"),
        Refusal::Pager(code) => put_code(out, code),
        Refusal::NotFound(page) => put_with_page(out, b"not-found", page),
        Refusal::NotTrap => put_word(out, b"not-trap"),
        Refusal::Fixed => put_word(out, b"fixed"),
        Refusal::Pinned(page) => put_with_page(out, b"pinned", page),
        Refusal::Unpinned(page) => put_with_page(out, b"unpinned", page),
        Refusal::PinLimit(page) => put_with_page(out, b"pin-limit", page),
        Refusal::Unclean(page) => put_with_page(out, b"unclean", page),
        Refusal::NoFrames => put_word(out, b"no-frames"),
        Refusal::NotBegun(number) => put_with_number(out, b"not-begun", number),
    }
}

fn put_with_page(out: &mut Vec<u8>, word: &[u8], page: PageNo) -> Result<(), Memory>
    ensures { OnOk result (out.new.items ≡ out.old.items ++ spaced (word.now ∷ page_text page ∷ [])) }
{
    put_word(out, word)?;
    put_page(out, page)
}
