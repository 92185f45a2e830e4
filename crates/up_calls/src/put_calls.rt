ghost use Rattle.std.specs.Prelude.{◌≡◌, ◌++◌, ◌∷◌, [], OnOk, decimal, true};
ghost use Rattle.up_model.specs.declared.entry.Call.TheVariants as calls;
ghost use Rattle.up_fields.specs.Text.{page_text, range_words, spaced};
ghost use Rattle.up_calls.specs.Text.{call_words, hint_text, is_short, ok_text, told_words};
ghost use Rattle.up_calls.specs.Frames.{frames_text};

use crate::frames::put_frames;
use up_fields::{
    put_bytes, put_code, put_flag, put_next, put_page, put_range, put_with_flag, put_with_number,
    put_with_range, put_word,
};
use up_model::{Brought, Call, HintKind, Role, Told};
use up_num::{Bytes, Code, Memory, PageNo, PageRange, Piece};

/// A space and the words of a call, with a space between each two.
pub fn put_call(out: &mut Vec<u8>, call: &Call) -> Result<(), Memory>
    ensures { OnOk result (out.new.items ≡ out.old.items ++ spaced (call_words call.now)) }
{
    match call {
        Call::Read {
            piece,
            last,
            brought,
        } => put_read(out, *piece, *last, *brought),
        Call::Write {
            off,
            bytes,
            last,
            brought,
        } => put_write(out, *off, bytes, *last, *brought),
        Call::Supply {
            range,
            bytes,
            brought,
        } => put_supply(out, *range, bytes, *brought),
        _ => put_short_call(out, call),
    }
}

fn put_read(out: &mut Vec<u8>, piece: Piece, last: PageNo, brought: Brought) -> Result<(), Memory>
    ensures { OnOk result (out.new.items ≡ out.old.items ++ spaced (call_words (calls.Read piece last brought))) }
{
    put_with_number(out, b"read", piece.off)?;
    put_next(out, u64::from(piece.len))?;
    put_page(out, last)?;
    put_frames(out, brought)
}

fn put_write(
    out: &mut Vec<u8>,
    off: u64,
    bytes: &Bytes,
    last: PageNo,
    brought: Brought,
) -> Result<(), Memory>
    ensures { OnOk result (out.new.items ≡ out.old.items ++ spaced (call_words (calls.Write off bytes.now last brought))) }
{
    put_with_number(out, b"write", off)?;
    put_bytes(out, bytes.as_slice())?;
    put_page(out, last)?;
    put_frames(out, brought)
}

fn put_supply(
    out: &mut Vec<u8>,
    range: PageRange,
    bytes: &Bytes,
    brought: Brought,
) -> Result<(), Memory>
    ensures { OnOk result (out.new.items ≡ out.old.items ++ spaced (call_words (calls.Supply range bytes.now brought))) }
{
    put_with_range(out, b"supply", range)?;
    put_bytes(out, bytes.as_slice())?;
    put_frames(out, brought)
}

// A call of at most two fields.
fn put_short_call(out: &mut Vec<u8>, call: &Call) -> Result<(), Memory>
    requires { is_short call.now ≡ true }
    ensures { OnOk result (out.new.items ≡ out.old.items ++ spaced (call_words call.now)) }
{
    match call {
        Call::Retry { ticket, brought } => put_brought(out, b"retry", *ticket, *brought),
        Call::Fail { range, code } => put_fail(out, *range, *code),
        Call::Dirty { range, brought } => put_filled(out, b"dirty", *range, *brought),
        Call::Begin { range, zero } => put_begin(out, *range, *zero),
        Call::End { range, of } => put_end(out, *range, *of),
        Call::Query { range, room } => put_query(out, *range, *room),
        Call::Stats { reset } => put_with_flag(out, b"stats", b"reset", b"keep", *reset),
        Call::Hint { range, kind } => put_with_range(out, hint(*kind), *range),
        Call::Pin { range, brought } => put_filled(out, b"pin", *range, *brought),
        Call::Unpin { range } => put_with_range(out, b"unpin", *range),
        Call::Evict { limit, max } => put_evict(out, *limit, *max),
        Call::Borrow { page, brought } => {
            put_brought(out, b"borrow", u64::from(page.0), *brought)
        }
        Call::Vacate { brought } => put_vacate(out, *brought),
        Call::Resize { pages } => put_with_number(out, b"resize", u64::from(*pages)),
        Call::Zero { range } => put_with_range(out, b"zero", *range),
        Call::Detach => put_word(out, b"detach"),
        Call::Packet => put_word(out, b"packet"),
        Call::Leave { role } => put_leave(out, *role),
        Call::Tell(told) => put_told(out, *told),
        _ => Ok(()),
    }
}

// A word, a number, and the frames that were brought.
fn put_brought(out: &mut Vec<u8>, word: &[u8], number: u64, brought: Brought) -> Result<(), Memory>
    ensures { OnOk result (out.new.items ≡ out.old.items ++ spaced (word.now ∷ decimal number ∷ frames_text brought ∷ [])) }
{
    put_with_number(out, word, number)?;
    put_frames(out, brought)
}

fn put_fail(out: &mut Vec<u8>, range: PageRange, code: Code) -> Result<(), Memory>
    ensures { OnOk result (out.new.items ≡ out.old.items ++ spaced (call_words (calls.Fail range code))) }
{
    put_with_range(out, b"fail", range)?;
    put_code(out, code)
}

fn put_begin(out: &mut Vec<u8>, range: PageRange, zero: bool) -> Result<(), Memory>
    ensures { OnOk result (out.new.items ≡ out.old.items ++ spaced (call_words (calls.Begin range zero))) }
{
    put_with_range(out, b"begin", range)?;
    put_flag(out, b"zero", b"any", zero)
}

fn put_end(out: &mut Vec<u8>, range: PageRange, of: Option<u64>) -> Result<(), Memory>
    ensures { OnOk result (out.new.items ≡ out.old.items ++ spaced (call_words (calls.End range of))) }
{
    put_with_range(out, b"end", range)?;
    match of {
        None => Ok(()),
        Some(number) => put_next(out, number),
    }
}

fn put_query(out: &mut Vec<u8>, range: PageRange, room: u32) -> Result<(), Memory>
    ensures { OnOk result (out.new.items ≡ out.old.items ++ spaced (call_words (calls.Query range room))) }
{
    put_with_range(out, b"query", range)?;
    put_next(out, u64::from(room))
}

fn put_evict(out: &mut Vec<u8>, limit: u32, max: u32) -> Result<(), Memory>
    ensures { OnOk result (out.new.items ≡ out.old.items ++ spaced (call_words (calls.Evict limit max))) }
{
    put_with_number(out, b"evict", u64::from(limit))?;
    put_next(out, u64::from(max))
}

fn put_vacate(out: &mut Vec<u8>, brought: Brought) -> Result<(), Memory>
    ensures { OnOk result (out.new.items ≡ out.old.items ++ spaced (call_words (calls.Vacate brought))) }
{
    put_word(out, b"vacate")?;
    put_frames(out, brought)
}

fn put_leave(out: &mut Vec<u8>, role: Role) -> Result<(), Memory>
    ensures { OnOk result (out.new.items ≡ out.old.items ++ spaced (call_words (calls.Leave role))) }
{
    put_word(out, b"leave")?;
    match role {
        Role::User => put_word(out, b"user"),
        Role::Pager => put_word(out, b"pager"),
    }
}

fn hint(kind: HintKind) -> &'static [u8]
    ensures { result.now ≡ hint_text kind }
{
    match kind {
        HintKind::Always => b"always",
        HintKind::Cold => b"cold",
    }
}

// A word, a range, and the frames for its pages.
fn put_filled(
    out: &mut Vec<u8>,
    word: &[u8],
    range: PageRange,
    brought: Brought,
) -> Result<(), Memory>
    ensures { OnOk result (out.new.items ≡ out.old.items ++ spaced (word.now ∷ range_words range ++ frames_text brought ∷ [])) }
{
    put_with_range(out, word, range)?;
    put_frames(out, brought)
}

// A word, a page, and whether it went well.
fn put_done(out: &mut Vec<u8>, word: &[u8], page: PageNo, ok: bool) -> Result<(), Memory>
    ensures { OnOk result (out.new.items ≡ out.old.items ++ spaced (word.now ∷ page_text page ∷ ok_text ok ∷ [])) }
{
    put_word(out, word)?;
    put_page(out, page)?;
    put_flag(out, b"ok", b"failed", ok)
}

fn put_told(out: &mut Vec<u8>, told: Told) -> Result<(), Memory>
    ensures { OnOk result (out.new.items ≡ out.old.items ++ spaced (told_words told)) }
{
    match told {
        Told::Fetched { page, ok } => put_done(out, b"fetched", page, ok),
        Told::Copied(range) => put_with_range(out, b"copied", range),
        Told::Stored { page, ok } => put_done(out, b"stored", page, ok),
        Told::Flushed { ok } => put_with_flag(out, b"flushed", b"ok", b"failed", ok),
        Told::Busy { pages, claim } => {
            put_word(out, b"busy")?;
            put_next(out, u64::from(pages))?;
            put_range(out, claim)
        }
    }
}
