ghost use Rattle.std.specs.Prelude.{◌≡◌, IfOk};
ghost use Rattle.up_words.specs.ReadSteps.{Gives};
ghost use Rattle.up_calls.specs.Kinds.{call_kinds, end_kind};
ghost use Rattle.up_calls.specs.Calls.{call_fits, call_in, call_kind, call_of, first_call, last_fits, plain_call, role_of};
ghost use Rattle.up_calls.specs.declared.kinds.CallKind.TheVariants as kinds;

use crate::frames::{read_frames, shows_frames};
use crate::kinds::{CALLS, CallKind};
use std::alloc::Global;
use up_fields::{
    COUNTS, LASTS, OFFSETS, PAGES, SIZES, TICKETS, Tail, flag, read_code, read_count, read_flag,
    read_page, read_range,
};
use up_model::{Call, HintKind, Role, Told};
use up_num::{Items, Memory, Piece};
use up_words::{ByteRuns, Stop, read_between, read_runs, spelled_code, spread_runs};

/// A call whose bytes, where it has any, are still runs. The call itself has no bytes then.
#[derive(Drop)]
pub struct SpelledCall {
    pub call: Call,
    pub bytes: Option<ByteRuns>,
}

fn fits_last(kind: CallKind, word: &[u8]) -> bool
    ensures { result ≡ last_fits kind word.now }
{
    match kind {
        CallKind::Read | CallKind::Write | CallKind::Retry | CallKind::Supply => shows_frames(word),
        CallKind::Dirty | CallKind::Pin | CallKind::Borrow | CallKind::Vacate => shows_frames(word),
        CallKind::Fail => spelled_code(word).is_some(),
        CallKind::Begin => flag(b"zero", b"any", word).is_some(),
        CallKind::Stats => flag(b"reset", b"keep", word).is_some(),
        CallKind::Leave => flag(b"user", b"pager", word).is_some(),
        CallKind::Fetched | CallKind::Stored | CallKind::Flushed => {
            flag(b"ok", b"failed", word).is_some()
        }
        _ => true,
    }
}

fn fits(kind: CallKind, words: &Tail<'_, '_>) -> bool
    ensures { result ≡ call_fits kind words.now }
{
    words.reads(0, kind.verb()) && fits_last(kind, words.at(kind.size() - 1))
}

#[tactic(auto, unfolding(crate::specs::Calls::first_call))]
fn find(kinds: &[CallKind], words: &Tail<'_, '_>) -> Option<CallKind>
    ensures { result ≡ first_call kinds.now words.now }
{
    let mut rest = kinds;
    while let [kind, after @ ..] = rest {
        if fits(*kind, words) {
            return Some(*kind);
        }
        rest = after;
    }
    None
}

fn find_no_end(words: &Tail<'_, '_>) -> Option<CallKind>
    ensures { result ≡ first_call call_kinds words.now }
{
    find(CALLS.as_slice(), words)
}

fn end_form(numbered: bool) -> CallKind
    ensures { result ≡ end_kind numbered }
{
    if numbered {
        CallKind::EndOf
    } else {
        CallKind::End
    }
}

/// The kind of call that the words begin with. In a numbered journal an end names the number of its begin.
pub fn find_call(numbered: bool, words: &Tail<'_, '_>) -> Option<CallKind>
    ensures { result ≡ call_kind numbered words.now }
{
    if words.reads(0, b"end") {
        Some(end_form(numbered))
    } else {
        find_no_end(words)
    }
}

fn plain(call: Call) -> SpelledCall
    ensures { result ≡ plain_call call }
{
    SpelledCall { call, bytes: None }
}

fn read(words: &Tail<'_, '_>) -> Result<SpelledCall, Stop>
    ensures { Gives (λ spelled. spelled) result (call_in kinds.Read words.now) }
{
    let off = read_between(0, OFFSETS, words.at(1))?;
    let len = read_count(COUNTS, words.at(2))?;
    let last = read_page(LASTS, words.at(3))?;
    let brought = read_frames(words.at(4))?;
    let piece = Piece { off, len };
    Ok(plain(Call::Read {
        piece,
        last,
        brought,
    }))
}

fn write(alloc: Global, words: &Tail<'_, '_>) -> Result<SpelledCall, Stop>
    ensures { Gives (λ spelled. spelled) result (call_in kinds.Write words.now) }
{
    let off = read_between(0, OFFSETS, words.at(1))?;
    let runs = read_runs(alloc, words.at(2))?;
    let last = read_page(LASTS, words.at(3))?;
    let brought = read_frames(words.at(4))?;
    let bytes = Items::new(alloc);
    Ok(SpelledCall {
        call: Call::Write {
            off,
            bytes,
            last,
            brought,
        },
        bytes: Some(runs),
    })
}

fn retry(words: &Tail<'_, '_>) -> Result<SpelledCall, Stop>
    ensures { Gives (λ spelled. spelled) result (call_in kinds.Retry words.now) }
{
    let ticket = read_between(0, TICKETS, words.at(1))?;
    let brought = read_frames(words.at(2))?;
    Ok(plain(Call::Retry { ticket, brought }))
}

fn supply(alloc: Global, words: &Tail<'_, '_>) -> Result<SpelledCall, Stop>
    ensures { Gives (λ spelled. spelled) result (call_in kinds.Supply words.now) }
{
    let range = read_range(words.at(1), words.at(2))?;
    let runs = read_runs(alloc, words.at(3))?;
    let brought = read_frames(words.at(4))?;
    let bytes = Items::new(alloc);
    Ok(SpelledCall {
        call: Call::Supply {
            range,
            bytes,
            brought,
        },
        bytes: Some(runs),
    })
}

fn fail(words: &Tail<'_, '_>) -> Result<SpelledCall, Stop>
    ensures { Gives (λ spelled. spelled) result (call_in kinds.Fail words.now) }
{
    let range = read_range(words.at(1), words.at(2))?;
    let code = read_code(words.at(3))?;
    Ok(plain(Call::Fail { range, code }))
}

fn dirty(words: &Tail<'_, '_>) -> Result<SpelledCall, Stop>
    ensures { Gives (λ spelled. spelled) result (call_in kinds.Dirty words.now) }
{
    let range = read_range(words.at(1), words.at(2))?;
    let brought = read_frames(words.at(3))?;
    Ok(plain(Call::Dirty { range, brought }))
}

fn begin(words: &Tail<'_, '_>) -> Result<SpelledCall, Stop>
    ensures { Gives (λ spelled. spelled) result (call_in kinds.Begin words.now) }
{
    let range = read_range(words.at(1), words.at(2))?;
    let zero = read_flag(b"zero", b"any", words.at(3))?;
    Ok(plain(Call::Begin { range, zero }))
}

fn end(words: &Tail<'_, '_>) -> Result<SpelledCall, Stop>
    ensures { Gives (λ spelled. spelled) result (call_in kinds.End words.now) }
{
    let range = read_range(words.at(1), words.at(2))?;
    Ok(plain(Call::End { range, of: None }))
}

fn end_of(words: &Tail<'_, '_>) -> Result<SpelledCall, Stop>
    ensures { Gives (λ spelled. spelled) result (call_in kinds.EndOf words.now) }
{
    let range = read_range(words.at(1), words.at(2))?;
    let of = read_between(0, TICKETS, words.at(3))?;
    Ok(plain(Call::End {
        range,
        of: Some(of),
    }))
}

fn query(words: &Tail<'_, '_>) -> Result<SpelledCall, Stop>
    ensures { Gives (λ spelled. spelled) result (call_in kinds.Query words.now) }
{
    let range = read_range(words.at(1), words.at(2))?;
    let room = read_count(COUNTS, words.at(3))?;
    Ok(plain(Call::Query { range, room }))
}

fn stats(words: &Tail<'_, '_>) -> Result<SpelledCall, Stop>
    ensures { Gives (λ spelled. spelled) result (call_in kinds.Stats words.now) }
{
    let reset = read_flag(b"reset", b"keep", words.at(1))?;
    Ok(plain(Call::Stats { reset }))
}

fn always(words: &Tail<'_, '_>) -> Result<SpelledCall, Stop>
    ensures { Gives (λ spelled. spelled) result (call_in kinds.Always words.now) }
{
    let range = read_range(words.at(1), words.at(2))?;
    let kind = HintKind::Always;
    Ok(plain(Call::Hint { range, kind }))
}

fn cold(words: &Tail<'_, '_>) -> Result<SpelledCall, Stop>
    ensures { Gives (λ spelled. spelled) result (call_in kinds.Cold words.now) }
{
    let range = read_range(words.at(1), words.at(2))?;
    let kind = HintKind::Cold;
    Ok(plain(Call::Hint { range, kind }))
}

fn pin(words: &Tail<'_, '_>) -> Result<SpelledCall, Stop>
    ensures { Gives (λ spelled. spelled) result (call_in kinds.Pin words.now) }
{
    let range = read_range(words.at(1), words.at(2))?;
    let brought = read_frames(words.at(3))?;
    Ok(plain(Call::Pin { range, brought }))
}

fn unpin(words: &Tail<'_, '_>) -> Result<SpelledCall, Stop>
    ensures { Gives (λ spelled. spelled) result (call_in kinds.Unpin words.now) }
{
    let range = read_range(words.at(1), words.at(2))?;
    Ok(plain(Call::Unpin { range }))
}

fn evict(words: &Tail<'_, '_>) -> Result<SpelledCall, Stop>
    ensures { Gives (λ spelled. spelled) result (call_in kinds.Evict words.now) }
{
    let limit = read_count(COUNTS, words.at(1))?;
    let max = read_count(COUNTS, words.at(2))?;
    Ok(plain(Call::Evict { limit, max }))
}

fn borrow(words: &Tail<'_, '_>) -> Result<SpelledCall, Stop>
    ensures { Gives (λ spelled. spelled) result (call_in kinds.Borrow words.now) }
{
    let page = read_page(PAGES, words.at(1))?;
    let brought = read_frames(words.at(2))?;
    Ok(plain(Call::Borrow { page, brought }))
}

fn vacate(words: &Tail<'_, '_>) -> Result<SpelledCall, Stop>
    ensures { Gives (λ spelled. spelled) result (call_in kinds.Vacate words.now) }
{
    let brought = read_frames(words.at(1))?;
    Ok(plain(Call::Vacate { brought }))
}

fn resize(words: &Tail<'_, '_>) -> Result<SpelledCall, Stop>
    ensures { Gives (λ spelled. spelled) result (call_in kinds.Resize words.now) }
{
    let pages = read_count(SIZES, words.at(1))?;
    Ok(plain(Call::Resize { pages }))
}

fn zero(words: &Tail<'_, '_>) -> Result<SpelledCall, Stop>
    ensures { Gives (λ spelled. spelled) result (call_in kinds.Zero words.now) }
{
    let range = read_range(words.at(1), words.at(2))?;
    Ok(plain(Call::Zero { range }))
}

fn role(user: bool) -> Role
    ensures { result ≡ role_of user }
{
    if user { Role::User } else { Role::Pager }
}

fn leave(words: &Tail<'_, '_>) -> Result<SpelledCall, Stop>
    ensures { Gives (λ spelled. spelled) result (call_in kinds.Leave words.now) }
{
    let user = read_flag(b"user", b"pager", words.at(1))?;
    Ok(plain(Call::Leave { role: role(user) }))
}

fn fetched(words: &Tail<'_, '_>) -> Result<SpelledCall, Stop>
    ensures { Gives (λ spelled. spelled) result (call_in kinds.Fetched words.now) }
{
    let page = read_page(PAGES, words.at(1))?;
    let ok = read_flag(b"ok", b"failed", words.at(2))?;
    Ok(plain(Call::Tell(Told::Fetched { page, ok })))
}

fn stored(words: &Tail<'_, '_>) -> Result<SpelledCall, Stop>
    ensures { Gives (λ spelled. spelled) result (call_in kinds.Stored words.now) }
{
    let page = read_page(PAGES, words.at(1))?;
    let ok = read_flag(b"ok", b"failed", words.at(2))?;
    Ok(plain(Call::Tell(Told::Stored { page, ok })))
}

fn copied(words: &Tail<'_, '_>) -> Result<SpelledCall, Stop>
    ensures { Gives (λ spelled. spelled) result (call_in kinds.Copied words.now) }
{
    let range = read_range(words.at(1), words.at(2))?;
    Ok(plain(Call::Tell(Told::Copied(range))))
}

fn flushed(words: &Tail<'_, '_>) -> Result<SpelledCall, Stop>
    ensures { Gives (λ spelled. spelled) result (call_in kinds.Flushed words.now) }
{
    let ok = read_flag(b"ok", b"failed", words.at(1))?;
    Ok(plain(Call::Tell(Told::Flushed { ok })))
}

fn busy(words: &Tail<'_, '_>) -> Result<SpelledCall, Stop>
    ensures { Gives (λ spelled. spelled) result (call_in kinds.Busy words.now) }
{
    let pages = read_count(SIZES, words.at(1))?;
    let claim = read_range(words.at(2), words.at(3))?;
    Ok(plain(Call::Tell(Told::Busy { pages, claim })))
}

/// A call of this kind, from its verb on. It takes memory by the length of its words.
pub fn read_call(alloc: Global, kind: CallKind, words: &Tail<'_, '_>) -> Result<SpelledCall, Stop>
    ensures { Gives (λ spelled. spelled) result (call_in kind words.now) }
{
    match kind {
        CallKind::Read => read(words),
        CallKind::Write => write(alloc, words),
        CallKind::Retry => retry(words),
        CallKind::Supply => supply(alloc, words),
        CallKind::Fail => fail(words),
        CallKind::Dirty => dirty(words),
        CallKind::Begin => begin(words),
        CallKind::End => end(words),
        CallKind::EndOf => end_of(words),
        CallKind::Query => query(words),
        CallKind::Stats => stats(words),
        CallKind::Always => always(words),
        CallKind::Cold => cold(words),
        CallKind::Pin => pin(words),
        CallKind::Unpin => unpin(words),
        CallKind::Evict => evict(words),
        CallKind::Borrow => borrow(words),
        CallKind::Vacate => vacate(words),
        CallKind::Resize => resize(words),
        CallKind::Zero => zero(words),
        CallKind::Detach => Ok(plain(Call::Detach)),
        CallKind::Packet => Ok(plain(Call::Packet)),
        CallKind::Leave => leave(words),
        CallKind::Fetched => fetched(words),
        CallKind::Copied => copied(words),
        CallKind::Stored => stored(words),
        CallKind::Flushed => flushed(words),
        CallKind::Busy => busy(words),
    }
}

/// The call, with the bytes of these runs where it has any.
pub fn fill_call(alloc: Global, spelled: SpelledCall) -> Result<Call, Memory>
    ensures { IfOk result (λ call. call ≡ call_of spelled) }
{
    let SpelledCall { call, bytes } = spelled;
    let Some(runs) = bytes else {
        return Ok(call);
    };
    let bytes = spread_runs(alloc, &runs)?;
    match call {
        Call::Write {
            off,
            bytes: _,
            last,
            brought,
        } => Ok(Call::Write {
            off,
            bytes,
            last,
            brought,
        }),
        Call::Supply {
            range,
            bytes: _,
            brought,
        } => Ok(Call::Supply {
            range,
            bytes,
            brought,
        }),
        other => Ok(other),
    }
}
