ghost use Rattle.std.specs.Prelude.{◌≡◌, ◌+◌, ◌<◌, IfOk};
ghost use Rattle.up_words.specs.ReadSteps.{Gives, or_why};
ghost use Rattle.up_words.specs.declared.fault.Why.TheVariants.{Word};
ghost use Rattle.up_calls.specs.Calls.{call_kind};
ghost use Rattle.up_replies.specs.Replies.{reply_kind};
ghost use Rattle.up_text.specs.Reading.{entry_in, entry_line, entry_of, forms_in, spelled_bytes};

use crate::journals::Named;
use crate::section::{Part, Section};
use std::alloc::Global;
use up_calls::{CallKind, SpelledCall, fill_call, find_call, read_call};
use up_fields::{COUNTS, TICKETS, Tail, read_count, total};
use up_model::Entry;
use up_num::Memory;
use up_replies::{ReplyKind, SpelledReply, fill_reply, find_reply, fits_list, read_reply};
use up_words::{Stop, Why, Words, read_between};

/// What the byte lists of a text may spell in sum.
const BYTES: u64 = 268_435_456;

/// The forms of an entry's call and reply.
#[derive(Clone, Copy)]
pub struct Forms {
    pub call: CallKind,
    pub reply: ReplyKind,
}

/// An entry whose byte lists are still runs.
#[derive(Drop)]
pub struct Spelled {
    pub who: u32,
    pub epoch: u64,
    pub call: SpelledCall,
    pub reply: SpelledReply,
}

fn read_call_kind(numbered: bool, words: &Tail<'_, '_>) -> Result<CallKind, Stop>
    ensures { Gives (λ kind. kind) result (or_why Word (call_kind numbered words.now)) }
{
    match find_call(numbered, words) {
        None => Err(Stop::Found(Why::Word)),
        Some(kind) => Ok(kind),
    }
}

fn read_reply_kind(numbers: bool, words: &Tail<'_, '_>) -> Result<ReplyKind, Stop>
    ensures { Gives (λ kind. kind) result (or_why Word (reply_kind numbers words.now)) }
{
    match find_reply(numbers, words) {
        None => Err(Stop::Found(Why::Word)),
        Some(kind) => Ok(kind),
    }
}

fn read_forms(
    alloc: Global,
    numbers: bool,
    numbered: bool,
    words: &Words<'_>,
) -> Result<Forms, Stop>
    ensures { Gives (λ forms. forms) result (forms_in numbers numbered words.now) }
{
    let deed = Tail::new(words, 3);
    let call = read_call_kind(numbered, &deed)?;
    if !deed.reads(call.size(), b"->") {
        return Err(Stop::Found(Why::Word));
    }
    let answer = Tail::new(words, call.size() + 4);
    let reply = read_reply_kind(numbers, &answer)?;
    if !fits_list(alloc, reply, &answer)? {
        return Err(Stop::Found(Why::Word));
    }
    Ok(Forms { call, reply })
}

fn read_entry(
    alloc: Global,
    numbers: bool,
    numbered: bool,
    next: u64,
    words: &Words<'_>,
) -> Result<Spelled, Stop>
    ensures { Gives (λ entry. entry) result (entry_in numbers numbered next words.now) }
{
    let forms = read_forms(alloc, numbers, numbered, words)?;
    let position = read_between(0, TICKETS, words.at(0))?;
    let who = read_count(COUNTS, words.at(1))?;
    let epoch = read_between(0, TICKETS, words.at(2))?;
    let call = read_call(alloc, forms.call, &Tail::new(words, 3))?;
    let answer = Tail::new(words, forms.call.size() + 4);
    let reply = read_reply(alloc, forms.reply, &answer)?;
    if position != next {
        return Err(Stop::Found(Why::Order));
    }
    Ok(Spelled {
        who,
        epoch,
        call,
        reply,
    })
}

fn count_bytes(entry: &Spelled) -> u64
    ensures value { result ≡ spelled_bytes entry.now }
    ensures small { result < 8589934592 }
{
    u64::from(total(&entry.call.bytes)) + u64::from(total(&entry.reply.bytes))
}

fn fill_entry(alloc: Global, entry: Spelled) -> Result<Entry, Memory>
    ensures { IfOk result (λ filled. filled ≡ entry_of entry) }
{
    let Spelled {
        who,
        epoch,
        call,
        reply,
    } = entry;
    let call = fill_call(alloc, call)?;
    let reply = fill_reply(alloc, reply)?;
    Ok(Entry {
        who,
        epoch,
        call,
        reply,
    })
}

/// An entry's line: one entry more in the open journal. The bytes are counted before they take memory.
pub fn read_entry_line(
    alloc: Global,
    numbers: bool,
    part: Part,
    current: Named,
    words: &Words<'_>,
) -> Result<Section, Stop>
    ensures { Gives (λ next. next) result (entry_line numbers part current words.now) }
{
    let next = current.entries.len() as u64;
    let entry = read_entry(alloc, numbers, current.birth.numbered, next, words)?;
    let bytes = u64::from(part.bytes) + count_bytes(&entry);
    if BYTES < bytes {
        return Err(Stop::Found(Why::Limit));
    }
    let entry = fill_entry(alloc, entry)?;
    let Named {
        name,
        birth,
        mut entries,
    } = current;
    entries.push(entry)?;
    let Part { journals, bytes: _ } = part;
    let part = Part {
        journals,
        bytes: bytes as u32,
    };
    Ok(Section::Within(
        part,
        Named {
            name,
            birth,
            entries,
        },
    ))
}
