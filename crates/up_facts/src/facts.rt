ghost use Rattle.std.specs.Prelude.{◌≡◌, None, true, false, ◌&&◌, ◌+◌, ◌*◌, ◌/◌, ◌∷◌, ◌<◌, ◌^◌, reverse, IfOk};
ghost use Rattle.up_model.specs.Deeds as deeds;
ghost use Rattle.up_model.specs.States as states;
ghost use Rattle.up_model.specs.Value as values;
ghost use Rattle.up_facts.specs.Seen.{access_in, AreMarks, counts_within};
ghost use Rattle.up_facts.specs.Seen as seen;

use crate::attempts::{attempt, began_as};
use crate::deeds::{begins, blanks, dirties, drops, ends, pins_one, supplies, writes};
use std::alloc::Global;
use up_model::{Birth, Call, Entry};
use up_num::{Bytes, Items, Memory};

/// What decides the state of a page: its first byte, whether it is still zeros, whether what it has is in
/// writeback or written back, and from which entry on begins count for it, and up to which those for zero pages.
#[derive(Clone, Copy)]
struct Marks {
    first: Option<u8>,
    marked: bool,
    begun: bool,
    settled: bool,
    since: usize,
    until: usize,
}

fn written(access: Option<&Call>, offset: u64) -> Option<u8>
    ensures { result ≡ deeds.written (access_in access.entry) offset }
{
    match access {
        Some(Call::Write { off, bytes, .. }) if *off <= offset => {
            bytes.as_slice().get((offset - *off) as usize).copied()
        }
        _ => None,
    }
}

fn supplied(call: &Call, offset: u64) -> Option<u8>
    ensures { result ≡ deeds.supplied call.now offset }
{
    match call {
        Call::Supply { range, bytes, .. } => {
            let start = 4096 * u64::from(range.first);
            let place = offset.saturating_sub(start) as usize;
            bytes.as_slice().get(place).copied()
        }
        _ => None,
    }
}

fn value_after(
    birth: &Birth,
    before: &[Entry],
    entry: &Entry,
    offset: u64,
    emptied: bool,
    old: Option<u8>,
) -> Option<u8>
    ensures { result ≡ values.value_after birth.now (reverse before.now) entry.now offset emptied old }
{
    let page = offset / 4096;
    if writes(before, entry, page) {
        written(attempt(before, &entry.call), offset).or(old)
    } else if supplies(entry, page) {
        old.or(supplied(&entry.call, offset))
    } else if blanks(birth, before, entry, page) {
        Some(0)
    } else if drops(birth, before, entry, page) || emptied {
        None
    } else {
        old
    }
}

fn for_zero(call: &Call) -> bool
    ensures { result ≡ deeds.for_zero call.now }
{
    matches!(call, Call::Begin { zero: true, .. })
}

/// Whether the entry at this place is the begin of this number, and counts for the page.
fn counts_as(entry: &Entry, number: u64, page: u64, place: usize, marks: &Marks) -> bool
    ensures { result ≡ counts_within entry.now (deeds.ThisBegin number) page place marks.now.since marks.now.until }
{
    marks.since <= place
        && (began_as(&entry.reply, number)
            && (begins(entry, page) && (!for_zero(&entry.call) || place < marks.until)))
}

/// Whether the begin of this number counts for the page, and stands after what dirtied it last.
fn begun_as(birth: &Birth, before: &[Entry], number: u64, page: u64, marks: &Marks) -> bool
    requires { AreMarks birth.now (reverse before.now) page marks.now }
    ensures { result ≡ values.begun_by birth.now (reverse before.now) (deeds.ThisBegin number) page }
{
    let mut found = false;
    for place in 0..before.len() {
        found = counts_as(&before[place], number, page, place, marks) || found;
    }
    found
}

/// Whether an end with this number is for a begin that counts for the page.
#[tactic(auto, using(crate::proofs::Begins::none_named))]
fn closed_by(birth: &Birth, before: &[Entry], of: &Option<u64>, page: u64, marks: &Marks) -> bool
    requires { AreMarks birth.now (reverse before.now) page marks.now }
    ensures { result ≡ values.begun_by birth.now (reverse before.now) (deeds.named_by birth.now.numbered of.now) page }
{
    if !birth.numbered {
        return marks.begun;
    }
    match of {
        Some(number) => begun_as(birth, before, *number, page, marks),
        None => false,
    }
}

/// Whether the entry, if it is an end, is for a begin that counts for the page.
#[tactic(auto, using(crate::proofs::Begins::none_named))]
fn closes(birth: &Birth, before: &[Entry], entry: &Entry, page: u64, marks: &Marks) -> bool
    requires { AreMarks birth.now (reverse before.now) page marks.now }
    ensures { result ≡ states.closes birth.now (reverse before.now) entry.now page }
{
    match &entry.call {
        Call::End { of, .. } => closed_by(birth, before, of, page, marks),
        _ => false,
    }
}

fn empties(birth: &Birth, before: &[Entry], entry: &Entry, page: u64, marks: &Marks) -> bool
    requires { AreMarks birth.now (reverse before.now) page marks.now }
    ensures { result ≡ states.empties birth.now (reverse before.now) entry.now page }
{
    let there = marks.first.is_some();
    ends(entry, page)
        && ((there && marks.marked)
            && ((there && !marks.settled) && closes(birth, before, entry, page, marks)))
}

#[tactic(auto, using(up_model::proofs::Equations::marked_is))]
fn marked_after(birth: &Birth, before: &[Entry], entry: &Entry, page: u64, marks: &Marks) -> bool
    requires { AreMarks birth.now (reverse before.now) page marks.now }
    ensures { result ≡ values.marked birth.now (entry.now ∷ reverse before.now) page }
{
    if blanks(birth, before, entry, page) {
        true
    } else if writes(before, entry, page) || pins_one(entry, page) {
        false
    } else if supplies(entry, page) {
        marks.first.is_some() && marks.marked
    } else {
        marks.marked
    }
}

#[tactic(auto, using(up_model::proofs::Equations::begun_is))]
fn begun_after(birth: &Birth, before: &[Entry], entry: &Entry, page: u64, marks: &Marks) -> bool
    requires { AreMarks birth.now (reverse before.now) page marks.now }
    ensures { result ≡ values.begun birth.now (entry.now ∷ reverse before.now) page }
{
    if dirties(birth, before, entry, page) {
        false
    } else if begins(entry, page) {
        (!for_zero(&entry.call) || (marks.first.is_some() && marks.marked)) || marks.begun
    } else {
        marks.begun
    }
}

#[tactic(auto, using(up_model::proofs::Equations::settled_is))]
fn settled_after(birth: &Birth, before: &[Entry], entry: &Entry, page: u64, marks: &Marks) -> bool
    requires { AreMarks birth.now (reverse before.now) page marks.now }
    ensures { result ≡ values.settled birth.now (entry.now ∷ reverse before.now) page }
{
    if dirties(birth, before, entry, page) {
        false
    } else if ends(entry, page) {
        closes(birth, before, entry, page, marks) || marks.settled
    } else {
        marks.settled
    }
}

#[tactic(auto, using(up_model::proofs::Equations::value_is))]
fn byte_after(
    birth: &Birth,
    before: &[Entry],
    entry: &Entry,
    offset: u64,
    marks: &Marks,
    old: Option<u8>,
) -> Option<u8>
    requires marks { AreMarks birth.now (reverse before.now) (offset / 4096) marks.now }
    requires old { old ≡ values.value birth.now (reverse before.now) offset }
    ensures { result ≡ values.value birth.now (entry.now ∷ reverse before.now) offset }
{
    let emptied = empties(birth, before, entry, offset / 4096, marks);
    value_after(birth, before, entry, offset, emptied, old)
}

/// How many entries there are after the last that dirtied the page.
fn since_after(birth: &Birth, before: &[Entry], entry: &Entry, page: u64, marks: &Marks) -> usize
    requires { AreMarks birth.now (reverse before.now) page marks.now }
    ensures { result ≡ seen.since birth.now (entry.now ∷ reverse before.now) page }
{
    if dirties(birth, before, entry, page) {
        before.len() + 1
    } else {
        marks.since
    }
}

/// How many entries there are after the last before which the page was a zero page.
fn until_after(birth: &Birth, before: &[Entry], entry: &Entry, page: u64, marks: &Marks) -> usize
    requires { AreMarks birth.now (reverse before.now) page marks.now }
    ensures { result ≡ seen.until birth.now (entry.now ∷ reverse before.now) page }
{
    if marks.first.is_some() && marks.marked {
        before.len() + 1
    } else {
        marks.until
    }
}

fn marks_after(birth: &Birth, before: &[Entry], entry: &Entry, page: u64, marks: &Marks) -> Marks
    requires small { page < 2 ^ 52 }
    requires marks { AreMarks birth.now (reverse before.now) page marks.now }
    ensures { AreMarks birth.now (entry.now ∷ reverse before.now) page result }
{
    Marks {
        first: byte_after(birth, before, entry, 4096 * page, marks, marks.first),
        marked: marked_after(birth, before, entry, page, marks),
        begun: begun_after(birth, before, entry, page, marks),
        settled: settled_after(birth, before, entry, page, marks),
        since: since_after(birth, before, entry, page, marks),
        until: until_after(birth, before, entry, page, marks),
    }
}

fn no_marks() -> Marks
    ensures { result ≡ record { first = None; marked = false; begun = false; settled = true; since = 0; until = 0 } }
{
    Marks {
        first: None,
        marked: false,
        begun: false,
        settled: true,
        since: 0,
        until: 0,
    }
}

fn marks_of(birth: &Birth, before: &[Entry], page: u64) -> Marks
    requires { page < 2 ^ 52 }
    ensures { AreMarks birth.now (reverse before.now) page result }
{
    let mut marks = no_marks();
    for place in 0..before.len() {
        marks = marks_after(birth, &before[..place], &before[place], page, &marks);
    }
    marks
}

/// The byte at an offset, if it has one.
pub(crate) fn value(birth: &Birth, before: &[Entry], offset: u64) -> Option<u8>
    ensures { result ≡ values.value birth.now (reverse before.now) offset }
{
    let mut marks = no_marks();
    let mut byte = None;
    for place in 0..before.len() {
        let entry = &before[place];
        byte = byte_after(birth, &before[..place], entry, offset, &marks, byte);
        marks = marks_after(birth, &before[..place], entry, offset / 4096, &marks);
    }
    byte
}

/// Whether the page is there.
pub fn has_page(birth: &Birth, before: &[Entry], page: u64) -> bool
    requires { page < 2 ^ 52 }
    ensures { result ≡ values.there birth.now (reverse before.now) page }
{
    marks_of(birth, before, page).first.is_some()
}

/// Whether the page is there, and still zeros.
pub fn is_plain(birth: &Birth, before: &[Entry], page: u64) -> bool
    requires { page < 2 ^ 52 }
    ensures { result ≡ states.plain birth.now (reverse before.now) page }
{
    let marks = marks_of(birth, before, page);
    marks.first.is_some() && marks.marked
}

/// Whether what the page has is written back.
pub fn is_settled(birth: &Birth, before: &[Entry], page: u64) -> bool
    requires { page < 2 ^ 52 }
    ensures { result ≡ values.settled birth.now (reverse before.now) page }
{
    marks_of(birth, before, page).settled
}

/// Whether the page is there, and what it has is written back.
pub(crate) fn is_clean(birth: &Birth, before: &[Entry], page: u64) -> bool
    requires { page < 2 ^ 52 }
    ensures { result ≡ states.clean birth.now (reverse before.now) page }
{
    let marks = marks_of(birth, before, page);
    marks.first.is_some() && marks.settled
}

/// Whether the page is there, and what it has isn't written back.
pub fn is_unclean(birth: &Birth, before: &[Entry], page: u64) -> bool
    requires { page < 2 ^ 52 }
    ensures { result ≡ states.unclean birth.now (reverse before.now) page }
{
    let marks = marks_of(birth, before, page);
    marks.first.is_some() && !marks.settled
}

/// Whether an end with this number empties the page.
pub(crate) fn is_emptied(birth: &Birth, before: &[Entry], of: &Option<u64>, page: u64) -> bool
    requires { page < 2 ^ 52 }
    ensures { result ≡ states.empty_at_end birth.now (reverse before.now) (deeds.named_by birth.now.numbered of.now) page }
{
    let marks = marks_of(birth, before, page);
    let there = marks.first.is_some();
    (there && marks.marked)
        && ((there && !marks.settled) && closed_by(birth, before, of, page, &marks))
}

/// Whether the page is unclean, and no writeback of it has begun.
pub fn is_dirty(birth: &Birth, before: &[Entry], page: u64) -> bool
    requires { page < 2 ^ 52 }
    ensures { result ≡ states.dirty birth.now (reverse before.now) page }
{
    let marks = marks_of(birth, before, page);
    (marks.first.is_some() && !marks.settled) && !marks.begun
}

/// Whether the entry fills the page: it supplies it, and the page wasn't there.
pub(crate) fn takes(birth: &Birth, before: &[Entry], entry: &Entry, page: u64) -> bool
    requires { page < 2 ^ 52 }
    ensures { result ≡ values.takes birth.now (reverse before.now) entry.now page }
{
    supplies(entry, page) && !has_page(birth, before, page)
}

fn byte_or_zero(byte: Option<u8>) -> u8
    ensures { result ≡ values.byte_or_zero byte }
{
    match byte {
        Some(byte) => byte,
        None => 0,
    }
}

/// The bytes from an offset on, a byte without a value as 0.
pub fn bytes_from(
    alloc: Global,
    birth: &Birth,
    before: &[Entry],
    off: u64,
    len: u32,
) -> Result<Bytes, Memory>
    requires { off + len < 2 ^ 64 }
    ensures { IfOk result (λ bytes. bytes ≡ values.bytes_from birth.now (reverse before.now) off len) }
{
    let mut bytes = Vec::new(alloc);
    for place in 0..len {
        let byte = byte_or_zero(value(birth, before, off + u64::from(place)));
        bytes.push(byte)?;
    }
    Ok(Items::from_vec(bytes))
}
