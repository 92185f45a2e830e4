ghost use Rattle.std.specs.Prelude.{◌≡◌, ◌++◌, ◌∷◌, [], OnOk, OnErr, codes, decimal};
ghost use Rattle.std.specs.List.{flat_map};
ghost use Rattle.up_fields.specs.Text.{flag_text, line_of, line_text, spaced};
ghost use Rattle.up_calls.specs.Text.{call_words};
ghost use Rattle.up_replies.specs.Text.{reply_words};
ghost use Rattle.up_text.specs.Text.{birth_words, end_words, entries_text, entry_words, header, journal_text, limit_text, mode_words, text};

use crate::journals::Named;
use crate::versioned::Journals;
use up_calls::put_call;
use up_fields::{put_flag, put_next, put_number, put_word};
use up_model::{Birth, Call, Entry, Reply};
use up_num::Memory;
use up_replies::put_reply;

/// Appends the text of the journals. After want of memory nothing is appended.
pub fn write_journals(journals: &Journals, out: &mut Vec<u8>) -> Result<(), Memory>
    ensures ok { OnOk result (out.new.items ≡ out.old.items ++ text journals.now) }
    ensures same { OnErr result (out.new.items ≡ out.old.items) }
{
    let mut made = Vec::new(*out.allocator());
    put_text(&mut made, journals)?;
    out.extend_from_slice(made.as_slice())
}

fn put_text(out: &mut Vec<u8>, journals: &Journals) -> Result<(), Memory>
    ensures { OnOk result (out.new.items ≡ out.old.items ++ text journals.now) }
{
    let numbers = journals.has_numbers();
    put_header(out, numbers)?;
    put_journals(out, numbers, journals.as_slice())?;
    out.extend_from_slice(b"done\n")
}

// The first line.
fn put_header(out: &mut Vec<u8>, numbers: bool) -> Result<(), Memory>
    ensures { OnOk result (out.new.items ≡ out.old.items ++ (header numbers ++ codes "\n")) }
{
    if numbers {
        out.extend_from_slice(b"pagerd-journal 2\n")
    } else {
        out.extend_from_slice(b"pagerd-journal 1\n")
    }
}

fn put_journals(out: &mut Vec<u8>, numbers: bool, journals: &[Named]) -> Result<(), Memory>
    ensures { OnOk result (out.new.items ≡ out.old.items ++ flat_map (journal_text numbers) journals.now) }
{
    let mut rest = journals;
    while let [journal, after @ ..] = rest {
        put_journal(out, numbers, journal)?;
        rest = after;
    }
    Ok(())
}

fn put_journal(out: &mut Vec<u8>, numbers: bool, journal: &Named) -> Result<(), Memory>
    ensures { OnOk result (out.new.items ≡ out.old.items ++ journal_text numbers journal.now) }
{
    put_birth(out, numbers, journal.name.as_slice(), &journal.birth)?;
    out.extend_from_slice(b"\n")?;
    put_entries(out, journal.entries.as_slice())?;
    put_end(out, journal.entries.len() as u64)
}

fn put_birth(out: &mut Vec<u8>, numbers: bool, name: &[u8], birth: &Birth) -> Result<(), Memory>
    ensures { OnOk result (out.new.items ≡ out.old.items ++ line_of (birth_words numbers name.now birth.now)) }
{
    out.extend_from_slice(b"journal")?;
    put_word(out, name)?;
    put_size(out, birth)?;
    put_bonds(out, birth)?;
    put_mode(out, numbers, birth.numbered)
}

fn put_size(out: &mut Vec<u8>, birth: &Birth) -> Result<(), Memory>
    ensures { OnOk result (out.new.items ≡ out.old.items ++ spaced (decimal birth.now.pages ∷ limit_text birth.now.limit ∷ flag_text (codes "trap") (codes "free") birth.now.trap ∷ [])) }
{
    put_next(out, u64::from(birth.pages))?;
    put_limit(out, birth.limit)?;
    put_flag(out, b"trap", b"free", birth.trap)
}

fn put_bonds(out: &mut Vec<u8>, birth: &Birth) -> Result<(), Memory>
    ensures { OnOk result (out.new.items ≡ out.old.items ++ spaced (decimal birth.now.users ∷ decimal birth.now.pagers ∷ flag_text (codes "image") (codes "-") birth.now.image ∷ [])) }
{
    put_next(out, u64::from(birth.users))?;
    put_next(out, u64::from(birth.pagers))?;
    put_flag(out, b"image", b"-", birth.image)
}

// Whether the journal is numbered, where the text says so.
fn put_mode(out: &mut Vec<u8>, numbers: bool, numbered: bool) -> Result<(), Memory>
    ensures { OnOk result (out.new.items ≡ out.old.items ++ spaced (mode_words numbers numbered)) }
{
    if numbers {
        put_flag(out, b"numbered", b"ranged", numbered)
    } else {
        Ok(())
    }
}

fn put_limit(out: &mut Vec<u8>, limit: Option<u32>) -> Result<(), Memory>
    ensures { OnOk result (out.new.items ≡ out.old.items ++ 32 ∷ limit_text limit) }
{
    match limit {
        None => put_word(out, b"-"),
        Some(pages) => put_next(out, u64::from(pages)),
    }
}

#[tactic(auto, unfolding(crate::specs::Text::entries_text))]
fn put_entries(out: &mut Vec<u8>, entries: &[Entry]) -> Result<(), Memory>
    ensures { OnOk result (out.new.items ≡ out.old.items ++ entries_text 0 entries.now) }
{
    let mut rest = entries;
    let mut position = 0u64;
    while let [entry, after @ ..] = rest {
        put_entry(out, position, entry)?;
        out.extend_from_slice(b"\n")?;
        rest = after;
        position += 1;
    }
    Ok(())
}

fn put_entry(out: &mut Vec<u8>, position: u64, entry: &Entry) -> Result<(), Memory>
    ensures { OnOk result (out.new.items ≡ out.old.items ++ line_of (entry_words position entry.now)) }
{
    put_place(out, position, entry.who, entry.epoch)?;
    put_deed(out, &entry.call, &entry.reply)
}

// The place of an entry, who called and in which epoch.
fn put_place(out: &mut Vec<u8>, position: u64, who: u32, epoch: u64) -> Result<(), Memory>
    ensures { OnOk result (out.new.items ≡ out.old.items ++ line_of (decimal position ∷ decimal who ∷ decimal epoch ∷ [])) }
{
    put_number(out, position)?;
    put_next(out, u64::from(who))?;
    put_next(out, epoch)
}

// A call and its reply.
fn put_deed(out: &mut Vec<u8>, call: &Call, reply: &Reply) -> Result<(), Memory>
    ensures { OnOk result (out.new.items ≡ out.old.items ++ spaced (call_words call.now ++ codes "->" ∷ reply_words reply.now)) }
{
    put_call(out, call)?;
    put_word(out, b"->")?;
    put_reply(out, reply)
}

fn put_end(out: &mut Vec<u8>, count: u64) -> Result<(), Memory>
    ensures { OnOk result (out.new.items ≡ out.old.items ++ line_text (end_words count)) }
{
    out.extend_from_slice(b"end")?;
    put_next(out, count)?;
    out.extend_from_slice(b"\n")
}
