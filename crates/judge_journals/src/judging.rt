//! What both programs say of a journal, as it is, with each of its replies changed, and with each number of an end changed.
use crate::changing::{end_with, line_with, other_than};
use crate::listing::count_again;
use crate::texts::{text_of, text_with};
use std::alloc::Global;
use std::io::{self, ErrorKind};
use up_check::{Verdict, check, check_slow};
use up_model::{Call, Entry, Reply};
use up_num::Memory;
use up_replies::put_reply;
use up_text::{Journals, Named, read_journals};
use up_words::ReadFault;

/// The lines before a journal's first entry.
const HEAD: usize = 2;

/// The verdicts of both programs, that of the replay first.
type Verdicts = (Verdict, Verdict);

/// The lines that are told of the journal that has these lines before its end.
pub(crate) fn report(alloc: Global, lines: &[String]) -> io::Result<String> {
    let text = text_of(alloc, lines)?;
    let journals = read(alloc, text.as_slice())?;
    let Some(journal) = journals.as_slice().first() else {
        return Err(io::Error::from(ErrorKind::InvalidData));
    };
    let name = str::from_utf8(journal.name.as_slice()).unwrap_or("-");
    let entries = journal.entries.len();
    let (replayed, looked_back) = judge(alloc, &journals)?;
    let (replayed, looked_back) = (word_of(&replayed), word_of(&looked_back));
    let again = count_again(alloc, journal)?;
    let told = count_told(alloc, lines, journal)?;
    let mut report = format!(in alloc;
        "{name} {entries} {replayed} {looked_back} again {again} changes {told}\n"
    )?;
    put_ends(alloc, &mut report, name, lines, journal)?;
    Ok(report)
}

/// The journals of a text.
fn read(alloc: Global, text: &[u8]) -> io::Result<Journals> {
    match read_journals(alloc, text) {
        Ok(journals) => Ok(journals),
        Err(ReadFault::Bad { .. }) => Err(io::Error::from(ErrorKind::InvalidData)),
        Err(ReadFault::Memory) => Err(io::Error::from(ErrorKind::OutOfMemory)),
    }
}

fn judge(alloc: Global, journals: &Journals) -> Result<Verdicts, Memory> {
    Ok((check(alloc, journals)?, check_slow(alloc, journals)?))
}

/// What both programs say where one line is another.
fn judge_with(
    alloc: Global,
    lines: &[String],
    number: usize,
    other: &[u8],
) -> io::Result<Verdicts> {
    let text = text_with(alloc, lines, number, other)?;
    let journals = read(alloc, text.as_slice())?;
    Ok(judge(alloc, &journals)?)
}

fn word_of(verdict: &Verdict) -> &'static str {
    match verdict {
        Verdict::Legal => "legal",
        Verdict::First { .. } => "illegal",
    }
}

/// In how many texts with one reply changed both programs tell that entry, and the reply that stood there.
fn count_told(alloc: Global, lines: &[String], journal: &Named) -> io::Result<usize> {
    let mut told = 0usize;
    for (place, entry) in journal.entries.as_slice().iter().enumerate() {
        if is_told(alloc, lines, place, &entry.reply)? {
            told = told.saturating_add(1);
        }
    }
    Ok(told)
}

fn is_told(alloc: Global, lines: &[String], place: usize, reply: &Reply) -> io::Result<bool> {
    let number = place.saturating_add(HEAD);
    let Some(line) = lines.get(number) else {
        return Ok(false);
    };
    let other = other_than(alloc, reply)?;
    let changed = line_with(alloc, line.as_str(), &other)?;
    let (replayed, looked_back) = judge_with(alloc, lines, number, changed.as_slice())?;
    Ok(tells(&replayed, place, reply) && tells(&looked_back, place, reply))
}

/// Whether a verdict is that this entry is the first at fault, and that this reply was expected.
fn tells(verdict: &Verdict, place: usize, reply: &Reply) -> bool {
    match verdict {
        Verdict::First {
            journal: 0,
            entry,
            expected: Some(expected),
        } => *entry == place as u64 && expected.same(reply),
        _ => false,
    }
}

/// For each end that has a number, and for each other number up to that of the next begin, a line of what both programs say.
fn put_ends(
    alloc: Global,
    report: &mut String,
    name: &str,
    lines: &[String],
    journal: &Named,
) -> io::Result<()> {
    let entries = journal.entries.as_slice();
    let begins = count_begins(entries);
    for (place, entry) in entries.iter().enumerate() {
        if let Call::End { of: Some(of), .. } = &entry.call {
            for number in 0..=begins {
                if number != *of {
                    put_end(alloc, report, name, lines, place, number)?;
                }
            }
        }
    }
    Ok(())
}

fn count_begins(entries: &[Entry]) -> u64 {
    let mut begins = 0u64;
    for entry in entries {
        if let Reply::Began(_) = &entry.reply {
            begins = begins.saturating_add(1);
        }
    }
    begins
}

/// The line of what both programs say where an end has another number.
fn put_end(
    alloc: Global,
    report: &mut String,
    name: &str,
    lines: &[String],
    place: usize,
    of: u64,
) -> io::Result<()> {
    let number = place.saturating_add(HEAD);
    let Some(line) = lines.get(number) else {
        return Ok(());
    };
    let changed = end_with(alloc, line.as_str(), of)?;
    let (replayed, looked_back) = judge_with(alloc, lines, number, changed.as_slice())?;
    let replayed = text_of_verdict(alloc, &replayed)?;
    let looked_back = text_of_verdict(alloc, &looked_back)?;
    let told = format!(in alloc; "{name} end {place} of {of}: {replayed}; {looked_back}\n")?;
    report.push_str(told.as_str())?;
    Ok(())
}

/// A verdict on one journal in words.
fn text_of_verdict(alloc: Global, verdict: &Verdict) -> io::Result<String> {
    match verdict {
        Verdict::Legal => Ok(String::from_str(alloc, "legal")?),
        Verdict::First {
            entry,
            expected: None,
            ..
        } => Ok(format!(in alloc; "{entry} improper")?),
        Verdict::First {
            entry,
            expected: Some(reply),
            ..
        } => {
            let mut due = Vec::new(alloc);
            put_reply(&mut due, reply)?;
            let due = str::from_utf8(due.as_slice()).unwrap_or("-");
            Ok(format!(in alloc; "{entry} due{due}")?)
        }
    }
}
