ghost use Rattle.std.specs.Prelude.{◌≡◌, ◌≤◌, IfOk, Ok, length, true};
ghost use Rattle.up_words.specs.ReadSteps.{Gives, GivesText, at_line};
ghost use Rattle.up_words.specs.Words.{split};
ghost use Rattle.up_text.specs.Limits.{longest_text};
ghost use Rattle.up_text.specs.Text.{text};
ghost use Rattle.up_text.specs.Allowed.{are_within};
ghost use Rattle.up_text.specs.Versions.{Versioned, is_version};
ghost use Rattle.up_text.specs.Reading.{between_line, birth_size, end_line, ended, journals_of, last_step, line_step, lines_of, version_in, within_line};

use crate::births::read_journal_line;
use crate::entries::read_entry_line;
use crate::journals::Named;
use crate::section::{Part, Section};
use crate::versioned::Journals;
use std::alloc::Global;
use up_fields::TICKETS;
use up_words::{ReadFault, Stop, Why, Words, front, read_between, read_words};

/// The greatest length of a text.
const TEXT: usize = 67_108_864;

fn read_end_line(part: Part, current: Named, words: &Words<'_>) -> Result<Section, Stop>
    ensures { Gives (λ next. next) result (end_line part current words.now) }
{
    if words.len() != 2 {
        return Err(Stop::Found(Why::Word));
    }
    let count = read_between(0, TICKETS, words.at(1))?;
    if count != current.entries.len() as u64 {
        return Err(Stop::Found(Why::Order));
    }
    let Part {
        mut journals,
        bytes,
    } = part;
    journals.push(current)?;
    Ok(Section::Between(Part { journals, bytes }))
}

fn birth_words(numbers: bool) -> usize
    ensures { result ≡ birth_size numbers }
{
    if numbers { 9 } else { 8 }
}

fn read_between_line(
    alloc: Global,
    numbers: bool,
    part: Part,
    words: &Words<'_>,
) -> Result<Section, Stop>
    ensures { Gives (λ next. next) result (between_line numbers part words.now) }
{
    if words.has(0, b"done", 1) {
        let Part { journals, bytes: _ } = part;
        Ok(Section::Ended(journals))
    } else if words.has(0, b"journal", birth_words(numbers)) {
        read_journal_line(alloc, numbers, part, words)
    } else {
        Err(Stop::Found(Why::Word))
    }
}

fn read_within_line(
    alloc: Global,
    numbers: bool,
    part: Part,
    current: Named,
    words: &Words<'_>,
) -> Result<Section, Stop>
    ensures { Gives (λ next. next) result (within_line numbers part current words.now) }
{
    if words.reads(0, b"end") {
        read_end_line(part, current, words)
    } else {
        read_entry_line(alloc, numbers, part, current, words)
    }
}

// The version that the first line names.
fn read_version(line: &[u8]) -> Result<u32, Stop>
    ensures value { Gives (λ version. version) result (version_in line.now) }
    ensures known { IfOk result (λ version. is_version version ≡ true) }
{
    if line == b"pagerd-journal 1".as_slice() {
        Ok(1)
    } else if line == b"pagerd-journal 2".as_slice() {
        Ok(2)
    } else {
        Err(Stop::Found(Why::Header))
    }
}

fn read_header(alloc: Global, line: &[u8]) -> Result<Section, Stop>
    ensures { Gives (λ next. next) result (line_step Section.Header line.now) }
{
    let version = read_version(line)?;
    Ok(Section::Between(Part {
        journals: Journals::new(alloc, version),
        bytes: 0,
    }))
}

fn read_line_between(alloc: Global, part: Part, line: &[u8]) -> Result<Section, Stop>
    ensures { Gives (λ next. next) result (line_step (Section.Between part) line.now) }
{
    let words = read_words(alloc, line)?;
    let numbers = part.journals.has_numbers();
    read_between_line(alloc, numbers, part, &words)
}

fn read_line_within(alloc: Global, part: Part, current: Named, line: &[u8]) -> Result<Section, Stop>
    ensures { Gives (λ next. next) result (line_step (Section.Within part current) line.now) }
{
    let words = read_words(alloc, line)?;
    let numbers = part.journals.has_numbers();
    read_within_line(alloc, numbers, part, current, &words)
}

fn read_line(alloc: Global, section: Section, line: &[u8]) -> Result<Section, Stop>
    ensures { Gives (λ next. next) result (line_step section line.now) }
{
    match section {
        Section::Header => read_header(alloc, line),
        Section::Between(part) => read_line_between(alloc, part, line),
        Section::Within(part, current) => read_line_within(alloc, part, current, line),
        Section::Ended(_) => Err(Stop::Found(Why::Word)),
    }
}

fn finish(section: Section) -> Result<Journals, Stop>
    ensures { Gives (λ journals. journals) result (ended section) }
{
    match section {
        Section::Header => Err(Stop::Found(Why::Header)),
        Section::Ended(journals) => Ok(journals),
        _ => Err(Stop::Found(Why::Cut)),
    }
}

fn end(section: Section, rest: &[u8]) -> Result<Journals, Stop>
    ensures { Gives (λ journals. journals) result (last_step section rest.now) }
{
    if !rest.is_empty() {
        return Err(Stop::Found(Why::Cut));
    }
    finish(section)
}

fn end_at(number: u32, section: Section, rest: &[u8]) -> Result<Journals, ReadFault>
    ensures { GivesText (λ journals. journals) result (at_line number (last_step section rest.now)) }
{
    match end(section, rest) {
        Ok(journals) => Ok(journals),
        Err(stop) => Err(stop.at(number)),
    }
}

fn read_line_at(
    alloc: Global,
    number: u32,
    section: Section,
    line: &[u8],
) -> Result<Section, ReadFault>
    ensures { GivesText (λ next. next) result (at_line number (line_step section line.now)) }
{
    match read_line(alloc, section, line) {
        Ok(next) => Ok(next),
        Err(stop) => Err(stop.at(number)),
    }
}

fn read_lines(alloc: Global, text: &[u8]) -> Result<Journals, ReadFault>
    requires { length text.now ≤ longest_text }
    ensures { GivesText (λ journals. journals) result (lines_of 1 Section.Header (split 10 text.now)) }
{
    let mut section = Section::Header;
    let mut number: u32 = 1;
    let mut rest = text;
    loop {
        let (line, after) = front(rest);
        match after {
            None => return end_at(number, section, line),
            Some(after) => {
                section = read_line_at(alloc, number, section, line)?;
                number += 1;
                rest = after;
            }
        }
    }
}

/// The journals that a text spells. A text outside the grammar or a limit is `Bad`, with its first faulty line and the
/// first reason there.
pub fn read_journals(alloc: Global, bytes: &[u8]) -> Result<Journals, ReadFault>
    ensures exact { GivesText (λ journals. journals) result (journals_of bytes.now) }
    ensures found { (journals : Versioned) → are_within journals ≡ true → bytes.now ≡ text journals → GivesText (λ journals. journals) result (Ok journals) }
    ensures sound { IfOk result (λ journals. (bytes.now ≡ text journals) × (are_within journals ≡ true)) }
{
    if TEXT < bytes.len() {
        return Err(ReadFault::Bad {
            line: 0,
            why: Why::Long,
        });
    }
    read_lines(alloc, bytes)
}
