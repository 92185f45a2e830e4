ghost use Rattle.std.specs.Prelude.{◌≡◌};
ghost use Rattle.up_words.specs.ReadSteps.{Gives, or_why};
ghost use Rattle.up_words.specs.declared.fault.Why.TheVariants.{Word};
ghost use Rattle.up_text.specs.Reading.{birth_in, has_name, journal_line, limit_in, mode_in};

use crate::journals::Named;
use crate::section::{Part, Section};
use std::alloc::Global;
use up_fields::{SIZES, read_count, read_flag};
use up_model::Birth;
use up_num::Items;
use up_words::{Stop, Why, Words, read_between, spells_name};

/// How many journals a text has at most.
const JOURNALS: usize = 16;
/// How many users or pagers an object has at most.
const ACTORS: u64 = 64;

fn knows(journals: &[Named], name: &[u8]) -> bool
    ensures { result ≡ has_name journals.now name.now }
{
    let mut rest = journals;
    while let [journal, after @ ..] = rest {
        if journal.name.as_slice() == name {
            return true;
        }
        rest = after;
    }
    false
}

fn read_limit(pages: u32, word: &[u8]) -> Result<Option<u32>, Stop>
    ensures { Gives (λ limit. limit) result (limit_in pages word.now) }
{
    if word == b"-".as_slice() {
        return Ok(None);
    }
    let most = read_between(u64::from(pages), u64::from(SIZES), word)?;
    Ok(Some(most as u32))
}

// Whether the journal is numbered, where the text says so.
fn read_mode(numbers: bool, word: &[u8]) -> Result<bool, Stop>
    ensures { Gives (λ numbered. numbered) result (or_why Word (mode_in numbers word.now)) }
{
    if numbers {
        read_flag(b"numbered", b"ranged", word)
    } else {
        Ok(false)
    }
}

fn read_birth(words: &Words<'_>, trap: bool, image: bool, numbered: bool) -> Result<Birth, Stop>
    ensures { Gives (λ birth. birth) result (birth_in words.now trap image numbered) }
{
    let pages = read_count(SIZES, words.at(2))?;
    let limit = read_limit(pages, words.at(3))?;
    let users = read_between(1, ACTORS, words.at(5))?;
    let pagers = read_between(1, ACTORS, words.at(6))?;
    Ok(Birth {
        pages,
        limit,
        trap,
        users: users as u32,
        pagers: pagers as u32,
        image,
        numbered,
    })
}

/// The line that begins a journal, in a text with or without numbers of begins.
pub fn read_journal_line(
    alloc: Global,
    numbers: bool,
    part: Part,
    words: &Words<'_>,
) -> Result<Section, Stop>
    ensures { Gives (λ next. next) result (journal_line numbers part words.now) }
{
    let trap = read_flag(b"trap", b"free", words.at(4))?;
    let image = read_flag(b"image", b"-", words.at(7))?;
    let numbered = read_mode(numbers, words.at(8))?;
    let name = words.at(1);
    if !spells_name(name) || knows(part.journals.as_slice(), name) {
        return Err(Stop::Found(Why::Name));
    }
    let birth = read_birth(words, trap, image, numbered)?;
    if part.journals.len() >= JOURNALS {
        return Err(Stop::Found(Why::Limit));
    }
    let name = Items::from_slice(alloc, name)?;
    Ok(Section::Within(
        part,
        Named {
            name,
            birth,
            entries: Items::new(alloc),
        },
    ))
}
