ghost use Rattle.std.specs.Prelude.{◌≡◌, [], IfOk};
ghost use Rattle.std.specs.List.{list_all};
ghost use Rattle.up_words.specs.ReadSteps.{Gives, each};
ghost use Rattle.up_words.specs.Numbers.{number_between};
ghost use Rattle.up_fields.specs.Limits.{all_pages, all_tickets};
ghost use Rattle.up_fields.specs.Fields.{are_runs, is_run, list_step, page_in, run_of, pages_in, runs_of_pages_in, tickets_in};

use crate::fields::{PAGES, TICKETS, flag, read_flag, read_page, read_range};
use std::alloc::Global;
use up_num::{DirtyRange, Items, Memory, PageSeq, RangeSeq, Woken};
use up_words::{Stop, Why, Words, parts, read_between};

fn add_ticket(found: Woken, piece: &[u8]) -> Result<Woken, Stop>
    ensures { Gives (λ more. more) result (list_step (number_between 0 all_tickets) found piece.now) }
{
    let ticket = read_between(0, TICKETS, piece)?;
    let mut found = found;
    found.push(ticket)?;
    Ok(found)
}

fn add_tickets(alloc: Global, pieces: &Words<'_>) -> Result<Woken, Stop>
    ensures { Gives (λ found. found) result (each (list_step (number_between 0 all_tickets)) [] pieces.now) }
{
    let mut found = Items::new(alloc);
    for at in 0..pieces.len() {
        found = add_ticket(found, pieces.at(at))?;
    }
    Ok(found)
}

/// Tickets joined by commas, or - for none.
pub fn read_tickets(alloc: Global, word: &[u8]) -> Result<Woken, Stop>
    ensures { Gives (λ found. found) result (tickets_in word.now) }
{
    if word == b"-".as_slice() {
        return Ok(Items::new(alloc));
    }
    let pieces = parts(alloc, b',', word)?;
    add_tickets(alloc, &pieces)
}

fn add_page(found: PageSeq, piece: &[u8]) -> Result<PageSeq, Stop>
    ensures { Gives (λ more. more) result (list_step (page_in all_pages) found piece.now) }
{
    let page = read_page(PAGES, piece)?;
    let mut found = found;
    found.push(page)?;
    Ok(found)
}

fn add_pages(alloc: Global, pieces: &Words<'_>) -> Result<PageSeq, Stop>
    ensures { Gives (λ found. found) result (each (list_step (page_in all_pages)) [] pieces.now) }
{
    let mut found = Items::new(alloc);
    for at in 0..pieces.len() {
        found = add_page(found, pieces.at(at))?;
    }
    Ok(found)
}

/// Numbers of pages joined by commas, or - for none.
pub fn read_pages(alloc: Global, word: &[u8]) -> Result<PageSeq, Stop>
    ensures { Gives (λ found. found) result (pages_in word.now) }
{
    if word == b"-".as_slice() {
        return Ok(Items::new(alloc));
    }
    let pieces = parts(alloc, b',', word)?;
    add_pages(alloc, &pieces)
}

/// The piece has a plus sign and a colon where a run of pages has them, and d or z at its end.
fn is_run_of_pages(alloc: Global, piece: &[u8]) -> Result<bool, Memory>
    ensures { IfOk result (λ shaped. shaped ≡ is_run piece.now) }
{
    let sides = parts(alloc, b':', piece)?;
    let numbers = parts(alloc, b'+', sides.at(0))?;
    Ok(sides.len() == 2 && flag(b"z", b"d", sides.at(1)).is_some() && numbers.len() == 2)
}

fn all_shaped(alloc: Global, pieces: &Words<'_>) -> Result<bool, Memory>
    ensures { IfOk result (λ shaped. shaped ≡ list_all is_run pieces.now) }
{
    for place in 0..pieces.len() {
        if !is_run_of_pages(alloc, pieces.at(place))? {
            return Ok(false);
        }
    }
    Ok(true)
}

/// The word is of the form of a list of runs of pages.
pub fn shows_runs(alloc: Global, word: &[u8]) -> Result<bool, Memory>
    ensures { IfOk result (λ shaped. shaped ≡ are_runs word.now) }
{
    if word == b"-".as_slice() {
        return Ok(true);
    }
    let pieces = parts(alloc, b',', word)?;
    all_shaped(alloc, &pieces)
}

fn read_run(alloc: Global, piece: &[u8]) -> Result<DirtyRange, Stop>
    ensures { Gives (λ run. run) result (run_of piece.now) }
{
    if !is_run_of_pages(alloc, piece)? {
        return Err(Stop::Found(Why::Word));
    }
    let sides = parts(alloc, b':', piece)?;
    let zero = read_flag(b"z", b"d", sides.at(1))?;
    let numbers = parts(alloc, b'+', sides.at(0))?;
    let range = read_range(numbers.at(0), numbers.at(1))?;
    Ok(DirtyRange { range, zero })
}

fn add_run(alloc: Global, found: RangeSeq, piece: &[u8]) -> Result<RangeSeq, Stop>
    ensures { Gives (λ more. more) result (list_step run_of found piece.now) }
{
    let run = read_run(alloc, piece)?;
    let mut found = found;
    found.push(run)?;
    Ok(found)
}

fn add_runs(alloc: Global, pieces: &Words<'_>) -> Result<RangeSeq, Stop>
    ensures { Gives (λ found. found) result (each (list_step run_of) [] pieces.now) }
{
    let mut found = Items::new(alloc);
    for at in 0..pieces.len() {
        found = add_run(alloc, found, pieces.at(at))?;
    }
    Ok(found)
}

/// Runs of pages joined by commas, or - for none.
pub fn read_runs_of_pages(alloc: Global, word: &[u8]) -> Result<RangeSeq, Stop>
    ensures { Gives (λ found. found) result (runs_of_pages_in word.now) }
{
    if word == b"-".as_slice() {
        return Ok(Items::new(alloc));
    }
    let pieces = parts(alloc, b',', word)?;
    add_runs(alloc, &pieces)
}
