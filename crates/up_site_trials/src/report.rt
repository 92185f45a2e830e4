//! What is written of a worked journal.
ghost use Rattle.std.specs.Prelude.{◌≡◌, ◌≤◌, length, true};
ghost use Rattle.up_text.specs.Versions.{is_version};

use crate::making::{Made, make_all};
use crate::newest::newest;
use std::alloc::Global;
use std::io::{self, ErrorKind};
use up_check::{Verdict, check, check_slow};
use up_disk::MemDisk;
use up_facts::is_settled;
use up_fields::put_bytes;
use up_model::{Birth, Entries};
use up_num::{Bytes, Memory};
use up_text::{Journals, Named, read_journals, write_journals};
use up_words::{ReadFault, Stop, parse_number, read_bytes, read_words};

/// The most bytes that a disk has.
const MOST: u32 = 65_536;

/// More calls than are made on a disk.
const ROOM: u32 = 64;

/// What is told of the one journal of a text.
pub(crate) fn report(alloc: Global, disk: &[u8], text: &[u8]) -> io::Result<Vec<u8>> {
    let journals = match read_journals(alloc, text) {
        Ok(journals) => journals,
        Err(_) => return Err(bad()),
    };
    let Some(worked) = journals.as_slice().first() else {
        return Err(bad());
    };
    let Some((bytes, fail)) = read_disk(alloc, disk) else {
        return Err(bad());
    };
    report_on(alloc, journals.version(), worked, bytes.as_slice(), fail)
}

fn bad() -> io::Error {
    io::Error::from(ErrorKind::InvalidData)
}

/// The bytes of the disk, and the number of its call that fails.
fn read_disk(alloc: Global, line: &[u8]) -> Option<(Bytes, u32)> {
    let words = read_words(alloc, line).ok()?;
    let bytes = read_bytes(alloc, 0, MOST, words.at(1)).ok()?;
    let fail = parse_number(u64::from(ROOM), words.at(2))?;
    Some((bytes, fail as u32))
}

#[tactic(auto, using(crate::proofs::Blocks::blocks_count))]
fn report_on(
    alloc: Global,
    version: u32,
    worked: &Named,
    bytes: &[u8],
    fail: u32,
) -> io::Result<Vec<u8>>
    requires { is_version version ≡ true }
{
    if bytes.len() % 4096 != 0 {
        return Err(bad());
    }
    let disk = MemDisk::new(alloc, bytes, &[fail], ROOM)?;
    let Some(made) = make_all(alloc, worked, disk, bytes.len() / 4096)? else {
        return Err(bad());
    };
    let mut out = Vec::new(alloc);
    put_blocks(alloc, &mut out, &worked.birth, &made, bytes)?;
    let mut told = Vec::new(alloc);
    put_journal(alloc, &mut told, version, worked, made.entries)?;
    told.extend_from_slice(out.as_slice())?;
    Ok(told)
}

/// The text of the journal, and what both programs say of it.
fn put_journal(
    alloc: Global,
    out: &mut Vec<u8>,
    version: u32,
    worked: &Named,
    entries: Entries,
) -> Result<(), Memory>
    requires { is_version version ≡ true }
{
    let mut journals = Journals::new(alloc, version);
    let named = Named {
        name: worked.name.copy(alloc)?,
        birth: worked.birth,
        entries,
    };
    match journals.push(named) {
        Ok(()) => {}
        Err((memory, _)) => return Err(memory),
    }
    write_journals(&journals, out)?;
    let replayed = check(alloc, &journals)?;
    let looked_back = check_slow(alloc, &journals)?;
    let (replayed, looked_back) = (word_of(&replayed), word_of(&looked_back));
    let told = format!(in alloc; "judged {replayed} {looked_back}\n")?;
    out.extend_from_slice(told.as_bytes())
}

fn word_of(verdict: &Verdict) -> &'static str {
    match verdict {
        Verdict::Legal => "legal",
        Verdict::First { .. } => "illegal",
    }
}

fn put_blocks(
    alloc: Global,
    out: &mut Vec<u8>,
    birth: &Birth,
    made: &Made,
    bytes: &[u8],
) -> Result<(), Memory>
    requires { made.now.most ≤ length made.now.disk.start }
{
    for page in 0..made.most {
        let block = made.disk.block(page);
        put_block(alloc, out, birth, &made.entries, block, bytes, page)?;
    }
    Ok(())
}

/// The line of a page.
fn put_block(
    alloc: Global,
    out: &mut Vec<u8>,
    birth: &Birth,
    entries: &Entries,
    block: &[u8],
    bytes: &[u8],
    page: u32,
) -> Result<(), Memory> {
    let entries = entries.as_slice();
    let settled = if is_settled(birth, entries, u64::from(page)) {
        "settled"
    } else {
        "unsettled"
    };
    let first = first_block(bytes, page);
    let due = newest(alloc, birth, entries, first, page)?;
    let word = if due.as_slice() == block {
        "newest"
    } else {
        "old"
    };
    let told = format!(in alloc; "block {page} {settled} {word}")?;
    out.extend_from_slice(told.as_bytes())?;
    put_bytes(out, block)?;
    out.extend_from_slice(b"\n")
}

/// The block of a page at first.
fn first_block(bytes: &[u8], page: u32) -> &[u8] {
    let from = page as usize * 4096;
    bytes.get(from..from + 4096).unwrap_or(&[])
}
