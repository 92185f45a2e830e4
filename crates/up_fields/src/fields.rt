ghost use Rattle.std.specs.Prelude.{◌≡◌, ◌==◌};
ghost use Rattle.up_words.specs.ReadSteps.{Gives, or_why};
ghost use Rattle.up_words.specs.Numbers.{number_between};
ghost use Rattle.up_words.specs.declared.fault.Why.TheVariants.{Word};
ghost use Rattle.up_words.specs.Refusals.{code_in};
ghost use Rattle.up_fields.specs.Fields.{total_of, flag_in, page_in, range_in};

use up_num::{Code, PageNo, PageRange};
use up_words::{ByteRuns, Stop, Why, read_between, spelled_code};

/// Positions, epochs and tickets are at most this.
pub const TICKETS: u64 = u64::MAX;
/// Actors, lengths, ages and whatever is counted are at most this.
pub const COUNTS: u32 = 4_294_967_295;
/// The greatest offset.
pub const OFFSETS: u64 = 8_796_093_022_208;
/// The greatest number of a page.
pub const PAGES: u32 = 2_147_483_648;
/// The greatest page in which an access ends.
pub const LASTS: u32 = 2_147_483_664;
/// How many pages a range or an object has at most.
pub const SIZES: u32 = 65_536;

/// Which of two fixed words this is.
pub fn flag(set: &[u8], unset: &[u8], word: &[u8]) -> Option<bool>
    ensures { result ≡ flag_in set.now unset.now word.now }
{
    if word == set {
        Some(true)
    } else if word == unset {
        Some(false)
    } else {
        None
    }
}

/// Which of two fixed words this is. Any other word is the fault `Word`.
pub fn read_flag(set: &[u8], unset: &[u8], word: &[u8]) -> Result<bool, Stop>
    ensures { Gives (λ flag. flag) result (or_why Word (flag_in set.now unset.now word.now)) }
{
    match flag(set, unset, word) {
        None => Err(Stop::Found(Why::Word)),
        Some(flag) => Ok(flag),
    }
}

/// The code that a word spells. Any other word is the fault `Word`.
pub fn read_code(word: &[u8]) -> Result<Code, Stop>
    ensures { Gives (λ code. code) result (or_why Word (code_in word.now)) }
{
    match spelled_code(word) {
        None => Err(Stop::Found(Why::Word)),
        Some(code) => Ok(code),
    }
}

/// A number of 32 bits, at most the greatest one.
pub fn read_count(most: u32, word: &[u8]) -> Result<u32, Stop>
    ensures { Gives (λ count. count) result (number_between 0 most word.now) }
{
    let count = read_between(0, u64::from(most), word)?;
    Ok(count as u32)
}

/// A page's number, at most the greatest one.
pub fn read_page(most: u32, word: &[u8]) -> Result<PageNo, Stop>
    ensures { Gives (λ page. page) result (page_in most word.now) }
{
    let page = read_count(most, word)?;
    Ok(PageNo(page))
}

/// A range, by the words of its first page and its count.
pub fn read_range(first: &[u8], count: &[u8]) -> Result<PageRange, Stop>
    ensures { Gives (λ range. range) result (range_in first.now count.now) }
{
    let first = read_between(0, u64::from(PAGES), first)?;
    let count = read_between(1, u64::from(SIZES), count)?;
    Ok(PageRange {
        first: first as u32,
        count: count as u32,
    })
}

/// How many bytes the runs spell.
pub fn total(bytes: &Option<ByteRuns>) -> u32
    ensures { result ≡ total_of bytes.now }
{
    match bytes {
        None => 0,
        Some(runs) => runs.total,
    }
}
