ghost use Rattle.std.specs.Prelude.{◌≡◌, ◌+◌, ◌<◌, ◌++◌, ◌∷◌, [], OnOk, decimal};
ghost use Rattle.up_words.specs.Runs.{bytes_text, hex, run_text, text_from};
ghost use Rattle.up_fields.specs.Text.{code_text, flag_text, list_text, more_text, page_text, range_words, run_of_pages, spaced};

use itoa::Buffer;
use up_num::{Code, DirtyRange, Memory, PageNo, PageRange};

/// A number, with nothing before it.
pub fn put_number(out: &mut Vec<u8>, number: u64) -> Result<(), Memory>
    ensures { OnOk result (out.new.items ≡ out.old.items ++ decimal number) }
{
    let mut buffer = Buffer::new();
    out.extend_from_slice(buffer.format(number).as_bytes())
}

/// A space and a word.
pub fn put_word(out: &mut Vec<u8>, word: &[u8]) -> Result<(), Memory>
    ensures { OnOk result (out.new.items ≡ out.old.items ++ 32 ∷ word.now) }
{
    out.extend_from_slice(b" ")?;
    out.extend_from_slice(word)
}

/// A space and a number.
pub fn put_next(out: &mut Vec<u8>, number: u64) -> Result<(), Memory>
    ensures { OnOk result (out.new.items ≡ out.old.items ++ 32 ∷ decimal number) }
{
    out.extend_from_slice(b" ")?;
    put_number(out, number)
}

/// A space and a page's number.
pub fn put_page(out: &mut Vec<u8>, page: PageNo) -> Result<(), Memory>
    ensures { OnOk result (out.new.items ≡ out.old.items ++ 32 ∷ page_text page) }
{
    put_next(out, u64::from(page.0))
}

/// A space, the first page of a range, a space, and how many pages it has.
pub fn put_range(out: &mut Vec<u8>, range: PageRange) -> Result<(), Memory>
    ensures { OnOk result (out.new.items ≡ out.old.items ++ spaced (range_words range)) }
{
    put_next(out, u64::from(range.first))?;
    put_next(out, u64::from(range.count))
}

/// A space, and one of two fixed words.
pub fn put_flag(out: &mut Vec<u8>, set: &[u8], unset: &[u8], flag: bool) -> Result<(), Memory>
    ensures { OnOk result (out.new.items ≡ out.old.items ++ 32 ∷ flag_text set.now unset.now flag) }
{
    put_word(out, if flag { set } else { unset })
}

/// A word and a number.
pub fn put_with_number(out: &mut Vec<u8>, word: &[u8], number: u64) -> Result<(), Memory>
    ensures { OnOk result (out.new.items ≡ out.old.items ++ spaced (word.now ∷ decimal number ∷ [])) }
{
    put_word(out, word)?;
    put_next(out, number)
}

/// A word and a range.
pub fn put_with_range(out: &mut Vec<u8>, word: &[u8], range: PageRange) -> Result<(), Memory>
    ensures { OnOk result (out.new.items ≡ out.old.items ++ spaced (word.now ∷ range_words range)) }
{
    put_word(out, word)?;
    put_range(out, range)
}

/// A word, and one of two fixed words.
pub fn put_with_flag(
    out: &mut Vec<u8>,
    word: &[u8],
    set: &[u8],
    unset: &[u8],
    flag: bool,
) -> Result<(), Memory>
    ensures { OnOk result (out.new.items ≡ out.old.items ++ spaced (word.now ∷ flag_text set.now unset.now flag ∷ [])) }
{
    put_word(out, word)?;
    put_flag(out, set, unset, flag)
}

/// A space and a code.
pub fn put_code(out: &mut Vec<u8>, code: Code) -> Result<(), Memory>
    ensures { OnOk result (out.new.items ≡ out.old.items ++ 32 ∷ code_text code) }
{
    match code {
        Code::Io => put_word(out, b"io"),
        Code::IoDataIntegrity => put_word(out, b"io-data-integrity"),
        Code::BadState => put_word(out, b"bad-state"),
        Code::NoSpace => put_word(out, b"no-space"),
        Code::BufferTooSmall => put_word(out, b"buffer-too-small"),
    }
}

/// A space, and numbers joined by commas, or - for none.
pub fn put_numbers(out: &mut Vec<u8>, numbers: &[u64]) -> Result<(), Memory>
    ensures { OnOk result (out.new.items ≡ out.old.items ++ 32 ∷ list_text decimal numbers.now) }
{
    match numbers {
        [] => put_word(out, b"-"),
        [first, more @ ..] => {
            put_next(out, *first)?;
            put_more_numbers(out, more)
        }
    }
}

#[tactic(auto, unfolding(crate::specs::Text::more_text))]
fn put_more_numbers(out: &mut Vec<u8>, numbers: &[u64]) -> Result<(), Memory>
    ensures { OnOk result (out.new.items ≡ out.old.items ++ more_text decimal numbers.now) }
{
    let mut rest = numbers;
    while let [number, after @ ..] = rest {
        out.extend_from_slice(b",")?;
        put_number(out, *number)?;
        rest = after;
    }
    Ok(())
}

/// A space, and page numbers joined by commas, or - for none.
pub fn put_pages(out: &mut Vec<u8>, pages: &[PageNo]) -> Result<(), Memory>
    ensures { OnOk result (out.new.items ≡ out.old.items ++ 32 ∷ list_text page_text pages.now) }
{
    match pages {
        [] => put_word(out, b"-"),
        [first, more @ ..] => {
            put_page(out, *first)?;
            put_more_pages(out, more)
        }
    }
}

#[tactic(auto, unfolding(crate::specs::Text::more_text))]
fn put_more_pages(out: &mut Vec<u8>, pages: &[PageNo]) -> Result<(), Memory>
    ensures { OnOk result (out.new.items ≡ out.old.items ++ more_text page_text pages.now) }
{
    let mut rest = pages;
    while let [page, after @ ..] = rest {
        out.extend_from_slice(b",")?;
        put_number(out, u64::from(page.0))?;
        rest = after;
    }
    Ok(())
}

/// A space, and runs of pages joined by commas, or - for none.
pub fn put_ranges(out: &mut Vec<u8>, runs: &[DirtyRange]) -> Result<(), Memory>
    ensures { OnOk result (out.new.items ≡ out.old.items ++ 32 ∷ list_text run_of_pages runs.now) }
{
    match runs {
        [] => put_word(out, b"-"),
        [first, more @ ..] => {
            out.extend_from_slice(b" ")?;
            put_run_of_pages(out, *first)?;
            put_more_ranges(out, more)
        }
    }
}

#[tactic(auto, unfolding(crate::specs::Text::more_text))]
fn put_more_ranges(out: &mut Vec<u8>, runs: &[DirtyRange]) -> Result<(), Memory>
    ensures { OnOk result (out.new.items ≡ out.old.items ++ more_text run_of_pages runs.now) }
{
    let mut rest = runs;
    while let [run, after @ ..] = rest {
        out.extend_from_slice(b",")?;
        put_run_of_pages(out, *run)?;
        rest = after;
    }
    Ok(())
}

fn put_run_of_pages(out: &mut Vec<u8>, run: DirtyRange) -> Result<(), Memory>
    ensures { OnOk result (out.new.items ≡ out.old.items ++ run_of_pages run) }
{
    put_number(out, u64::from(run.range.first))?;
    out.extend_from_slice(b"+")?;
    put_number(out, u64::from(run.range.count))?;
    out.extend_from_slice(if run.zero { b":z" } else { b":d" })
}

/// A space, and bytes as runs, each as long as it can be.
pub fn put_bytes(out: &mut Vec<u8>, bytes: &[u8]) -> Result<(), Memory>
    ensures { OnOk result (out.new.items ≡ out.old.items ++ 32 ∷ bytes_text bytes.now) }
{
    out.extend_from_slice(b" ")?;
    match bytes {
        [] => Ok(()),
        [first, more @ ..] => put_runs(out, *first, more),
    }
}

// The runs of a byte and of those behind it.
#[tactic(auto, unfolding(up_words::specs::Runs::text_from))]
fn put_runs(out: &mut Vec<u8>, first: u8, bytes: &[u8]) -> Result<(), Memory>
    ensures { OnOk result (out.new.items ≡ out.old.items ++ text_from first 1 bytes.now) }
{
    let mut byte = first;
    let mut count = 1u64;
    let mut rest = bytes;
    while let [next, after @ ..] = rest {
        if *next == byte {
            count += 1;
        } else {
            put_run(out, byte, count)?;
            out.extend_from_slice(b"+")?;
            byte = *next;
            count = 1;
        }
        rest = after;
    }
    put_run(out, byte, count)
}

// So many times a byte, as 61*3.
fn put_run(out: &mut Vec<u8>, byte: u8, count: u64) -> Result<(), Memory>
    ensures { OnOk result (out.new.items ≡ out.old.items ++ run_text byte count) }
{
    out.extend_from_slice(&[hex_digit(byte / 16), hex_digit(byte % 16), b'*'])?;
    put_number(out, count)
}

// A lower-case hexadecimal digit.
fn hex_digit(digit: u8) -> u8
    requires { digit < 16 }
    ensures { result ≡ hex digit }
{
    if digit < 10 {
        b'0' + digit
    } else {
        b'a' + (digit - 10)
    }
}
