ghost use Rattle.std.specs.Prelude.{◌≡◌, ◌≤◌, ◌<◌, length, min, IfOk, IfSome};
ghost use Rattle.std.specs.List.{sum_by};
ghost use Rattle.up_words.specs.ReadSteps.{Gives, each, or_why};
ghost use Rattle.up_words.specs.Numbers.{number_up_to};
ghost use Rattle.up_words.specs.declared.fault.Why.TheVariants.{Bytes};
ghost use Rattle.up_words.specs.Runs.{too_many, hex_value, run_in, run_step, no_runs, runs_in, spread, bytes_between};

use crate::fault::{Stop, Why};
use crate::numbers::parse_capped;
use crate::words::{Words, parts};
use std::alloc::Global;
use up_num::{Bytes, Items, Memory};

/// One more byte than any text may spell (2^28 + 1). Longer lists aren't told apart.
pub const TOO_MANY: u32 = 268_435_457;

/// A byte, and how often it stands.
#[derive(Clone, Copy, PartialEq, Eq, Debug)]
pub struct ByteRun {
    pub byte: u8,
    pub count: u32,
}

/// The runs that a word spells so far, the byte of the last one (256 before the first), and how many bytes they are in
/// all, at most `TOO_MANY`.
#[derive(Debug, Drop)]
pub struct ByteRuns {
    pub found: Items<ByteRun>,
    pub last: u32,
    pub total: u32,
}

fn digit(byte: u8) -> Option<u8>
    ensures value { result ≡ hex_value byte }
    ensures within { IfSome result (λ n. n < 16) }
{
    match byte {
        b'0'..=b'9' => Some(byte - b'0'),
        b'a'..=b'f' => Some(byte - b'a' + 10),
        _ => None,
    }
}

fn read_digit(byte: u8) -> Result<u8, Stop>
    ensures value { Gives (λ n. n) result (or_why Bytes (hex_value byte)) }
    ensures within { IfOk result (λ n. n < 16) }
{
    match digit(byte) {
        None => Err(Stop::Found(Why::Bytes)),
        Some(value) => Ok(value),
    }
}

fn read_count(word: &[u8]) -> Result<u32, Stop>
    ensures value { Gives (λ n. n) result (or_why Bytes (number_up_to too_many word.now)) }
    ensures within { IfOk result (λ n. n ≤ too_many) }
{
    match parse_capped(TOO_MANY, word) {
        None => Err(Stop::Found(Why::Bytes)),
        Some(value) => Ok(value),
    }
}

fn read_run(piece: &[u8]) -> Result<ByteRun, Stop>
    ensures value { Gives (λ run. run) result (run_in piece.now) }
    ensures within { IfOk result (λ run. run.count ≤ too_many) }
{
    if piece.len() < 3 {
        return Err(Stop::Found(Why::Bytes));
    }
    let high = read_digit(piece[0])?;
    let low = read_digit(piece[1])?;
    if piece[2] != b'*' {
        return Err(Stop::Found(Why::Bytes));
    }
    let count = read_count(&piece[3..])?;
    if count == 0 {
        return Err(Stop::Found(Why::Bytes));
    }
    Ok(ByteRun {
        byte: high * 16 + low,
        count,
    })
}

fn add_run(runs: ByteRuns, piece: &[u8]) -> Result<ByteRuns, Stop>
    requires { runs.total ≤ too_many }
    ensures value { Gives (λ more. more) result (run_step runs piece.now) }
    ensures total { runs.total ≡ min (sum_by (λ run. run.count) runs.found) too_many → IfOk result (λ more. more.total ≡ min (sum_by (λ run. run.count) more.found) too_many) }
{
    let run = read_run(piece)?;
    if u32::from(run.byte) == runs.last {
        return Err(Stop::Found(Why::Bytes));
    }
    let ByteRuns {
        mut found,
        last: _,
        total,
    } = runs;
    found.push(run)?;
    Ok(ByteRuns {
        found,
        last: u32::from(run.byte),
        total: (total + run.count).min(TOO_MANY),
    })
}

fn add_runs(alloc: Global, pieces: &Words<'_>) -> Result<ByteRuns, Stop>
    ensures value { Gives (λ runs. runs) result (each run_step no_runs pieces.now) }
    ensures total { IfOk result (λ runs. runs.total ≡ min (sum_by (λ run. run.count) runs.found) too_many) }
{
    let mut runs = ByteRuns {
        found: Items::new(alloc),
        last: 256,
        total: 0,
    };
    for at in 0..pieces.len() {
        runs = add_run(runs, pieces.at(at))?;
    }
    Ok(runs)
}

/// The runs that a word spells. Any other word is the fault `Bytes`. It takes memory by the length of the word, and not
/// by the number of bytes that the word spells.
pub fn read_runs(alloc: Global, word: &[u8]) -> Result<ByteRuns, Stop>
    ensures value { Gives (λ runs. runs) result (runs_in word.now) }
    ensures total { IfOk result (λ runs. runs.total ≡ min (sum_by (λ run. run.count) runs.found) too_many) }
{
    let pieces = parts(alloc, b'+', word)?;
    add_runs(alloc, &pieces)
}

fn spread_all(alloc: Global, runs: &[ByteRun]) -> Result<Vec<u8>, Memory>
    ensures bytes { IfOk result (λ bytes. bytes.items ≡ spread runs.now) }
    ensures total { IfOk result (λ bytes. length bytes.items ≡ sum_by (λ run. run.count) runs.now) }
{
    let mut bytes = Vec::new(alloc);
    for run in runs {
        bytes.resize(bytes.len() + run.count as usize, run.byte)?;
    }
    Ok(bytes)
}

/// The bytes of all runs.
pub fn spread_runs(alloc: Global, runs: &ByteRuns) -> Result<Bytes, Memory>
    ensures bytes { IfOk result (λ bytes. bytes ≡ spread runs.now.found) }
    ensures total { IfOk result (λ bytes. length bytes ≡ sum_by (λ run. run.count) runs.now.found) }
{
    let bytes = spread_all(alloc, runs.found.as_slice())?;
    Ok(Items::from_vec(bytes))
}

/// A field of a line: at least `low` and at most `high` bytes. They are counted before they take memory.
pub fn read_bytes(alloc: Global, low: u32, high: u32, word: &[u8]) -> Result<Bytes, Stop>
    requires { high < too_many }
    ensures value { Gives (λ bytes. bytes) result (bytes_between low high word.now) }
    ensures least { IfOk result (λ bytes. low ≤ length bytes) }
    ensures within { IfOk result (λ bytes. length bytes ≤ high) }
{
    let runs = read_runs(alloc, word)?;
    if runs.total < low || high < runs.total {
        return Err(Stop::Found(Why::Bytes));
    }
    Ok(spread_runs(alloc, &runs)?)
}
