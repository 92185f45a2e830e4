ghost use Rattle.std.specs.Prelude.{◌≡◌, ◌&&◌};
ghost use Rattle.up_stage.specs.Summing.{gives_bytes, is_write, is_done, pages_taken, pages_evicted, first_byte, summary_of};

use up_model::{Call, Entry, Reply};

/// What is told of a journal.
#[derive(Clone, Copy, PartialEq, Eq, Debug)]
pub struct Summary {
    pub entries: u64,
    /// How many reads gave bytes.
    pub reads: u64,
    /// How many writes were done.
    pub writes: u64,
    /// How many pages supplies took.
    pub took: u128,
    /// How many pages evicts made absent.
    pub evicted: u128,
    /// The first bytes that reads gave, in sum, modulo 2^32.
    pub sum: u32,
}

/// Counts what a journal has.
pub fn sum_up(entries: &[Entry]) -> Summary
    ensures { result ≡ summary_of entries.now }
{
    let mut reads: u64 = 0;
    let mut writes: u64 = 0;
    let mut took: u128 = 0;
    let mut evicted: u128 = 0;
    let mut sum: u128 = 0;
    for entry in entries {
        reads += u64::from(gives_bytes(&entry.reply));
        writes += u64::from(is_write_done(&entry.call, &entry.reply));
        took += u128::from(pages_taken(&entry.reply));
        evicted += u128::from(pages_evicted(&entry.reply));
        sum += u128::from(first_byte(&entry.reply));
    }
    Summary {
        entries: entries.len() as u64,
        reads,
        writes,
        took,
        evicted,
        sum: (sum % 4294967296) as u32,
    }
}

fn gives_bytes(reply: &Reply) -> bool
    ensures { result ≡ gives_bytes reply.now }
{
    matches!(reply, Reply::Bytes(_))
}

fn is_write_done(call: &Call, reply: &Reply) -> bool
    ensures { result ≡ (is_write call.now && is_done reply.now) }
{
    match (call, reply) {
        (Call::Write { .. }, Reply::Done) => true,
        _ => false,
    }
}

fn pages_taken(reply: &Reply) -> u32
    ensures { result ≡ pages_taken reply.now }
{
    match reply {
        Reply::Took { pages, .. } => *pages,
        _ => 0,
    }
}

fn pages_evicted(reply: &Reply) -> u64
    ensures { result ≡ pages_evicted reply.now }
{
    match reply {
        Reply::Pages(pages) => pages.len() as u64,
        _ => 0,
    }
}

fn first_byte(reply: &Reply) -> u8
    ensures { result ≡ first_byte reply.now }
{
    match reply {
        Reply::Bytes(bytes) => match bytes.as_slice().first() {
            Some(byte) => *byte,
            None => 0,
        },
        _ => 0,
    }
}
