ghost use Rattle.std.specs.Prelude.{◌≡◌, ◌≤◌, map, string_bytes, IfOk, IfSome, IsNone};
ghost use Rattle.pagerd.specs.Generated.{IsGen, IsNoGen, Summarizes, summary_text};

use crate::playing::play_script;
use itoa::Buffer;
use std::alloc::Global;
use up_num::Memory;
use up_stage::{Summary, generate, sum_up};
use up_words::parse_number;

/// The greatest count of rounds.
const ROUNDS: u64 = 12_000;

/// A script that is to be generated: from which number, and of how many rounds.
#[derive(Clone, Copy, PartialEq, Eq, Debug)]
pub struct Seed {
    pub seed: u64,
    pub rounds: u32,
}

/// What the words ask for, where they are `gen` and two numbers within their limits.
pub fn read_seed(words: &[String]) -> Option<Seed>
    ensures some { IfSome result (λ asked. IsGen (map string_bytes words.now) asked.seed asked.rounds) }
    ensures small { IfSome result (λ asked. asked.rounds ≤ 12000) }
    ensures none { IsNone result → IsNoGen (map string_bytes words.now) }
{
    match words {
        [command, seed, rounds] => {
            if command.as_str() != "gen" {
                return None;
            }
            let seed = parse_number(u64::MAX, seed.as_bytes())?;
            let rounds = parse_number(ROUNDS, rounds.as_bytes())?;
            Some(Seed {
                seed,
                rounds: rounds as u32,
            })
        }
        _ => None,
    }
}

/// Does the generated script, and gives the line that tells of its journal.
pub fn told_of(alloc: Global, asked: Seed) -> Result<Vec<u8>, Memory>
    requires { asked.rounds ≤ 12000 }
    ensures { IfOk result (λ text. Summarizes asked.seed asked.rounds text.items) }
{
    let script = generate(alloc, asked.seed, asked.rounds)?;
    let mut ended = play_script(alloc, &script)?;
    match ended.pop() {
        Some(entries) => summary_line(alloc, asked, &sum_up(entries.as_slice())),
        None => unreachable!(),
    }
}

fn summary_line(alloc: Global, asked: Seed, summary: &Summary) -> Result<Vec<u8>, Memory>
    ensures { IfOk result (λ text. text.items ≡ summary_text asked.seed asked.rounds summary.now) }
{
    let mut text = Vec::new(alloc);
    let mut buffer = Buffer::new();
    text.extend_from_slice(b"gen ")?;
    text.extend_from_slice(buffer.format(asked.seed).as_bytes())?;
    text.extend_from_slice(b" ")?;
    text.extend_from_slice(buffer.format(asked.rounds).as_bytes())?;
    text.extend_from_slice(b" entries ")?;
    text.extend_from_slice(buffer.format(summary.entries).as_bytes())?;
    text.extend_from_slice(b" reads ")?;
    text.extend_from_slice(buffer.format(summary.reads).as_bytes())?;
    text.extend_from_slice(b" writes ")?;
    text.extend_from_slice(buffer.format(summary.writes).as_bytes())?;
    text.extend_from_slice(b" took ")?;
    text.extend_from_slice(buffer.format(summary.took).as_bytes())?;
    text.extend_from_slice(b" evicted ")?;
    text.extend_from_slice(buffer.format(summary.evicted).as_bytes())?;
    text.extend_from_slice(b" sum ")?;
    text.extend_from_slice(buffer.format(summary.sum).as_bytes())?;
    text.extend_from_slice(b"\n")?;
    Ok(text)
}
