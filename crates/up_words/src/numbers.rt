ghost use Rattle.std.specs.Prelude.{◌≡◌, ◌≤◌, ◌<◌, IfOk, IfSome};
ghost use Rattle.up_words.specs.ReadSteps.{Gives};
ghost use Rattle.up_words.specs.Numbers.{digits_from, digits_up_to, has_bad_front, number, number_up_to, number_between};

use crate::fault::{Stop, Why};

fn is_bad_front(word: &[u8]) -> bool
    ensures { result ≡ has_bad_front word.now }
{
    match word {
        [] => true,
        [_] => false,
        [first, ..] => *first == b'0',
    }
}

/// The digit's value at most, which a number may not pass behind `value`.
#[tactic(auto, unfolding(crate::specs::Numbers::digits_from))]
fn digits(limit: u64, word: &[u8]) -> Option<u64>
    ensures value { result ≡ digits_from limit 0 word.now }
    ensures within { IfSome result (λ n. n ≤ limit) }
{
    let mut value: u64 = 0;
    let mut rest = word;
    while let [byte, after @ ..] = rest {
        if *byte < b'0' || b'9' < *byte {
            return None;
        }
        let digit = u64::from(*byte - b'0');
        if limit / 10 < value || limit - value * 10 < digit {
            return None;
        }
        value = value * 10 + digit;
        rest = after;
    }
    Some(value)
}

/// The number that a word spells, at most the limit.
pub fn parse_number(limit: u64, word: &[u8]) -> Option<u64>
    ensures value { result ≡ number limit word.now }
    ensures within { IfSome result (λ n. n ≤ limit) }
{
    if is_bad_front(word) {
        return None;
    }
    digits(limit, word)
}

#[tactic(auto, unfolding(crate::specs::Numbers::digits_up_to))]
fn digits_capped(most: u32, word: &[u8]) -> Option<u32>
    ensures value { result ≡ digits_up_to most 0 word.now }
    ensures within { IfSome result (λ n. n ≤ most) }
{
    let mut value: u32 = 0;
    let mut rest = word;
    while let [byte, after @ ..] = rest {
        if *byte < b'0' || b'9' < *byte {
            return None;
        }
        let next = u64::from(value) * 10 + u64::from(*byte - b'0');
        value = next.min(u64::from(most)) as u32;
        rest = after;
    }
    Some(value)
}

/// The number that a word spells, or the most where it is greater.
pub fn parse_capped(most: u32, word: &[u8]) -> Option<u32>
    ensures value { result ≡ number_up_to most word.now }
    ensures within { IfSome result (λ n. n ≤ most) }
{
    if is_bad_front(word) {
        return None;
    }
    digits_capped(most, word)
}

/// A field of a line: a number within these bounds. Any other word is the fault `Number`.
pub fn read_between(low: u64, high: u64, word: &[u8]) -> Result<u64, Stop>
    ensures value { Gives (λ n. n) result (number_between low high word.now) }
    ensures least { IfOk result (λ n. low ≤ n) }
    ensures within { IfOk result (λ n. n ≤ high) }
{
    match parse_number(high, word) {
        None => Err(Stop::Found(Why::Number)),
        Some(value) => {
            if value < low {
                return Err(Stop::Found(Why::Number));
            }
            Ok(value)
        }
    }
}
