ghost use Rattle.std.specs.Prelude.{◌≡◌, ◌<◌, [], map, length, IfOk, IfSome, MatchOption, ◌∷◌};
ghost use Rattle.std.specs.List.{list_all};
ghost use Rattle.up_words.specs.ReadSteps.{Gives};
ghost use Rattle.up_words.specs.Words.{split, is_word_byte, is_word, word_at, word_is, verb_is, words_in};

use crate::fault::{Stop, Why};
use std::alloc::{AllocError, Global};
use std::marker::Model;

/// Pieces of a text, as the words of a line.
#[derive(Debug, Drop)]
pub struct Words<'a> {
    items: Vec<&'a [u8]>,
}

impl<'a> Model for Words<'a> {
    ghost use Rattle.std.specs.Prelude.{List, ℕ, map};

    ghost Value = { List (List ℕ) };

    ghost view = { λ words. map (λ word. word.now) words.items.items };
}

impl<'a> Words<'a> {
    pub fn len(&self) -> usize
        ensures { result ≡ length self.now }
    {
        self.items.len()
    }

    /// The word at a place, none past the end.
    pub fn at(&self, place: usize) -> &'a [u8]
        ensures { result.now ≡ word_at self.now place }
    {
        if place < self.items.len() {
            self.items[place]
        } else {
            &[]
        }
    }

    /// The word at this place is this one.
    pub fn reads(&self, place: usize, text: &[u8]) -> bool
        ensures { result ≡ word_is self.now place text.now }
    {
        self.at(place) == text
    }

    /// The word at this place is this one, and there are so many words.
    pub fn has(&self, place: usize, text: &[u8], count: usize) -> bool
        ensures { result ≡ verb_is self.now place text.now count }
    {
        self.reads(place, text) && self.len() == count
    }
}

/// The pieces of a text that a byte parts.
fn pieces(alloc: Global, separator: u8, bytes: &[u8]) -> Result<Vec<&[u8]>, AllocError>
    ensures { IfOk result (λ found. map (λ piece. piece.now) found.items ≡ split separator bytes.now) }
{
    bytes.split(|byte| *byte == separator).collect(alloc)
}

/// The pieces of a text that a byte parts.
pub fn parts(alloc: Global, separator: u8, bytes: &[u8]) -> Result<Words<'_>, AllocError>
    ensures { IfOk result (λ found. found ≡ split separator bytes.now) }
{
    let items = pieces(alloc, separator, bytes)?;
    Ok(Words { items })
}

fn are_printable(bytes: &[u8]) -> bool
    ensures { result ≡ list_all is_word_byte bytes.now }
{
    bytes.iter().all(|byte| 33 <= *byte && *byte <= 126)
}

fn is_good(word: &[u8]) -> bool
    ensures { result ≡ is_word word.now }
{
    !word.is_empty() && are_printable(word)
}

fn are_good(words: &Words<'_>) -> bool
    ensures { result ≡ list_all is_word words.now }
{
    for place in 0..words.len() {
        if !is_good(words.at(place)) {
            return false;
        }
    }
    true
}

/// The words of a line. A byte that no word may have and a wrong space are the fault `Word`.
pub fn read_words(alloc: Global, line: &[u8]) -> Result<Words<'_>, Stop>
    ensures { Gives (λ words. words) result (words_in line.now) }
{
    let words = parts(alloc, b' ', line)?;
    if !are_good(&words) {
        return Err(Stop::Found(Why::Word));
    }
    Ok(words)
}

/// The first line of a text, and what follows its newline, where it has one.
pub fn front(text: &[u8]) -> (&[u8], Option<&[u8]>)
    ensures shorter { IfSome result.1 (λ rest. length rest.now < length text.now) }
    ensures lines { MatchOption result.1 (split 10 text.now ≡ result.0.now ∷ []) (λ rest. split 10 text.now ≡ result.0.now ∷ split 10 rest.now) }
{
    match text.iter().position(|byte| *byte == b'\n') {
        None => (text, None),
        Some(at) => (&text[..at], Some(&text[at + 1..])),
    }
}
