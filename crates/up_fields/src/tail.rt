ghost use Rattle.std.specs.Prelude.{◌≡◌, drop, length};
ghost use Rattle.up_words.specs.Words.{word_at, word_is, verb_is};

use std::marker::Model;
use up_words::Words;

/// The words of a line from one of them on.
#[derive(Drop)]
pub struct Tail<'w, 'a> {
    words: &'w Words<'a>,
    from: u32,
}

impl<'w, 'a> Model for Tail<'w, 'a> {
    ghost use Rattle.std.specs.Prelude.{List, ℕ, drop};

    ghost Value = { List (List ℕ) };

    ghost view = { λ tail. drop tail.from tail.words.now };
}

impl<'w, 'a> Tail<'w, 'a> {
    /// The words from this one on, counted from 0; none past the end.
    pub fn new(words: &'w Words<'a>, from: u32) -> Self
        ensures { result ≡ drop from words.now }
    {
        Tail { words, from }
    }

    /// The word at a place, none past the end.
    pub fn at(&self, place: u32) -> &'a [u8]
        ensures { result.now ≡ word_at self.now place }
    {
        self.words.at(self.from as usize + place as usize)
    }

    /// The word at this place is this one.
    pub fn reads(&self, place: u32, text: &[u8]) -> bool
        ensures { result ≡ word_is self.now place text.now }
    {
        self.at(place) == text
    }

    /// How many words these are.
    pub fn len(&self) -> usize
        ensures { result ≡ length self.now }
    {
        self.words.len().saturating_sub(self.from as usize)
    }

    /// The word at this place is this one, and there are so many words.
    pub fn has(&self, place: u32, text: &[u8], count: usize) -> bool
        ensures { result ≡ verb_is self.now place text.now count }
    {
        self.reads(place, text) && self.len() == count
    }
}
