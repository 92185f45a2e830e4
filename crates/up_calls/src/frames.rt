ghost use Rattle.std.specs.Prelude.{◌≡◌, ◌==◌, ◌++◌, ◌∷◌, OnOk, get_or};
ghost use Rattle.up_words.specs.ReadSteps.{Gives};
ghost use Rattle.up_calls.specs.Frames.{frame_count_in, frames_in, frames_text, is_frames};

use up_fields::{COUNTS, put_number, put_word};
use up_model::Brought;
use up_num::Memory;
use up_words::{Stop, Why, read_between};

fn is_counted(word: &[u8]) -> bool
    ensures { result ≡ (get_or word.now 0 0 == 102) }
{
    match word {
        [] => false,
        [first, ..] => *first == b'f',
    }
}

/// The word is of the form of frames.
pub fn shows_frames(word: &[u8]) -> bool
    ensures { result ≡ is_frames word.now }
{
    word == b"-".as_slice() || word == b"s".as_slice() || is_counted(word)
}

fn read_frame_count(word: &[u8]) -> Result<Brought, Stop>
    ensures { Gives (λ brought. brought) result (frame_count_in word.now) }
{
    if !is_counted(word) {
        return Err(Stop::Found(Why::Word));
    }
    let count = read_between(1, u64::from(COUNTS), &word[1..])?;
    Ok(Brought::Frames(count as u32))
}

/// The frames that a call brought.
pub fn read_frames(word: &[u8]) -> Result<Brought, Stop>
    ensures { Gives (λ brought. brought) result (frames_in word.now) }
{
    if word == b"-".as_slice() {
        Ok(Brought::Nothing)
    } else if word == b"s".as_slice() {
        Ok(Brought::Scanned)
    } else {
        read_frame_count(word)
    }
}

/// A space, and the frames that a call brought.
pub fn put_frames(out: &mut Vec<u8>, brought: Brought) -> Result<(), Memory>
    ensures { OnOk result (out.new.items ≡ out.old.items ++ 32 ∷ frames_text brought) }
{
    match brought {
        Brought::Nothing => put_word(out, b"-"),
        Brought::Frames(count) => {
            put_word(out, b"f")?;
            put_number(out, u64::from(count))
        }
        Brought::Scanned => put_word(out, b"s"),
    }
}
