ghost use Rattle.std.specs.Prelude.{◌≡◌};
ghost use Rattle.up_words.specs.Refusals.{code_in};

use up_num::Code;

/// The code of a pager that a word spells.
pub fn spelled_code(word: &[u8]) -> Option<Code>
    ensures { result ≡ code_in word.now }
{
    if word == b"io".as_slice() {
        Some(Code::Io)
    } else if word == b"io-data-integrity".as_slice() {
        Some(Code::IoDataIntegrity)
    } else if word == b"bad-state".as_slice() {
        Some(Code::BadState)
    } else if word == b"no-space".as_slice() {
        Some(Code::NoSpace)
    } else if word == b"buffer-too-small".as_slice() {
        Some(Code::BufferTooSmall)
    } else {
        None
    }
}
